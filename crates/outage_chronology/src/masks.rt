ghost use Rattle.std.specs.Prelude.{◌≡◌, ℕ, ◌<◌, ◌≤◌, IsTrue, [], filter, length, slice_index, vec_capacity, true, false};
ghost use Rattle.std.specs.List.{range_with_len};
ghost use Rattle.outage_chronology.specs.Masks.{up_mask, says_up, IsMask, is_below, turns, next_state, threshold_of, AreOfStates};

/// The mask of a component that is up.
const UP: u32 = u32::MAX;

/// The greatest word that thresholds tell apart: none is just above it.
const LAST_WORD: u32 = u32::MAX - 1;

/// Whether a word is below a threshold.
#[inline]
fn is_below(word: u32, threshold: u32) -> bool
    ensures { result ≡ is_below word threshold }
{
    word.min(LAST_WORD) < threshold
}

/// Whether a word is above a threshold, as far as their halves tell: a word just above it counts as not.
#[inline]
fn is_above(word: u32, threshold: u32) -> bool
    ensures { IsTrue result → is_below word threshold ≡ false }
{
    // Halves, since they have no first bit: a processor that compares many numbers at once takes them as signed.
    word >> 1 > threshold >> 1
}

/// Whether all words are above their thresholds, as far as halves tell.
#[inline]
fn are_above(words: &[u32], thresholds: &[u32]) -> bool
    requires { length thresholds.now ≡ length words.now }
    ensures { IsTrue result → (k : ℕ) → k < length words.now
        → is_below (slice_index words.now k) (slice_index thresholds.now k) ≡ false }
{
    // No branch: what a word decides can't be foretold, and most hours decide nothing.
    let mut all = true;
    for at in 0..words.len() {
        all &= is_above(words[at], thresholds[at]);
    }
    all
}

/// So many words are compared at once.
const AT_ONCE: usize = 8;

/// Whether some word may be below its threshold.
#[inline]
fn any_below(words: &[u32], thresholds: &[u32]) -> bool
    requires { length thresholds.now ≡ length words.now }
    ensures { result ≡ false → (k : ℕ) → k < length words.now
        → is_below (slice_index words.now k) (slice_index thresholds.now k) ≡ false }
{
    let count = words.len();
    if count < AT_ONCE {
        return !are_above(words, thresholds);
    }
    // The last few are compared together with some before them, so that none is compared alone.
    let whole = count - count % AT_ONCE;
    let last = count - AT_ONCE;
    !are_above(&words[..whole], &thresholds[..whole])
        || !are_above(&words[last..], &thresholds[last..])
}

/// The threshold below which a word changes a state: that of failure where the mask says up, else that of
/// repair.
#[inline]
fn threshold_of(mask: u32, fails: u32, is_repaired: u32) -> u32
    ensures { result ≡ threshold_of (says_up mask) fails is_repaired }
{
    if mask != 0 { fails } else { is_repaired }
}

/// Sets each threshold to that of the state that its mask says.
pub(crate) fn set_thresholds(
    thresholds: &mut [u32],
    masks: &[u32],
    fails: &[u32],
    is_repaired: &[u32],
)
    requires masks { length masks.now ≡ length thresholds.old }
    requires fails { length fails.now ≡ length thresholds.old }
    requires repairs { length is_repaired.now ≡ length thresholds.old }
    ensures { AreOfStates masks.now fails.now is_repaired.now thresholds.new (length thresholds.old) }
{
    for at in 0..thresholds.len() {
        thresholds[at] = threshold_of(masks[at], fails[at], is_repaired[at]);
    }
}

/// Sets each mask to that of a component that is up.
pub(crate) fn set_all_up(masks: &mut [u32])
    ensures { (k : ℕ) → k < length masks.old → slice_index masks.new k ≡ up_mask true }
{
    masks.fill(UP);
}

/// So many components are looked at before any of them is changed.
const LOT: usize = 16;

/// Goes on to the next masks, by the words and the thresholds of failure and repair, and lists the places
/// of the masks that change, ascending. For each component the threshold of its state is kept, so that a lot
/// in which none changes, as most are, costs a comparison a component.
pub(crate) fn go_on(
    masks: &mut [u32],
    thresholds: &mut [u32],
    words: &[u32],
    fails: &[u32],
    is_repaired: &[u32],
    changed: &mut Vec<u32>,
)
    requires words { length words.now ≡ length masks.old }
    requires fails { length fails.now ≡ length masks.old }
    requires repairs { length is_repaired.now ≡ length masks.old }
    requires sizes { length thresholds.old ≡ length masks.old }
    requires room { length masks.old ≤ vec_capacity changed.old }
    requires few { length masks.old ≤ 2688 }
    requires masks { (k : ℕ) → k < length masks.old → IsMask (slice_index masks.old k) }
    requires thresholds { AreOfStates masks.old fails.now is_repaired.now thresholds.old (length masks.old) }
    ensures masks { (k : ℕ) → k < length masks.old → slice_index masks.new k ≡ up_mask
        (next_state (says_up (slice_index masks.old k)) (slice_index words.now k)
        (slice_index fails.now k) (slice_index is_repaired.now k)) }
    ensures changed { changed.new.items ≡ filter (λ k. turns
        (says_up (slice_index masks.old k)) (slice_index words.now k)
        (slice_index fails.now k) (slice_index is_repaired.now k)) (range_with_len 0 (length masks.old)) }
    ensures thresholds { AreOfStates masks.new fails.now is_repaired.now thresholds.new (length masks.old) }
    ensures room { vec_capacity changed.new ≡ vec_capacity changed.old }
{
    changed.clear();
    // In most hours none changes.
    let mut from = if any_below(words, thresholds) {
        0
    } else {
        masks.len()
    };
    while from < masks.len() {
        let to = masks.len().min(from + LOT);
        if !are_above(&words[from..to], &thresholds[from..to]) {
            for at in from..to {
                if is_below(words[at], thresholds[at]) {
                    let mask = !masks[at];
                    masks[at] = mask;
                    thresholds[at] = threshold_of(mask, fails[at], is_repaired[at]);
                    changed.push_reserved(at as u32);
                }
            }
        }
        from = to;
    }
}
