ghost use Rattle.std.specs.Prelude.{◌≡◌, ℕ, ◌+◌, ◌^◌, ◌<◌, ◌≤◌, [], ◌∷◌, length, vec_len, vec_capacity, slice_index_or};
ghost use Rattle.sample_totals.specs.CutRows.{hours_at, cut_unserved, hour_rows, AddsRows, no_row};

/// The hours of one cut: the zones of the cut as a mask with bit `z` for zone `z`, how many hours it
/// was the cut of, and what these hours left unserved in MWh.
#[derive(Clone, Copy, Debug, PartialEq, Eq)]
pub struct CutRow {
    /// The zones of the cut.
    pub mask: u32,
    /// The hours.
    pub hours: u64,
    /// The unserved energy of these hours in MWh.
    pub unserved: u64,
}

/// The place of the first row whose mask isn't below this one.
fn place_of(rows: &[CutRow], mask: u32) -> usize
    ensures within { result ≤ length rows.now }
    ensures below { (k : ℕ) → k < result → (slice_index_or rows.now k no_row).mask < mask }
    ensures above { result < length rows.now → mask ≤ (slice_index_or rows.now result no_row).mask }
{
    for (at, row) in rows.iter().enumerate() {
        if row.mask >= mask {
            return at;
        }
    }
    rows.len()
}

/// Adds the hours and the energy of a row to the row of its mask, which is put in its place where
/// there is none.
pub(crate) fn add_row(rows: &mut Vec<CutRow>, more: CutRow)
    requires hours { hours_at rows.old.items more.mask + more.hours < 2 ^ 64 }
    requires unserved { cut_unserved rows.old.items more.mask + more.unserved < 2 ^ 64 }
    requires room { vec_len rows.old < vec_capacity rows.old }
    ensures added { AddsRows rows.old.items (more ∷ []) rows.new.items }
    ensures one_more { vec_len rows.new ≤ vec_len rows.old + 1 }
    ensures capacity { vec_capacity rows.old ≤ vec_capacity rows.new }
{
    let at = place_of(rows, more.mask);
    if at < rows.len() && rows[at].mask == more.mask {
        let row = &mut rows[at];
        row.hours += more.hours;
        row.unserved += more.unserved;
    } else {
        rows.insert(at, more).unwrap();
    }
}

/// Adds the row of an hour with a cut and what the hour left unserved; an hour without a cut has none.
pub(crate) fn add_cut(rows: &mut Vec<CutRow>, cut: u32, unserved: u64)
    requires hours { hours_at rows.old.items cut + 1 < 2 ^ 64 }
    requires unserved { cut_unserved rows.old.items cut + unserved < 2 ^ 64 }
    requires room { vec_len rows.old < vec_capacity rows.old }
    ensures added { AddsRows rows.old.items (hour_rows cut unserved) rows.new.items }
    ensures one_more { vec_len rows.new ≤ vec_len rows.old + 1 }
    ensures capacity { vec_capacity rows.old ≤ vec_capacity rows.new }
{
    if cut != 0 {
        add_row(
            rows,
            CutRow {
                mask: cut,
                hours: 1,
                unserved,
            },
        );
    }
}

/// Adds rows one by one.
pub(crate) fn add_rows(rows: &mut Vec<CutRow>, more: &[CutRow])
    requires hours { (m : ℕ) → hours_at rows.old.items m + hours_at more.now m < 2 ^ 64 }
    requires unserved { (m : ℕ) → cut_unserved rows.old.items m + cut_unserved more.now m < 2 ^ 64 }
    requires room { vec_len rows.old + length more.now ≤ vec_capacity rows.old }
    ensures { AddsRows rows.old.items more.now rows.new.items }
{
    for row in more {
        add_row(rows, *row);
    }
}
