ghost use Rattle.std.specs.Prelude.{◌≡◌, ◌^◌, ◌<◌, ◌≤◌, length};
ghost use Rattle.sample_streams.specs.Words.{AreNext, passed};

use rand_chacha::ChaCha8Rng;
use rand_core::utils::NextWord;

/// The words of a lot: those that the generator works out at once. It holds them, and hands them out one by one.
const LOT: usize = 64;

/// The blocks of a lot, and the words of a block.
const LOT_BLOCKS: u64 = 4;

const BLOCK_WORDS: u128 = 16;

/// Draws the next words, as many as there is room for.
#[inline]
pub(crate) fn next_words(generator: &mut ChaCha8Rng, words: &mut [u32])
    requires { generator.old.word_pos < 2 ^ 68 }
    ensures words { AreNext generator.old (length words.old) words.new }
    ensures next { generator.new ≡ passed (length words.old) generator.old }
{
    let drawn = next_lots(generator, words);
    for word in words[drawn..].iter_mut() {
        *word = generator.next_word();
    }
}

/// Draws whole lots while there is room for one, and says how many words they have: none where the generator
/// stands within a block.
#[inline]
fn next_lots(generator: &mut ChaCha8Rng, words: &mut [u32]) -> usize
    requires { generator.old.word_pos < 2 ^ 68 }
    ensures room { result ≤ length words.old }
    ensures words { AreNext generator.old result words.new }
    ensures next { generator.new ≡ passed result generator.old }
{
    let place = generator.get_word_pos();
    if place % BLOCK_WORDS != 0 {
        return 0;
    }
    let mut block = (place / BLOCK_WORDS) as u64;
    let mut drawn = 0;
    while drawn + LOT <= words.len() {
        // It is set to where it stands already: so the compiler knows that it stands at a block's start, works a
        // lot out, and copies it as a whole, where it would else ask before each word whether some are left.
        generator.set_word_pos(u128::from(block) * BLOCK_WORDS);
        next_lot(generator, &mut words[drawn..drawn + LOT]);
        block = block.wrapping_add(LOT_BLOCKS);
        drawn += LOT;
    }
    drawn
}

/// Draws a lot. No loop stands here and below, since the compiler wouldn't see through it.
#[inline(always)]
fn next_lot(generator: &mut ChaCha8Rng, words: &mut [u32])
    requires place { generator.old.word_pos < 2 ^ 68 }
    requires size { length words.old ≡ LOT }
    ensures words { AreNext generator.old LOT words.new }
    ensures next { generator.new ≡ passed LOT generator.old }
{
    next_sixteen(generator, &mut words[0..16]);
    next_sixteen(generator, &mut words[16..32]);
    next_sixteen(generator, &mut words[32..48]);
    next_sixteen(generator, &mut words[48..64]);
}

/// Draws sixteen words.
#[inline(always)]
fn next_sixteen(generator: &mut ChaCha8Rng, words: &mut [u32])
    requires place { generator.old.word_pos < 2 ^ 68 }
    requires size { length words.old ≡ 16 }
    ensures words { AreNext generator.old 16 words.new }
    ensures next { generator.new ≡ passed 16 generator.old }
{
    next_four(generator, &mut words[0..4]);
    next_four(generator, &mut words[4..8]);
    next_four(generator, &mut words[8..12]);
    next_four(generator, &mut words[12..16]);
}

/// Draws four words.
#[inline(always)]
fn next_four(generator: &mut ChaCha8Rng, words: &mut [u32])
    requires place { generator.old.word_pos < 2 ^ 68 }
    requires size { length words.old ≡ 4 }
    ensures words { AreNext generator.old 4 words.new }
    ensures next { generator.new ≡ passed 4 generator.old }
{
    words[0] = generator.next_word();
    words[1] = generator.next_word();
    words[2] = generator.next_word();
    words[3] = generator.next_word();
}
