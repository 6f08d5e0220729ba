ghost use Rattle.std.specs.Prelude.{◌≡◌, ℕ, ◌+◌, ◌/◌, ◌%◌, ◌^◌, ◌<◌, length, slice_index};
ghost use Rattle.sample_streams.specs.Draw.{draw, next_of, behind};

use crate::words::next_words;
use rand_chacha::ChaCha8Rng;
use rand_core::SeedableRng;
use rand_core::utils::NextWord;
use std::marker::Model;
use std::mem;

/// The draws of one sample after another: for a sample those of hour 0 by component, then those of
/// hour 1, and so on. A draw depends on the seed, the sample, the hour and the component alone. No
/// call takes memory.
///
/// The words are those of ChaCha with 8 rounds. The key is the seed's eight little-endian bytes and
/// 24 zero bytes, the stream is the sample, and the place is `hour * components + component`. A
/// stream repeats after 2^68 words. (This project's rule.)
#[derive(Drop)]
pub struct SampleStream {
    seed: u64,
    components: u32,
    words: ChaCha8Rng,
}

impl Model for SampleStream {
    ghost use Rattle.std.specs.Prelude.{◌≡◌, ◌<◌, ◌^◌};
    ghost use Rattle.rand_chacha.specs.ChaCha.{key_of};
    ghost use Rattle.sample_streams.specs.Draw.{Draws, key_bytes};

    ghost Value = { Draws };

    ghost view = { λ s. record {
      seed = s.seed;
      components = s.components;
      sample = s.words.stream;
      place = s.words.word_pos;
    } };

    ghost invariant = { λ s. (s.words.key ≡ key_of (key_bytes s.seed)) × (s.words.word_pos < 2 ^ 68) };
}

impl SampleStream {
    /// The draws under a seed, for so many components, at the start of sample 0.
    pub fn new(seed: u64, components: u32) -> SampleStream
        ensures { result ≡ record { seed = seed; components = components; sample = 0; place = 0 } }
    {
        let mut key = [0; 32];
        key[0..8].copy_from_slice(&seed.to_le_bytes());
        SampleStream {
            seed,
            components,
            words: ChaCha8Rng::from_seed(key),
        }
    }

    /// Goes to the first draw of a sample.
    pub fn start(&mut self, sample: u32)
        ensures { self.new ≡ record self.old { sample = sample; place = 0 } }
    {
        self.words.set_word_pos(0);
        self.words.set_stream(u64::from(sample));
    }

    /// The next draw.
    #[inline]
    pub fn next_draw(&mut self) -> u32
        requires { 0 < self.old.components }
        ensures word { let hour = self.old.place / self.old.components in
            let component = self.old.place % self.old.components in
            result ≡ draw self.old.components self.old.seed self.old.sample hour component }
        ensures next { self.new ≡ behind 1 self.old }
    {
        self.words.next_word()
    }

    /// The next draws, in order: as many as `words` has room for. Each is the one that `next_draw` would give.
    /// Many draws at once, as those of some hours, cost far less this way than one by one.
    pub fn next_draws(&mut self, words: &mut [u32])
        ensures words { (k : ℕ) → k < length words.old
            → slice_index words.new k ≡ next_of (behind k self.old) }
        ensures range { (k : ℕ) → k < length words.old → slice_index words.new k < 2 ^ 32 }
        ensures next { self.new ≡ behind (length words.old) self.old }
    {
        // The generator is taken out while they are drawn: behind a reference its place would be stored for each.
        let mut taken = mem::replace(&mut self.words, ChaCha8Rng::from_seed([0; 32]));
        next_words(&mut taken, words);
        self.words = taken;
    }
}
