ghost use Rattle.std.specs.Prelude.{◌≡◌, ℕ, ◌+◌, ◌<◌, ◌≤◌, ◌^◌, IfOk, length, slice_index};
ghost use Rattle.sample_streams.specs.Draw.{draw};

use crate::SampleStream;
use ra_base::OutOfMemory;
use std::alloc::Global;
use std::marker::Model;

/// The draws of one hour of a sample after another. Those of a few hours are drawn at once, which costs less
/// than hour by hour. Only `new` takes memory.
#[derive(Drop)]
pub struct HourDraws {
    stream: SampleStream,
    components: u32,
    // The draws of the hours that are drawn at once, from the first on, one hour behind another. It stands at
    // the hour that so many of them have passed before.
    words: Vec<u32>,
    first: u32,
    passed: u32,
}

impl Model for HourDraws {
    ghost use Rattle.std.specs.Prelude.{◌+◌};
    ghost use Rattle.sample_streams.specs.HourDraws.{DrawnHour, AreHeld};

    ghost Value = { DrawnHour };

    ghost view = { λ h. record {
      seed = h.stream.seed;
      components = h.components;
      sample = h.stream.sample;
      hour = h.first + h.passed;
    } };

    ghost invariant = { λ h. AreHeld h.stream h.components h.words.items h.first h.passed };
}

/// The hours whose draws are drawn at once. Their words are whole blocks of the generator, however many
/// components there are, so the next hours' begin with a block, as `next_draws` is fast for.
const HOURS: u32 = 16;

impl HourDraws {
    /// The draws under a seed, for so many components, at hour 0 of sample 0.
    pub fn new(alloc: Global, seed: u64, components: u32) -> Result<HourDraws, OutOfMemory>
        ensures { IfOk result (λ draws. draws ≡ record {
          seed = seed;
          components = components;
          sample = 0;
          hour = 0;
        }) }
    {
        let mut words = vec![in alloc; 0; HOURS as usize * components as usize]?;
        let mut stream = SampleStream::new(seed, components);
        stream.next_draws(&mut words);
        Ok(HourDraws {
            stream,
            components,
            words,
            first: 0,
            passed: 0,
        })
    }

    /// Goes to hour 0 of a sample.
    pub fn start(&mut self, sample: u32)
        ensures { self.new ≡ record self.old { sample = sample; hour = 0 } }
    {
        self.stream.start(sample);
        self.stream.next_draws(&mut self.words);
        self.first = 0;
        self.passed = 0;
    }

    /// Goes to the next hour of the sample.
    #[inline]
    pub fn step(&mut self)
        requires { self.old.hour + 1 < 2 ^ 32 }
        ensures { self.new ≡ record self.old { hour = self.old.hour + 1 } }
    {
        if self.passed + 1 < HOURS {
            self.passed += 1;
        } else {
            self.stream.next_draws(&mut self.words);
            self.first += HOURS;
            self.passed = 0;
        }
    }

    /// The draws of the hour, by component.
    #[inline]
    pub fn words(&self) -> &[u32]
        ensures size { length result.now ≡ self.now.components }
        ensures each { (k : ℕ) → k < self.now.components → slice_index result.now k
            ≡ draw self.now.components self.now.seed self.now.sample self.now.hour k }
        ensures range { (k : ℕ) → k < self.now.components → slice_index result.now k < 2 ^ 32 }
    {
        let count = self.components as usize;
        let from = self.passed as usize * count;
        &self.words[from..from + count]
    }
}
