ghost use Rattle.std.specs.Prelude.{◌≡◌};
ghost use Rattle.campaign_core.specs.Ranges.{range};
ghost use Rattle.campaign_core.specs.Shares.{IsShare};

use std::marker::Model;

/// Samples that were given out to be run, at least one. It must be spent: by a run, by `Done::of`, or by
/// `abandon`.
#[derive(Debug)]
pub struct Share {
    first: u32,
    count: u32,
}

impl Model for Share {
    ghost use Rattle.campaign_core.specs.declared.run.SampleRange.{SampleRange};
    ghost use Rattle.campaign_core.specs.Ranges.{range};
    ghost use Rattle.campaign_core.specs.Shares.{IsShare};

    ghost Value = { SampleRange };

    ghost view = { λ share. range share.first share.count };

    ghost invariant = { λ share. IsShare (range share.first share.count) };
}

impl Share {
    /// The share of these samples.
    pub fn of(first: u32, count: u32) -> Share
        requires { IsShare (range first count) }
        ensures { result ≡ range first count }
    {
        Share { first, count }
    }

    /// Its first sample.
    pub fn first(&self) -> u32
        ensures value { result ≡ self.now.first }
        ensures share { IsShare self.now }
    {
        self.first
    }

    /// How many samples it has.
    pub fn count(&self) -> u32
        ensures value { result ≡ self.now.count }
        ensures share { IsShare self.now }
    {
        self.count
    }

    /// Gives it up: nothing will be deposited for it.
    pub fn abandon(self) {
        let Share { first: _, count: _ } = self;
    }
}
