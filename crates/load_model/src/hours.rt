ghost use Rattle.std.specs.Prelude.{◌≡◌, ◌≤◌};
ghost use Rattle.load_model.specs.Need.{IsNetHour, need_of, shifted_need_of};

use ra_base::limits::MOST_POOLED_MW;

/// What an hour asks and what it is given, over all zones, in MW. Its net load is the one less the
/// other, which may be below 0.
#[derive(Clone, Copy, Debug, PartialEq, Eq)]
pub struct NetHour {
    /// The load.
    pub load: u32,
    /// The variable generation.
    pub variable: u32,
}

impl NetHour {
    /// What units have to give, in MW: the net load, or 0 where that is below 0.
    pub fn need(self) -> u32
        ensures { result ≡ need_of self }
    {
        self.load.saturating_sub(self.variable)
    }

    /// What units would have to give under `more` MW of further load and `less` MW of further supply.
    /// The net load is shifted, and cut at 0 only then.
    pub fn shifted(self, less: u32, more: u32) -> u32
        requires hour { IsNetHour self }
        requires less { less ≤ MOST_POOLED_MW }
        requires more { more ≤ MOST_POOLED_MW }
        ensures { result ≡ shifted_need_of less more self }
    {
        (self.load + more).saturating_sub(self.variable + less)
    }
}

/// The first hour of the greatest need.
#[derive(Clone, Copy, Debug, PartialEq, Eq)]
pub struct Peak {
    /// That need, in MW.
    pub mw: u32,
    /// The hour's number, from 0.
    pub hour: u32,
}
