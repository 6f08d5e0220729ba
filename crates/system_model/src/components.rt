/// The probabilities with which a component changes its state from one hour to the next, in billionths.
#[derive(Clone, Copy, Debug, PartialEq, Eq)]
pub struct Rates {
    /// The probability that a component in service fails.
    pub f: u32,
    /// The probability that a component out of service is repaired.
    pub r: u32,
}

/// A generating unit.
#[derive(Clone, Copy, Debug, PartialEq, Eq)]
pub struct Unit {
    /// The place of its zone among the zones, from 0.
    pub zone: u8,
    /// What it gives while it is in service, in MW.
    pub capacity: u32,
    /// How it fails and is repaired.
    pub rates: Rates,
}

/// What can be carried between two zones.
#[derive(Clone, Copy, Debug, PartialEq, Eq)]
pub struct Interface {
    /// The place of the zone where it starts, from 0.
    pub from: u8,
    /// The place of the zone where it ends, from 0; it isn't the one where it starts.
    pub to: u8,
    /// The limit from `from` to `to`, in MW.
    pub forward: u32,
    /// The limit from `to` to `from`, in MW.
    pub backward: u32,
}

/// A line of an interface, whose direction it has.
#[derive(Clone, Copy, Debug, PartialEq, Eq)]
pub struct Line {
    /// The place of its interface among the interfaces, from 0.
    pub interface: u8,
    /// What it carries forward while it is in service, in MW.
    pub forward: u32,
    /// What it carries backward while it is in service, in MW.
    pub backward: u32,
    /// How it fails and is repaired.
    pub rates: Rates,
}

/// A storage.
#[derive(Clone, Copy, Debug, PartialEq, Eq)]
pub struct Storage {
    /// The place of its zone among the zones, from 0.
    pub zone: u8,
    /// What it takes in at most while it is in service, in MW.
    pub charge: u32,
    /// What it gives at most while it is in service, in MW.
    pub discharge: u32,
    /// What it holds at most, in kWh.
    pub energy: u32,
    /// What it holds at the start, in kWh: at most `energy`.
    pub start: u32,
    /// How much of what it takes in it keeps, in thousandths: 1 to 1,000.
    pub charge_eff: u16,
    /// How much of what it loses it gives, in thousandths: 1 to 1,000.
    pub discharge_eff: u16,
    /// How much it keeps from one hour to the next, in thousandths: 1 to 1,000.
    pub carry: u16,
    /// How it fails and is repaired.
    pub rates: Rates,
}
