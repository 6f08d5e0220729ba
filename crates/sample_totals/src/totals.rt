ghost use Rattle.std.specs.Prelude.{◌≡◌, ℕ, ◌+◌, ◌*◌, ◌^◌, ◌<◌, ◌≤◌, List, [], ◌∷◌, ◌++◌, length, slice_index, slice_index_or, IfOk, OnOk, OnErr};
ghost use Rattle.sample_totals.specs.CutRows.{AreRows};
ghost use Rattle.sample_totals.specs.Estimates.{AreSums, FitsMore, FitBoth, with_value, joined_sums, no_sums};
ghost use Rattle.sample_totals.specs.Results.{figures_of};
ghost use Rattle.sample_totals.specs.declared.outcomes.HourOutcome.{HourOutcome};
ghost use Rattle.sample_totals.specs.declared.results.TheConstants.{MOST_UNSERVED};
ghost use Rattle.ra_base.specs.declared.limits.TheConstants.{MOST_SAMPLES};
ghost use Rattle.sample_totals.specs.Totals.{part_of, zone_sums, totals_of, AddsTotals};

use crate::cut_rows::{CutRow, add_rows};
use crate::estimates::Sums;
use crate::results::SampleResult;
use ra_base::OutOfMemory;
use std::alloc::Global;
use std::marker::Model;

/// A part of totals.
#[derive(Clone, Copy, Debug, PartialEq, Eq)]
pub enum Part {
    /// Hours of shortfall.
    Hours,
    /// Days with an hour of shortfall.
    Days,
    /// Events of shortfall.
    Events,
    /// Unserved energy in MWh.
    Unserved,
}

/// The sums of the results of samples, and their sums of squares.
#[derive(Drop)]
pub struct Totals {
    samples: u32,
    hours: Sums,
    days: Sums,
    events: Sums,
    unserved: Sums,
    zones: Vec<Sums>,
    cuts: Vec<CutRow>,
}

impl Model for Totals {
    ghost use Rattle.sample_totals.specs.Totals.{Sheet, IsSheet};

    ghost Value = { Sheet };

    ghost view = { λ t. record {
      samples = t.samples;
      hours = t.hours;
      days = t.days;
      events = t.events;
      unserved = t.unserved;
      zones = t.zones.items;
      cuts = t.cuts.items;
    } };

    ghost invariant = { λ t. IsSheet (record {
      samples = t.samples;
      hours = t.hours;
      days = t.days;
      events = t.events;
      unserved = t.unserved;
      zones = t.zones.items;
      cuts = t.cuts.items;
    }) };
}

/// The sums of no sample.
const NOTHING: Sums = Sums {
    total: 0,
    squares: 0,
};

/// Adds what a result has in each zone to the zone's sums.
fn add_zones(zones: &mut [Sums], sample: &SampleResult)
    requires few { length zones.old < 2 ^ 8 }
    requires agree { length zones.old ≡ length sample.now.figures.zones }
    requires fits { (z : ℕ) → FitsMore (slice_index_or zones.old z no_sums) }
    ensures gained { (z : ℕ) → z < length zones.old
        → slice_index_or zones.new z no_sums
        ≡ with_value (slice_index_or zones.old z no_sums) (slice_index sample.now.figures.zones z) }
    ensures small { (z : ℕ) → z < length zones.old → slice_index sample.now.figures.zones z ≤ MOST_UNSERVED }
{
    for (zone, sums) in zones.iter_mut().enumerate() {
        *sums = sums.with(sample.zone(zone as u8));
    }
}

/// Adds the sums of each zone.
fn merge_zones(zones: &mut [Sums], more: &[Sums])
    requires agree { length zones.old ≡ length more.now }
    requires fits { (z : ℕ)
        → FitBoth (slice_index_or zones.old z no_sums) (slice_index_or more.now z no_sums) }
    ensures { (z : ℕ) → z < length zones.old → slice_index_or zones.new z no_sums
        ≡ joined_sums (slice_index_or zones.old z no_sums) (slice_index_or more.now z no_sums) }
{
    for (zone, sums) in zones.iter_mut().enumerate() {
        *sums = sums.plus(more[zone]);
    }
}

impl Totals {
    /// The totals of no sample, for so many zones.
    pub fn new(alloc: Global, zones: u8) -> Result<Totals, OutOfMemory>
        ensures empty { IfOk result (λ t. t ≡ totals_of zones []) }
        ensures samples { IfOk result (λ t. t.samples ≡ 0) }
        ensures zones { IfOk result (λ t. length t.zones ≡ zones) }
    {
        Ok(Totals {
            samples: 0,
            hours: NOTHING,
            days: NOTHING,
            events: NOTHING,
            unserved: NOTHING,
            zones: vec![in alloc; NOTHING; zones as usize]?,
            cuts: Vec::new(alloc),
        })
    }

    /// Adds the result of one more sample.
    pub fn add(&mut self, sample: &SampleResult) -> Result<(), OutOfMemory>
        requires zones { length self.old.zones ≡ length sample.now.figures.zones }
        requires few { self.old.samples < MOST_SAMPLES }
        // Where the totals were those of runs and the result is that of a run, they are now those of
        // the runs and this one.
        ensures ok { OnOk result ((runs : List (List HourOutcome)) (run : List HourOutcome)
            → let zones = length self.old.zones in
            self.old ≡ totals_of zones runs → sample.now.figures ≡ figures_of zones run
            → self.new ≡ totals_of zones (runs ++ run ∷ [])) }
        ensures samples { OnOk result (self.new.samples ≡ self.old.samples + 1) }
        ensures zones { OnOk result (length self.new.zones ≡ length self.old.zones) }
        ensures err { OnErr result (self.new ≡ self.old) }
    {
        let cuts = sample.cuts();
        self.cuts.reserve(cuts.len())?;
        self.samples += 1;
        self.hours = self.hours.with(sample.hours());
        self.days = self.days.with(sample.days());
        self.events = self.events.with(sample.events());
        self.unserved = self.unserved.with(sample.unserved());
        add_zones(&mut self.zones, sample);
        add_rows(&mut self.cuts, cuts);
        Ok(())
    }

    /// Adds other totals of as many zones: the samples, each part and zone, and the rows of each cut.
    pub fn merge(&mut self, more: &Totals) -> Result<(), OutOfMemory>
        requires zones { length self.old.zones ≡ length more.now.zones }
        requires few { self.old.samples + more.now.samples ≤ MOST_SAMPLES }
        ensures parts { OnOk result (AddsTotals self.old more.now self.new) }
        // Where both were those of runs, they are now those of the runs of both.
        ensures ok { OnOk result ((runs more_runs : List (List HourOutcome))
            → let zones = length self.old.zones in
            self.old ≡ totals_of zones runs → more.now ≡ totals_of zones more_runs
            → self.new ≡ totals_of zones (runs ++ more_runs)) }
        ensures samples { OnOk result (self.new.samples ≡ self.old.samples + more.now.samples) }
        ensures zones { OnOk result (length self.new.zones ≡ length self.old.zones) }
        ensures err { OnErr result (self.new ≡ self.old) }
    {
        self.cuts.reserve(more.cuts.len())?;
        self.samples += more.samples;
        self.hours = self.hours.plus(more.hours);
        self.days = self.days.plus(more.days);
        self.events = self.events.plus(more.events);
        self.unserved = self.unserved.plus(more.unserved);
        merge_zones(&mut self.zones, &more.zones);
        add_rows(&mut self.cuts, &more.cuts);
        Ok(())
    }

    /// The same totals once more.
    pub fn copy(&self, alloc: Global) -> Result<Totals, OutOfMemory>
        ensures { IfOk result (λ copy. copy ≡ self.now) }
    {
        Ok(Totals {
            samples: self.samples,
            hours: self.hours,
            days: self.days,
            events: self.events,
            unserved: self.unserved,
            zones: self.zones.to_vec(alloc)?,
            cuts: self.cuts.to_vec(alloc)?,
        })
    }

    /// How many samples were added: at most 1,000,000.
    pub fn samples(&self) -> u32
        ensures value { result ≡ self.now.samples }
        ensures bound { result ≤ MOST_SAMPLES }
    {
        self.samples
    }

    /// The sums of a part.
    pub fn part(&self, part: Part) -> Sums
        ensures value { result ≡ part_of self.now part }
        ensures sums { AreSums result self.now.samples }
    {
        match part {
            Part::Hours => self.hours,
            Part::Days => self.days,
            Part::Events => self.events,
            Part::Unserved => self.unserved,
        }
    }

    /// The sums of a zone's unserved energy.
    pub fn zone(&self, zone: u8) -> Sums
        requires { zone < length self.now.zones }
        ensures value { result ≡ zone_sums self.now zone }
        ensures sums { AreSums result self.now.samples }
    {
        self.zones[zone as usize]
    }

    /// The rows by cut over all samples, ascending by mask.
    pub fn cuts(&self) -> &[CutRow]
        ensures value { result.now ≡ self.now.cuts }
        ensures ascending { AreRows 1 (2 ^ length self.now.zones) result.now }
    {
        &self.cuts
    }
}
