ghost use Rattle.std.specs.Prelude.{◌≡◌, ℕ, ◌+◌, ◌*◌, ◌^◌, ◌<◌, ◌≤◌, List, [], ◌∷◌, ◌++◌, not, length, sum, slice_index, IfOk};
ghost use Rattle.ra_base.specs.declared.limits.TheConstants.{MOST_HOURS, MOST_POOLED_MW, MOST_ZONES};
ghost use Rattle.sample_totals.specs.CutRows.{hours_at, cut_unserved, AreRows};
ghost use Rattle.sample_totals.specs.Results.{is_same_day, is_next_hour, tally_of};
ghost use Rattle.sample_totals.specs.declared.outcomes.HourOutcome.{HourOutcome};

use crate::cut_rows::{CutRow, add_cut};
use crate::outcomes::HourOutcome;
use crate::unserved::{add_unserved, total_of};
use ra_base::OutOfMemory;
use ra_base::limits::{MOST_HOURS, MOST_POOLED_MW};
use std::alloc::Global;
use std::marker::Model;

/// The most MWh that a sample leaves unserved: all load of each hour of the longest run.
pub const MOST_UNSERVED: u64 = MOST_HOURS as u64 * MOST_POOLED_MW as u64;

/// What a sample came to: hours, days and events of shortfall, unserved energy in MWh, over all
/// zones and by zone, and a row for each cut. Its hours come in one by one.
#[derive(Drop)]
pub struct SampleResult {
    room: u32,
    counted: u32,
    // The last hour that fell short.
    last: Option<u32>,
    hours: u64,
    days: u64,
    events: u64,
    unserved: u64,
    zones: Vec<u64>,
    cuts: Vec<CutRow>,
}

impl Model for SampleResult {
    ghost use Rattle.std.specs.Prelude.{◌≤◌, vec_capacity};
    ghost use Rattle.sample_totals.specs.Results.{Tally, IsInRange};

    ghost Value = { Tally };

    ghost view = { λ r. record {
      room = r.room;
      counted = r.counted;
      last = r.last;
      figures = record {
        hours = r.hours;
        days = r.days;
        events = r.events;
        unserved = r.unserved;
        zones = r.zones.items;
        cuts = r.cuts.items;
      };
    } };

    ghost invariant = { λ r. (r.room ≤ vec_capacity r.cuts) × IsInRange (record {
      room = r.room;
      counted = r.counted;
      last = r.last;
      figures = record {
        hours = r.hours;
        days = r.days;
        events = r.events;
        unserved = r.unserved;
        zones = r.zones.items;
        cuts = r.cuts.items;
      };
    }) };
}

/// Whether an hour is the first of its day that falls short.
fn starts_day(last: Option<u32>, hour: u32) -> bool
    ensures { result ≡ not (is_same_day last hour) }
{
    match last {
        Some(last) => last / 24 != hour / 24,
        None => true,
    }
}

/// Whether no hour that falls short stands right before an hour.
fn starts_event(last: Option<u32>, hour: u32) -> bool
    ensures { result ≡ not (is_next_hour last hour) }
{
    match last {
        Some(last) => u64::from(last) + 1 != u64::from(hour),
        None => true,
    }
}

impl SampleResult {
    /// The result of no hour, with room for so many hours of so many zones.
    pub fn new(alloc: Global, zones: u8, hours: u32) -> Result<SampleResult, OutOfMemory>
        requires some_zone { 0 < zones }
        requires few_zones { zones ≤ MOST_ZONES }
        requires some_hour { 0 < hours }
        requires few_hours { hours ≤ MOST_HOURS }
        ensures empty { IfOk result (λ r. r ≡ tally_of hours zones []) }
        ensures parts { IfOk result (λ r. (r.counted ≡ 0) × (r.room ≡ hours)
            × (length r.figures.zones ≡ zones)) }
    {
        Ok(SampleResult {
            room: hours,
            counted: 0,
            last: None,
            hours: 0,
            days: 0,
            events: 0,
            unserved: 0,
            zones: vec![in alloc; 0; zones as usize]?,
            cuts: Vec::with_capacity(alloc, hours as usize)?,
        })
    }

    /// Forgets the hours that came, and keeps the room.
    pub fn clear(&mut self)
        ensures { self.new ≡ tally_of self.old.room (length self.old.figures.zones) [] }
    {
        self.counted = 0;
        self.last = None;
        self.hours = 0;
        self.days = 0;
        self.events = 0;
        self.unserved = 0;
        self.zones.fill(0);
        self.cuts.clear();
    }

    /// Adds the next hour. It takes no memory.
    pub fn add_hour(&mut self, outcome: &HourOutcome)
        requires next { outcome.now.hour ≡ self.old.counted }
        requires room { outcome.now.hour < self.old.room }
        requires zones { length outcome.now.unserved ≡ length self.old.figures.zones }
        requires cut { outcome.now.cut < 2 ^ length self.old.figures.zones }
        requires small { sum outcome.now.unserved ≤ MOST_POOLED_MW }
        // Where the result stood for the hours of a run, it now stands for those and this one.
        ensures run { (run : List HourOutcome) → let zones = length self.old.figures.zones in
            self.old ≡ tally_of self.old.room zones run
            → self.new ≡ tally_of self.old.room zones (run ++ outcome.now ∷ []) }
        ensures counted { self.new.counted ≡ self.old.counted + 1 }
        ensures room { self.new.room ≡ self.old.room }
        ensures zones { length self.new.figures.zones ≡ length self.old.figures.zones }
    {
        let unserved = total_of(&outcome.unserved);
        self.counted += 1;
        add_cut(&mut self.cuts, outcome.cut, unserved);
        if unserved == 0 {
            return;
        }
        self.hours += 1;
        self.days += u64::from(starts_day(self.last, outcome.hour));
        self.events += u64::from(starts_event(self.last, outcome.hour));
        self.unserved += unserved;
        add_unserved(&mut self.zones, &outcome.unserved);
        self.last = Some(outcome.hour);
    }

    /// The hours that fell short.
    pub fn hours(&self) -> u64
        ensures value { result ≡ self.now.figures.hours }
        ensures bound { result ≤ MOST_HOURS }
    {
        self.hours
    }

    /// The days, of 24 hours from the first hour on, that hold an hour that fell short.
    pub fn days(&self) -> u64
        ensures value { result ≡ self.now.figures.days }
        ensures bound { result ≤ MOST_HOURS }
    {
        self.days
    }

    /// The events, which are runs of hours that fell short.
    pub fn events(&self) -> u64
        ensures value { result ≡ self.now.figures.events }
        ensures bound { result ≤ MOST_HOURS }
    {
        self.events
    }

    /// The unserved energy over all zones in MWh.
    pub fn unserved(&self) -> u64
        ensures value { result ≡ self.now.figures.unserved }
        ensures bound { result ≤ MOST_UNSERVED }
    {
        self.unserved
    }

    /// The unserved energy of a zone in MWh.
    pub fn zone(&self, zone: u8) -> u64
        requires { zone < length self.now.figures.zones }
        ensures value { result ≡ slice_index self.now.figures.zones zone }
        ensures bound { result ≤ MOST_UNSERVED }
    {
        self.zones[zone as usize]
    }

    /// The rows by cut, ascending by mask.
    pub fn cuts(&self) -> &[CutRow]
        ensures value { result.now ≡ self.now.figures.cuts }
        ensures ascending { AreRows 1 (2 ^ length self.now.figures.zones) result.now }
        ensures hours { (m : ℕ) → hours_at result.now m ≤ MOST_HOURS }
        ensures unserved { (m : ℕ) → cut_unserved result.now m ≤ MOST_UNSERVED }
    {
        &self.cuts
    }
}
