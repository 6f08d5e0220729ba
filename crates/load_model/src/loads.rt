ghost use Rattle.std.specs.Prelude.{◌≡◌, ◌<◌, ◌≤◌, length, map, sum, sum_by, All, slice_index_or, IfOk};
ghost use Rattle.system_model.specs.System.{hour_count, hour_at};
ghost use Rattle.load_model.specs.Need.{IsNetHour, AreNetHours, no_net_hour, net_hour_of, need_of, peak_of};

use crate::hours::{NetHour, Peak};
use ra_base::OutOfMemory;
use ra_base::limits::MOST_POOLED_MW;
use std::alloc::Global;
use std::marker::Model;
use system_model::System;

/// The net load of a system's hours, one after the other, with the zones pooled.
///
/// No reader takes memory. Hours count from 0.
#[derive(Drop)]
pub struct NetLoad {
    hours: Vec<NetHour>,
}

impl Model for NetLoad {
    ghost use Rattle.std.specs.Prelude.{List};
    ghost use Rattle.load_model.specs.declared.hours.NetHour.{NetHour};
    ghost use Rattle.load_model.specs.Need.{AreNetHours};

    ghost Value = { List NetHour };

    ghost view = { λ loads. loads.hours.items };

    ghost invariant = { λ loads. AreNetHours loads.hours.items };
}

impl NetLoad {
    /// The net load of the system's hours.
    pub fn new(alloc: Global, system: &System) -> Result<NetLoad, OutOfMemory>
        ensures { IfOk result (λ loads. loads ≡ map net_hour_of system.now.hours) }
    {
        let mut hours = Vec::with_capacity(alloc, system.hours() as usize)?;
        for hour in 0..system.hours() {
            hours.push(net_hour(system, hour))?;
        }
        Ok(NetLoad { hours })
    }

    /// How many hours there are: 1 to 8,784.
    pub fn hours(&self) -> u32
        ensures count { result ≡ length self.now }
        ensures range { AreNetHours self.now }
    {
        self.hours.len() as u32
    }

    /// What each hour asks and what it is given.
    pub fn net_hours(&self) -> &[NetHour]
        ensures all { result.now ≡ self.now }
        ensures range { AreNetHours result.now }
    {
        &self.hours
    }

    /// What units have to give in an hour, in MW: its load less its variable generation, or 0 where
    /// that is below 0.
    pub fn need(&self, hour: u32) -> u32
        requires { hour < length self.now }
        ensures value { result ≡ need_of (slice_index_or self.now hour no_net_hour) }
        ensures range { result ≤ MOST_POOLED_MW }
    {
        self.hours[hour as usize].need()
    }

    /// What units have to give in all hours together, in MWh.
    pub fn total(&self) -> u64
        ensures { result ≡ sum_by need_of self.now }
    {
        let mut total = 0;
        for hour in self.net_hours() {
            total += u64::from(hour.need());
        }
        total
    }

    /// The first hour of the greatest need.
    pub fn peak(&self) -> Peak
        ensures { result ≡ peak_of self.now }
    {
        let mut peak = Peak { mw: 0, hour: 0 };
        for hour in 0..self.hours() {
            let mw = self.need(hour);
            if mw > peak.mw {
                peak = Peak { mw, hour };
            }
        }
        peak
    }
}

// What an hour of the system asks and what it is given, over all zones.
fn net_hour(system: &System, hour: u32) -> NetHour
    requires { hour < hour_count system.now }
    ensures value { result ≡ net_hour_of (hour_at system.now hour) }
    ensures range { IsNetHour result }
{
    let mut load = 0;
    let mut variable = 0;
    for zone in 0..system.zones() {
        load += system.load(hour, zone);
        variable += system.variable(hour, zone);
    }
    NetHour { load, variable }
}
