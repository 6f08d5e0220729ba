ghost use Rattle.std.specs.Prelude.{◌≡◌, ◌+◌, ◌-◌, ◌^◌, ◌<◌, ◌≤◌, IsTrue, IfOk, true, false, not, if◌then◌else◌, length, slice_index, slice_set, replicate, ℕ};
ghost use Rattle.zone_network.specs.Sums.{NumberSet};
ghost use Rattle.outage_chronology.specs.Outages.{component_count as count_of};
ghost use Rattle.outage_chronology.specs.Standing.{is_up_at, was_up_at};
ghost use Rattle.system_model.specs.System.{interface_count};
ghost use Rattle.sample_run.specs.HourNetwork.{lines_count};
ghost use Rattle.sample_run.specs.UpSums.{AreSums, CarrySame, with_state, all_up, none_up};

use outage_chronology::Chronology;
use ra_base::{Amounts, OutOfMemory};
use std::alloc::Global;
use system_model::System;

/// Sums over the components that are up, in MW: the capacity of each zone's units, and what each
/// interface's lines carry one way and the other. They are kept from hour to hour, and change by what goes
/// out or comes back.
#[derive(Drop)]
pub(crate) struct UpSums {
    /// By zone.
    pub units: Amounts,
    /// By interface, from its first zone to its second.
    pub forward: Amounts,
    /// By interface, the other way.
    pub backward: Amounts,
    /// How many lines each interface has, up or out.
    pub lines: Amounts,
}

impl UpSums {
    /// The sums over all components. Only this call takes memory.
    pub fn new(alloc: Global, system: &System) -> Result<UpSums, OutOfMemory>
        ensures { IfOk result (λ sums. AreSums system.now all_up sums) }
    {
        let interfaces = system.interfaces() as usize;
        let mut sums = UpSums {
            units: Amounts::zeros(alloc, system.zones() as usize)?,
            forward: Amounts::zeros(alloc, interfaces)?,
            backward: Amounts::zeros(alloc, interfaces)?,
            lines: Amounts::zeros(alloc, interfaces)?,
        };
        count_lines(&mut sums.lines, system);
        sums.add_all(system);
        Ok(sums)
    }

    /// Adds all components to sums over none.
    fn add_all(&mut self, system: &System)
        requires { AreSums system.now none_up self.old }
        ensures { AreSums system.now all_up self.new }
    {
        for component in 0..component_count(system) {
            self.turn(system, component, true);
        }
    }

    /// Adds what is out, so that the sums are those over all components.
    pub fn return_all(&mut self, system: &System, chronology: &Chronology<'_>)
        requires system { chronology.now.system ≡ system.now }
        requires sums { AreSums system.now (is_up_at chronology.now) self.old }
        ensures { AreSums system.now all_up self.new }
    {
        for component in 0..component_count(system) {
            if !chronology.is_up(component) {
                self.turn(system, component, true);
            }
        }
    }

    /// Goes on to the hour where the chronology stands, from sums over what was up before it, and says whether
    /// a line went out or came back.
    pub fn follow(&mut self, system: &System, chronology: &Chronology<'_>) -> bool
        requires system { chronology.now.system ≡ system.now }
        requires sums { AreSums system.now (was_up_at chronology.now) self.old }
        ensures sums { AreSums system.now (is_up_at chronology.now) self.new }
        ensures lines { result ≡ false → CarrySame self.old self.new }
    {
        let mut lines = false;
        for component in chronology.changed() {
            lines |= self.turn(system, *component, chronology.is_up(*component));
        }
        lines
    }

    /// Adds a component that comes back, or takes away one that goes out, and says whether it is a line.
    fn turn(&mut self, system: &System, component: u32, up: bool) -> bool
        requires component { component < count_of system.now }
        requires turns { (before : NumberSet) × AreSums system.now before self.old
            × (before component ≡ not up) }
        ensures sums { (before : NumberSet) → AreSums system.now before self.old → before component ≡ not up
            → AreSums system.now (with_state before component up) self.new }
        ensures lines { result ≡ false → CarrySame self.old self.new }
    {
        let storages = system.units();
        let lines = storages + system.storages();
        if component < storages {
            let unit = system.unit(component);
            turn_at(&mut self.units, unit.zone, unit.capacity, up);
            false
        } else if component >= lines {
            let line = system.line(component - lines);
            turn_at(&mut self.forward, line.interface, line.forward, up);
            turn_at(&mut self.backward, line.interface, line.backward, up);
            true
        } else {
            false
        }
    }
}

/// How many components there are.
fn component_count(system: &System) -> u32
    ensures { result ≡ count_of system.now }
{
    system.units() + system.storages() + system.lines()
}

/// Adds an amount to the one at a place, or takes it away.
fn turn_at(amounts: &mut Amounts, at: u8, by: u32, up: bool)
    requires at { at < length amounts.old }
    requires room { IsTrue up → slice_index amounts.old at + by < 2 ^ 32 }
    requires there { up ≡ false → by ≤ slice_index amounts.old at }
    ensures { amounts.new ≡ slice_set amounts.old at (if up then slice_index amounts.old at + by
        else slice_index amounts.old at - by) }
{
    let at = usize::from(at);
    let amount = amounts.get(at);
    amounts.set(at, if up { amount + by } else { amount - by });
}

/// Counts the lines of each interface.
fn count_lines(lines: &mut Amounts, system: &System)
    requires { lines.old ≡ replicate (interface_count system.now) 0 }
    ensures size { length lines.new ≡ interface_count system.now }
    ensures counts { (interface : ℕ) → interface < interface_count system.now
        → slice_index lines.new interface ≡ lines_count system.now interface }
{
    for at in 0..system.lines() {
        let interface = usize::from(system.line(at).interface);
        lines.set(interface, lines.get(interface) + 1);
    }
}
