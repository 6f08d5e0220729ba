ghost use Rattle.std.specs.Prelude.{◌≡◌, ◌+◌, ◌<◌, IfOk, vec_capacity};
ghost use Rattle.system_model.specs.System.{SystemParts, IsValid, hour_count};
ghost use Rattle.outage_chronology.specs.Kept.{AreFresh, IsKept};
ghost use Rattle.outage_chronology.specs.Outages.{component_count as count_of};
ghost use Rattle.outage_chronology.specs.Standing.{is_up_at, changed_at};

use crate::components::component_count;
use crate::masks::{go_on, set_all_up, set_thresholds};
use crate::thresholds::Thresholds;
use ra_base::OutOfMemory;
use sample_streams::HourDraws;
use std::alloc::Global;
use std::marker::Model;
use system_model::System;

/// Which components of a system are up, hour by hour of a sample. Components are the units, then the
/// storages, then the lines, each in the order of its table.
///
/// Only `new` takes memory.
#[derive(Drop)]
pub struct Chronology<'a> {
    system: &'a System,
    hour: u32,
    draws: HourDraws,
    thresholds: Thresholds,
    masks: Vec<u32>,
    // For each component the threshold of its state: below it the next word changes the state.
    of_states: Vec<u32>,
    changed: Vec<u32>,
}

impl<'a> Model for Chronology<'a> {
    ghost use Rattle.outage_chronology.specs.Standing.{Standing};

    ghost Value = { Standing };

    ghost use Rattle.std.specs.Prelude.{vec_capacity};
    ghost use Rattle.outage_chronology.specs.Kept.{IsKept};

    ghost view = { λ c. record {
      system = c.system.now;
      seed = c.draws.seed;
      sample = c.draws.sample;
      hour = c.hour;
    } };

    ghost invariant = { λ c. IsKept c.system.now c.hour c.draws c.thresholds c.masks.items
        c.of_states.items c.changed.items (vec_capacity c.changed) };
}

impl<'a> Chronology<'a> {
    ghost use Rattle.outage_chronology.specs.Kept.{AreUpMasks};

    /// The chronology of a system under a seed, at hour 0 of sample 0.
    pub fn new(alloc: Global, system: &'a System, seed: u64) -> Result<Chronology<'a>, OutOfMemory>
        ensures { IfOk result (λ c. c ≡ record { system = system.now; seed = seed; sample = 0; hour = 0 }) }
    {
        let count = component_count(system);
        let thresholds = Thresholds::of(alloc, system)?;
        let mut masks = vec![in alloc; 0; count as usize]?;
        let mut of_states = vec![in alloc; 0; count as usize]?;
        let mut changed = Vec::with_capacity(alloc, count as usize)?;
        let draws = HourDraws::new(alloc, seed, count)?;
        begin(
            &draws,
            &thresholds,
            &mut masks,
            &mut of_states,
            &mut changed,
        );
        Ok(Chronology {
            system,
            hour: 0,
            draws,
            thresholds,
            masks,
            of_states,
            changed,
        })
    }

    /// Goes to hour 0 of a sample.
    pub fn start(&mut self, sample: u32)
        ensures { self.new ≡ record self.old { sample = sample; hour = 0 } }
    {
        self.draws.start(sample);
        begin(
            &self.draws,
            &self.thresholds,
            &mut self.masks,
            &mut self.of_states,
            &mut self.changed,
        );
        self.hour = 0;
    }

    /// Goes to the next hour of the sample.
    pub fn step(&mut self)
        requires { self.old.hour + 1 < hour_count self.old.system }
        ensures { self.new ≡ record self.old { hour = self.old.hour + 1 } }
    {
        self.draws.step();
        go_on(
            &mut self.masks,
            &mut self.of_states,
            self.draws.words(),
            &self.thresholds.fails,
            &self.thresholds.is_repaired,
            &mut self.changed,
        );
        self.hour += 1;
    }

    /// Whether a component is up in this hour.
    #[inline]
    pub fn is_up(&self, component: u32) -> bool
        requires { component < count_of self.now.system }
        ensures { result ≡ is_up_at self.now component }
    {
        self.masks[component as usize] != 0
    }

    /// The masks of all components, by their places: all ones for one that is up, 0 for one that is out.
    /// So `mask & capacity` is what a unit gives.
    #[inline]
    pub fn up_masks(&self) -> &[u32]
        ensures { AreUpMasks self.now.system self.now.seed self.now.sample self.now.hour result.now }
    {
        &self.masks
    }

    /// The components whose state differs from that of the hour before, ascending. At hour 0 they are those
    /// that are out.
    #[inline]
    pub fn changed(&self) -> &[u32]
        ensures { result.now ≡ changed_at self.now }
    {
        &self.changed
    }

    /// The hour, counted from 0.
    #[inline]
    pub fn hour(&self) -> u32
        ensures value { result ≡ self.now.hour }
        ensures range { result < hour_count self.now.system }
        ensures valid { IsValid self.now.system }
    {
        self.hour
    }
}

/// Sets what stands at a sample's hour 0, by the draws of that hour.
fn begin(
    draws: &HourDraws,
    thresholds: &Thresholds,
    masks: &mut [u32],
    of_states: &mut [u32],
    changed: &mut Vec<u32>,
)
    requires { (system : SystemParts) × AreFresh system draws.now thresholds.now masks.old of_states.old
        (vec_capacity changed.old) }
    ensures { (system : SystemParts)
        → AreFresh system draws.now thresholds.now masks.old of_states.old (vec_capacity changed.old)
        → IsKept system 0 draws.now thresholds.now masks.new of_states.new changed.new.items
        (vec_capacity changed.new) }
{
    // Before hour 0 each component counts as up.
    set_all_up(masks);
    let starts_out = &thresholds.starts_out;
    of_states.copy_from_slice(starts_out);
    go_on(
        masks,
        of_states,
        draws.words(),
        starts_out,
        starts_out,
        changed,
    );
    set_thresholds(of_states, masks, &thresholds.fails, &thresholds.is_repaired);
}
