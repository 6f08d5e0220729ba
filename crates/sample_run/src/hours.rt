ghost use Rattle.std.specs.Prelude.{◌≡◌, ℕ, ◌+◌, ◌<◌, IfOk, length, slice_index};
ghost use Rattle.system_model.specs.System.{IsValid, zone_count, storage_count, hour_count};
ghost use Rattle.storage_state.specs.Holdings.{IsWithinCaps, start_energies, carried_energies};
ghost use Rattle.sample_run.specs.HourNetwork.{shape_of};
ghost use Rattle.outage_chronology.specs.Standing.{is_up_at};
ghost use Rattle.sample_run.specs.UpSums.{AreSums};
ghost use Rattle.sample_run.specs.Run.{energies_after};

use crate::ample::{is_ample, keep_still};
use crate::both::both;
use crate::network::{follow, set_hour, set_links};
use crate::shapes::shape_of;
use crate::up_sums::UpSums;
use cut_certificate::Chain;
use hour_dispatch::Dispatcher;
use outage_chronology::Chronology;
use ra_base::{Amounts, OutOfMemory};
use sample_totals::HourOutcome;
use std::alloc::Global;
use std::marker::Model;
use storage_state::Storages;
use system_model::System;
use zone_network::Network;

/// The hours of a sample, one after another: which components are up, the network of the hour, its best
/// dispatch, and the energies that it leaves. Only `new` takes memory.
#[derive(Drop)]
pub(crate) struct Hours<'a> {
    system: &'a System,
    chronology: Chronology<'a>,
    sums: UpSums,
    storages: Storages<'a>,
    network: Network,
    dispatcher: Dispatcher,
    chain: Chain,
    outcome: HourOutcome,
}

impl<'a> Model for Hours<'a> {
    ghost use Rattle.sample_run.specs.Moments.{Moment, IsKept};

    ghost Value = { Moment };

    ghost view = { λ h. record {
      system = h.system.now;
      seed = h.chronology.seed;
      sample = h.chronology.sample;
      hour = h.chronology.hour;
      energies = h.storages.energies;
      outcome = h.outcome;
    } };

    ghost invariant = { λ h. IsKept h.system.now h.chronology h.sums h.storages h.network h.dispatcher
        h.outcome h.chain };
}

impl<'a> Hours<'a> {
    ghost use Rattle.cut_certificate.specs.Chain.{all_unserved};
    ghost use Rattle.cut_certificate.specs.Least.{IsLeastUnserved};
    ghost use Rattle.cut_certificate.specs.declared.chains.Chain.{Chain};
    ghost use Rattle.hour_dispatch.specs.Settled.{IsSettled};
    ghost use Rattle.sample_run.specs.HourNetwork.{network_of};
    ghost use Rattle.sample_run.specs.Run.{IsHour};
    ghost use Rattle.sample_run.specs.Moments.{up_in};

    /// The hours of a system under a seed, before the first of them.
    pub fn new(alloc: Global, system: &'a System, seed: u64) -> Result<Hours<'a>, OutOfMemory>
        ensures system { IfOk result (λ h. h.system ≡ system.now) }
        ensures seed { IfOk result (λ h. h.seed ≡ seed) }
    {
        let shape = shape_of(alloc, system)?;
        let held = both(
            up_at_first(alloc, system, seed),
            Storages::new(alloc, system),
        );
        let means = both(Network::new(alloc, &shape), Dispatcher::new(alloc, &shape));
        let results = both(
            Chain::new(alloc, &shape),
            HourOutcome::new(alloc, shape.zones(), shape.devices()),
        );
        let (held, (means, results)) = both(held, both(means, results))?;
        let ((chronology, sums), storages) = held;
        let (mut network, dispatcher) = means;
        let (chain, outcome) = results;
        set_links(&mut network, system, &chronology, &sums);
        Ok(Hours {
            system,
            chronology,
            sums,
            storages,
            network,
            dispatcher,
            chain,
            outcome,
        })
    }

    /// How many hours the system has.
    pub fn count(&self) -> u32
        ensures count { result ≡ hour_count self.now.system }
        ensures valid { IsValid self.now.system }
    {
        self.system.hours()
    }

    /// Goes through the first hour of a sample.
    pub fn start(&mut self, sample: u32)
        ensures hour { IsHour self.new.system (up_in self.new) (start_energies self.new.system) 0
            self.new.outcome }
        ensures least { let n = network_of self.new.system (up_in self.new)
            (start_energies self.new.system) 0 in
            IsLeastUnserved n (all_unserved n self.new.outcome) }
        ensures at { self.new ≡ record self.old {
          sample = sample;
          hour = 0;
          energies = self.new.outcome.energy;
          outcome = self.new.outcome;
        } }
    {
        self.sums.return_all(self.system, &self.chronology);
        self.chronology.start(sample);
        self.sums.follow(self.system, &self.chronology);
        set_links(&mut self.network, self.system, &self.chronology, &self.sums);
        self.storages.reset();
        self.work_out();
    }

    /// Goes through the next hour of the sample.
    pub fn next(&mut self)
        requires { self.old.hour + 1 < hour_count self.old.system }
        ensures hour { IsHour self.new.system (up_in self.new)
            (carried_energies self.old.system self.old.energies)
            self.new.hour self.new.outcome }
        ensures least { let n = network_of self.new.system (up_in self.new)
            (carried_energies self.old.system self.old.energies) self.new.hour in
            IsLeastUnserved n (all_unserved n self.new.outcome) }
        ensures at { self.new ≡ record self.old {
          hour = self.old.hour + 1;
          energies = self.new.outcome.energy;
          outcome = self.new.outcome;
        } }
    {
        self.chronology.step();
        follow(
            &mut self.sums,
            &mut self.network,
            self.system,
            &self.chronology,
        );
        self.storages.carry();
        self.work_out();
    }

    /// Dispatches the hour where the chronology stands, from what the storages hold before it.
    fn work_out(&mut self)
        ensures hour { IsHour self.new.system (up_in self.new) self.old.energies self.new.hour
            self.new.outcome }
        ensures least { let n = network_of self.new.system (up_in self.new) self.old.energies self.new.hour in
            IsLeastUnserved n (all_unserved n self.new.outcome) }
        ensures at { self.new ≡ record self.old {
          energies = self.new.outcome.energy;
          outcome = self.new.outcome;
        } }
    {
        self.dispatch();
        apply(
            &mut self.storages,
            self.system,
            &self.outcome.charge,
            &self.outcome.discharge,
            &mut self.outcome.energy,
        );
    }

    /// Writes what the hour where the chronology stands comes to, but for the energies.
    fn dispatch(&mut self)
        ensures settled { let n = network_of self.new.system (up_in self.new) self.old.energies
            self.new.hour in
            (chain : Chain) × IsSettled n self.new.outcome chain }
        ensures hour { self.new.outcome.hour ≡ self.old.hour }
        ensures at { self.new ≡ record self.old { outcome = self.new.outcome } }
        ensures valid { IsValid self.new.system }
    {
        self.outcome.hour = self.chronology.hour();
        // Most hours need no network.
        if is_ample(
            self.system,
            &self.chronology,
            &self.storages,
            &self.sums,
            &mut self.chain.generation,
            &mut self.outcome.charge,
        ) {
            return keep_still(&mut self.outcome);
        }
        set_hour(
            &mut self.network,
            self.system,
            &self.chronology,
            &self.storages,
            &self.sums,
        );
        self.dispatcher
            .best(&self.network, &mut self.outcome, &mut self.chain);
    }

    /// The outcome of the hour that was gone through last.
    pub fn outcome(&self) -> &HourOutcome
        ensures { result.now ≡ self.now.outcome }
    {
        &self.outcome
    }

    /// How many zones the system has.
    pub fn zones(&self) -> u8
        ensures { result ≡ zone_count self.now.system }
    {
        self.system.zones()
    }
}

/// What is up in hour 0 of sample 0, and the sums over it.
fn up_at_first<'a>(
    alloc: Global,
    system: &'a System,
    seed: u64,
) -> Result<(Chronology<'a>, UpSums), OutOfMemory>
    ensures chronology { IfOk result (λ up. up.0 ≡ record {
      system = system.now;
      seed = seed;
      sample = 0;
      hour = 0;
    }) }
    ensures sums { IfOk result (λ up. AreSums system.now (is_up_at up.0) up.1) }
{
    let (chronology, mut sums) = both(
        Chronology::new(alloc, system, seed),
        UpSums::new(alloc, system),
    )?;
    sums.follow(system, &chronology);
    Ok((chronology, sums))
}

/// Charges and discharges each storage, in MW, and writes what it then holds, in kWh.
fn apply(
    storages: &mut Storages<'_>,
    system: &System,
    charge: &Amounts,
    discharge: &Amounts,
    energy: &mut Amounts,
)
    requires system { storages.old.system ≡ system.now }
    requires held { length storages.old.energies ≡ storage_count system.now }
    requires energies { length energy.old ≡ storage_count system.now }
    requires charges { length charge.now ≡ storage_count system.now }
    requires discharges { length discharge.now ≡ storage_count system.now }
    requires within { (k : ℕ) → k < storage_count system.now
        → IsWithinCaps storages.old k (slice_index charge.now k) (slice_index discharge.now k) }
    ensures energies { energy.new ≡ energies_after system.now storages.old.energies charge.now discharge.now }
    ensures storages { storages.new ≡ record storages.old { energies = energy.new } }
{
    for device in 0..system.storages() {
        let at = device as usize;
        storages.apply(device, charge.get(at), discharge.get(at));
        energy.set(at, storages.energy(device));
    }
}
