ghost use Rattle.std.specs.Prelude.{◌≡◌, ◌<◌, ◌≤◌, IfOk, slice_set};
ghost use Rattle.ra_base.specs.declared.limits.TheConstants.{MOST_POOLED_MW};
ghost use Rattle.system_model.specs.System.{IsValid, storage_count, storage_at};

use crate::energies::{caps_of, energy_after, kept};
use ra_base::OutOfMemory;
use std::alloc::Global;
use std::marker::Model;
use system_model::System;

/// What a storage may take in and give in an hour, in MW.
#[derive(Clone, Copy, Debug, PartialEq, Eq)]
pub struct Caps {
    pub charge: u32,
    pub discharge: u32,
}

/// The caps of a storage that is out.
const NO_CAPS: Caps = Caps {
    charge: 0,
    discharge: 0,
};

/// The energies of a system's storages, in kWh, from hour to hour of a run. Each stays between 0 and
/// what its storage can hold. (This project's rules.)
///
/// Only `new` takes memory. Places count from 0.
#[derive(Drop)]
pub struct Storages<'a> {
    system: &'a System,
    energies: Vec<u32>,
}

impl<'a> Model for Storages<'a> {
    ghost use Rattle.storage_state.specs.Holdings.{Holdings};

    ghost Value = { Holdings };

    ghost use Rattle.storage_state.specs.Holdings.{AreHeld};

    ghost view = { λ s. record { system = s.system.now; energies = s.energies.items } };

    ghost invariant = { λ s. AreHeld s.system.now s.energies.items };
}

impl<'a> Storages<'a> {
    ghost use Rattle.storage_state.specs.Energy.{caps_if, energy_after as energy_then};
    ghost use Rattle.storage_state.specs.Holdings.{energy_of, start_energies, carried_energies, IsWithinCaps};

    /// The storages of a system as a run starts.
    pub fn new(alloc: Global, system: &'a System) -> Result<Storages<'a>, OutOfMemory>
        ensures { IfOk result (λ s. s ≡ record {
          system = system.now;
          energies = start_energies system.now;
        }) }
    {
        let mut energies = Vec::with_capacity(alloc, system.storages() as usize)?;
        for device in 0..system.storages() {
            energies.push(system.storage(device).start)?;
        }
        Ok(Storages { system, energies })
    }

    /// Goes back to the start of a run.
    pub fn reset(&mut self)
        ensures { self.new ≡ record self.old { energies = start_energies self.old.system } }
    {
        for device in 0..self.system.storages() {
            self.energies[device as usize] = self.system.storage(device).start;
        }
    }

    /// Goes on to the next hour: each storage, up or out, keeps the whole part of its share.
    pub fn carry(&mut self)
        ensures { self.new ≡ record self.old {
          energies = carried_energies self.old.system self.old.energies;
        } }
    {
        for device in 0..self.system.storages() {
            let storage = self.system.storage(device);
            let energy = self.energies[device as usize];
            self.energies[device as usize] = kept(&storage, energy);
        }
    }

    /// What a storage that is up or out may take in and give in this hour, in MW.
    pub fn caps(&self, device: u32, up: bool) -> Caps
        requires { device < storage_count self.now.system }
        ensures value { result ≡ caps_if up (storage_at self.now.system device) (energy_of self.now device) }
        ensures charge { result.charge ≤ MOST_POOLED_MW }
        ensures discharge { result.discharge ≤ MOST_POOLED_MW }
    {
        if up {
            caps_of(&self.system.storage(device), self.energies[device as usize])
        } else {
            NO_CAPS
        }
    }

    /// Charges and discharges a storage in this hour, in MW.
    pub fn apply(&mut self, device: u32, charge: u32, discharge: u32)
        requires place { device < storage_count self.old.system }
        requires caps { IsWithinCaps self.old device charge discharge }
        ensures { let storage = storage_at self.old.system device in self.new ≡ record self.old {
          energies = slice_set self.old.energies device (energy_then storage
              (energy_of self.old device) charge discharge);
        } }
    {
        let storage = self.system.storage(device);
        let energy = self.energies[device as usize];
        self.energies[device as usize] = energy_after(&storage, energy, charge, discharge);
    }

    /// The energy of a storage, in kWh.
    pub fn energy(&self, device: u32) -> u32
        requires { device < storage_count self.now.system }
        ensures value { result ≡ energy_of self.now device }
        ensures range { result ≤ (storage_at self.now.system device).energy }
    {
        self.energies[device as usize]
    }
}
