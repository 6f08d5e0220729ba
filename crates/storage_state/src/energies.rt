ghost use Rattle.std.specs.Prelude.{◌≡◌, ◌/◌, ◌<◌, ◌≤◌};
ghost use Rattle.storage_state.specs.Energy.{caps_of as caps, energy_after as energy_then, carried};

use crate::storages::Caps;
use system_model::Storage;

/// The caps of an up storage that holds this energy in kWh.
pub(crate) fn caps_of(storage: &Storage, energy: u32) -> Caps
    requires some { 0 < storage.now.charge_eff }
    requires most { energy ≤ storage.now.energy }
    ensures { result ≡ caps storage.now energy }
{
    let room = quotient(storage.energy - energy, u32::from(storage.charge_eff));
    let stored = u64::from(energy) * u64::from(storage.discharge_eff) / 1_000_000;
    Caps {
        charge: storage.charge.min(room),
        discharge: u64::from(storage.discharge).min(stored) as u32,
    }
}

/// The whole part of a quotient. Where it is 0 or 1, as for the room of a full storage and of one that has just
/// lost its share, nothing is divided.
fn quotient(amount: u32, by: u32) -> u32
    requires { 0 < by }
    ensures { result ≡ amount / by }
{
    if amount < by {
        0
    } else if amount - by < by {
        1
    } else {
        amount / by
    }
}

/// The energy in kWh after an hour with this charge and discharge in MW. What is taken is rounded up.
pub(crate) fn energy_after(storage: &Storage, energy: u32, charge: u32, discharge: u32) -> u32
    requires most { energy ≤ storage.now.energy }
    requires eff { 0 < storage.now.discharge_eff }
    requires charge { charge ≤ (caps storage.now energy).charge }
    requires discharge { discharge ≤ (caps storage.now energy).discharge }
    ensures value { result ≡ energy_then storage.now energy charge discharge }
    ensures most { result ≤ storage.now.energy }
{
    let added = charge * u32::from(storage.charge_eff);
    // In most hours nothing is taken, and to divide by an efficiency costs more than all else here.
    if discharge == 0 {
        return energy + added;
    }
    let taken = (u64::from(discharge) * 1_000_000).div_ceil(u64::from(storage.discharge_eff));
    energy - taken as u32 + added
}

/// The energy in kWh that is kept until the next hour.
pub(crate) fn kept(storage: &Storage, energy: u32) -> u32
    requires { storage.now.carry ≤ 1000 }
    ensures value { result ≡ carried storage.now energy }
    ensures most { result ≤ energy }
{
    (u64::from(energy) * u64::from(storage.carry) / 1_000) as u32
}
