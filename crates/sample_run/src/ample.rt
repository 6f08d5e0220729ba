//! Hours in which each zone's supply covers its load and all that its storages may charge: most hours of most
//! systems. All load is served then, nothing flows, no storage discharges and each charges its cap, and no
//! network is set for that.
ghost use Rattle.std.specs.Prelude.{◌≡◌, IsTrue, length};
ghost use Rattle.system_model.specs.System.{zone_count, storage_count};
ghost use Rattle.outage_chronology.specs.Standing.{is_up_at};
ghost use Rattle.hour_dispatch.specs.Ample.{AreNeeds, IsAmple, zeros};
ghost use Rattle.sample_run.specs.HourNetwork.{network_of};
ghost use Rattle.sample_run.specs.UpSums.{AreSums};

use crate::network::supply;
use crate::up_sums::UpSums;
use outage_chronology::Chronology;
use ra_base::Amounts;
use sample_totals::HourOutcome;
use storage_state::Storages;
use system_model::System;

/// Whether each zone's supply in the hour where the chronology stands covers its load and the charge caps of
/// its storages. If so, `needs` has these sums by zone, and `charge` these caps. Else what they have is of no
/// use.
pub(crate) fn is_ample(
    system: &System,
    chronology: &Chronology<'_>,
    storages: &Storages<'_>,
    sums: &UpSums,
    needs: &mut Amounts,
    charge: &mut Amounts,
) -> bool
    requires chronology { chronology.now.system ≡ system.now }
    requires storages { storages.now.system ≡ system.now }
    requires sums { AreSums system.now (is_up_at chronology.now) sums.now }
    requires needs { length needs.old ≡ zone_count system.now }
    requires charge { length charge.old ≡ storage_count system.now }
    ensures ample { IsTrue result → IsAmple (network_of system.now (is_up_at chronology.now)
        storages.now.energies chronology.now.hour) }
    ensures needs { IsTrue result → AreNeeds (network_of system.now (is_up_at chronology.now)
        storages.now.energies chronology.now.hour) needs.new }
    ensures charge { IsTrue result → charge.new ≡ (network_of system.now (is_up_at chronology.now)
        storages.now.energies chronology.now.hour).charge_caps }
    ensures needs_size { length needs.new ≡ length needs.old }
    ensures charge_size { length charge.new ≡ length charge.old }
{
    for zone in 0..system.zones() {
        let load = system.load(chronology.hour(), zone);
        if load > supply(system, chronology, sums, zone) {
            return false;
        }
        needs.set(zone as usize, load);
    }
    for device in 0..system.storages() {
        let up = chronology.is_up(system.units() + device);
        let cap = storages.caps(device, up).charge;
        let zone = system.storage(device).zone;
        let need = needs.get(zone as usize);
        if cap > supply(system, chronology, sums, zone) - need {
            return false;
        }
        needs.set(zone as usize, need + cap);
        charge.set(device as usize, cap);
    }
    true
}

/// Writes what an ample hour comes to, but for the charge.
pub(crate) fn keep_still(outcome: &mut HourOutcome)
    ensures { outcome.new ≡ record outcome.old {
      unserved = zeros (length outcome.old.unserved);
      discharge = zeros (length outcome.old.discharge);
      cut = 0;
    } }
{
    clear(&mut outcome.unserved);
    clear(&mut outcome.discharge);
    outcome.cut = 0;
}

/// Sets all amounts to 0.
fn clear(amounts: &mut Amounts)
    ensures { amounts.new ≡ zeros (length amounts.old) }
{
    for at in 0..amounts.len() {
        amounts.set(at, 0);
    }
}
