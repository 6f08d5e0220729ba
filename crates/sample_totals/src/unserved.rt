ghost use Rattle.std.specs.Prelude.{◌≡◌, ℕ, ◌+◌, ◌^◌, ◌<◌, ◌≤◌, length, sum, slice_index, slice_index_or};
ghost use Rattle.ra_base.specs.declared.limits.TheConstants.{MOST_POOLED_MW};

use ra_base::Amounts;

/// What all zones lack, in MW.
pub(crate) fn total_of(unserved: &Amounts) -> u64
    requires { sum unserved.now ≤ MOST_POOLED_MW }
    ensures { result ≡ sum unserved.now }
{
    let mut total = 0;
    for zone in 0..unserved.len() {
        total += u64::from(unserved.get(zone));
    }
    total
}

/// Adds what each zone lacks to the zone's energy.
pub(crate) fn add_unserved(energies: &mut [u64], unserved: &Amounts)
    requires agree { length unserved.now ≡ length energies.old }
    requires fits { (z : ℕ) → slice_index energies.old z < 2 ^ 63 }
    ensures { (z : ℕ) → z < length energies.old
        → slice_index energies.new z ≡ slice_index energies.old z + slice_index unserved.now z }
{
    for (zone, energy) in energies.iter_mut().enumerate() {
        *energy += u64::from(unserved.get(zone));
    }
}
