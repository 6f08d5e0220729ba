//! Sums over the zones of a mask of what an outcome says of them and of their devices.

ghost use Rattle.std.specs.Prelude.{◌≡◌, ◌*◌, ◌<◌, ◌≤◌, ◌&&◌, length, slice_index};
ghost use Rattle.ra_base.specs.declared.limits.TheConstants.{MOST_ZONES, MOST_LINK_MW};
ghost use Rattle.zone_network.specs.Sums.{inside};
ghost use Rattle.zone_network.specs.Network.{over_zones, over_devices, device_count};
ghost use Rattle.zone_network.specs.Dispatch.{not_after};
ghost use Rattle.cut_certificate.specs.Chain.{served_but, with_caps_before, up_to};

use ra_base::Amounts;
use zone_network::{Network, has_zone};

/// What is served of a zone's load, in MW.
#[inline]
pub(crate) fn served(net: &Network, unserved: &Amounts, zone: u8) -> u32
    requires zone { zone < net.now.shape.zones }
    requires unserved { length unserved.now ≡ net.now.shape.zones }
    ensures value { result ≡ served_but net.now unserved.now zone }
    ensures most { result ≤ MOST_LINK_MW }
{
    net.load(zone).saturating_sub(unserved.get(zone as usize))
}

/// What is served in a mask's zones, in MW.
#[tactic(auto, using(crate::proofs::SumSteps::sum_steps))]
pub(crate) fn served_in(net: &Network, unserved: &Amounts, mask: u32) -> u64
    requires { length unserved.now ≡ net.now.shape.zones }
    ensures value { result ≡ over_zones net.now.shape (served_but net.now unserved.now) (inside mask) }
    ensures most { result ≤ MOST_ZONES * MOST_LINK_MW }
{
    let mut sum: u64 = 0;
    for z in 0..net.zones() {
        if has_zone(mask, z) {
            sum += u64::from(served(net, unserved, z));
        }
    }
    sum
}

/// What is served in those of a mask's zones that don't stand after a zone in the serving order, in MW.
#[tactic(auto, using(crate::proofs::SumSteps::sum_steps))]
pub(crate) fn served_not_after(net: &Network, unserved: &Amounts, mask: u32, last: u8) -> u64
    requires { length unserved.now ≡ net.now.shape.zones }
    ensures value { let served = served_but net.now unserved.now in
        result ≡ over_zones net.now.shape served (λ j. inside mask j && not_after net.now.shape last j) }
    ensures most { result ≤ MOST_ZONES * MOST_LINK_MW }
{
    let mut sum: u64 = 0;
    for z in 0..net.zones() {
        if has_zone(mask, z) && z <= last {
            sum += u64::from(served(net, unserved, z));
        }
    }
    sum
}

/// The sum of an amount by device over the devices in a mask's zones.
#[tactic(auto, using(crate::proofs::SumSteps::sum_steps))]
pub(crate) fn amounts_in(net: &Network, amounts: &Amounts, mask: u32) -> u64
    requires { length amounts.now ≡ device_count net.now.shape }
    ensures value { result ≡ over_devices net.now.shape (slice_index amounts.now) (inside mask) }
    ensures most { result ≤ 549755813760 }
{
    let mut sum: u64 = 0;
    for k in 0..net.devices() {
        if has_zone(mask, net.device_zone(k)) {
            sum += u64::from(amounts.get(k as usize));
        }
    }
    sum
}

/// Over the devices in a mask's zones: the discharge caps of those before a device, and what is discharged
/// from it on, in MW.
#[tactic(auto, using(crate::proofs::SumSteps::sum_steps))]
pub(crate) fn caps_before_in(net: &Network, discharge: &Amounts, device: u32, mask: u32) -> u64
    requires { length discharge.now ≡ device_count net.now.shape }
    ensures value { let given = with_caps_before net.now (slice_index discharge.now) device in
        result ≡ over_devices net.now.shape given (inside mask) }
    ensures most { result ≤ 549755813760 }
{
    let mut sum: u64 = 0;
    for k in 0..net.devices() {
        if has_zone(mask, net.device_zone(k)) {
            sum += u64::from(cap_before(net, discharge, device, k));
        }
    }
    sum
}

/// The discharge cap of a device that stands before another, and else what it discharges, in MW.
#[inline]
fn cap_before(net: &Network, discharge: &Amounts, device: u32, k: u32) -> u32
    requires place { k < device_count net.now.shape }
    requires discharge { length discharge.now ≡ device_count net.now.shape }
    ensures { result ≡ with_caps_before net.now (slice_index discharge.now) device k }
{
    if k < device {
        net.discharge_cap(k)
    } else {
        discharge.get(k as usize)
    }
}

/// What the devices in a mask's zones charge up to a device, in MW.
#[tactic(auto, using(crate::proofs::SumSteps::sum_steps))]
pub(crate) fn charge_up_to_in(net: &Network, charge: &Amounts, last: u32, mask: u32) -> u64
    requires { length charge.now ≡ device_count net.now.shape }
    ensures value { result ≡ over_devices net.now.shape (up_to (slice_index charge.now) last) (inside mask) }
    ensures most { result ≤ 549755813760 }
{
    let mut sum: u64 = 0;
    for k in 0..net.devices() {
        if has_zone(mask, net.device_zone(k)) && k <= last {
            sum += u64::from(charge.get(k as usize));
        }
    }
    sum
}
