//! What a mask proves of a component: that it can't be improved while those before it in the order of
//! comparison stay.

ghost use Rattle.std.specs.Prelude.{◌≡◌, ◌<◌, ◌↔◌, IsTrue, length};
ghost use Rattle.zone_network.specs.Network.{device_count};
ghost use Rattle.cut_certificate.specs.Chain.{Fit, ProvesUnservedIn, ProvesDischargeIn, ProvesChargeIn, ProveUnserved, ProveDischarge, ProveCharge, IsProvedBy};

use crate::chains::Chain;
use crate::outcome_sums::{
    amounts_in, caps_before_in, charge_up_to_in, served_in, served_not_after,
};
use crate::sums::{discharge_caps_of, into, supply_of};
use sample_totals::HourOutcome;
use zone_network::{Network, has_zone};

/// Whether a mask proves a zone's unserved load.
fn proves_unserved(net: &Network, outcome: &HourOutcome, zone: u8, mask: u32) -> bool
    requires zone { zone < net.now.shape.zones }
    requires unserved { length outcome.now.unserved ≡ net.now.shape.zones }
    ensures { IsTrue result ↔ ProvesUnservedIn net.now outcome.now zone mask }
{
    if mask == 0 {
        return outcome.unserved.get(zone as usize) == 0;
    }
    let available = supply_of(net, mask) + discharge_caps_of(net, mask) + into(net, mask);
    has_zone(mask, zone) && served_not_after(net, &outcome.unserved, mask, zone) == available
}

/// Whether a mask proves a device's discharge.
fn proves_discharge(net: &Network, outcome: &HourOutcome, device: u32, mask: u32) -> bool
    requires device { device < device_count net.now.shape }
    requires unserved { length outcome.now.unserved ≡ net.now.shape.zones }
    requires discharge { length outcome.now.discharge ≡ device_count net.now.shape }
    ensures { IsTrue result ↔ ProvesDischargeIn net.now outcome.now device mask }
{
    if mask == 0 {
        return outcome.discharge.get(device as usize) == 0;
    }
    let given = caps_before_in(net, &outcome.discharge, device, mask);
    let available = supply_of(net, mask) + into(net, mask) + given;
    has_zone(mask, net.device_zone(device)) && served_in(net, &outcome.unserved, mask) == available
}

/// Whether a mask proves a device's charge.
fn proves_charge(net: &Network, outcome: &HourOutcome, device: u32, mask: u32) -> bool
    requires device { device < device_count net.now.shape }
    requires unserved { length outcome.now.unserved ≡ net.now.shape.zones }
    requires discharge { length outcome.now.discharge ≡ device_count net.now.shape }
    requires charge { length outcome.now.charge ≡ device_count net.now.shape }
    ensures { IsTrue result ↔ ProvesChargeIn net.now outcome.now device mask }
{
    if mask == 0 {
        return outcome.charge.get(device as usize) == net.charge_cap(device);
    }
    let stored = charge_up_to_in(net, &outcome.charge, device, mask);
    let available = supply_of(net, mask)
        + amounts_in(net, &outcome.discharge, mask)
        + into(net, mask);
    has_zone(mask, net.device_zone(device))
        && served_in(net, &outcome.unserved, mask) + stored == available
}

/// Whether each zone's mask proves its unserved load.
fn prove_unserved(net: &Network, outcome: &HourOutcome, chain: &Chain) -> bool
    requires { Fit net.now outcome.now chain.now }
    ensures { IsTrue result ↔ ProveUnserved net.now outcome.now chain.now net.now.shape.zones }
{
    for z in 0..net.zones() {
        if !proves_unserved(net, outcome, z, chain.sets.get(z as usize)) {
            return false;
        }
    }
    true
}

/// Whether each device's mask for it proves its discharge.
fn prove_discharge(net: &Network, outcome: &HourOutcome, chain: &Chain) -> bool
    requires { Fit net.now outcome.now chain.now }
    ensures { IsTrue result ↔ ProveDischarge net.now outcome.now chain.now (device_count net.now.shape) }
{
    let first = net.zones() as usize;
    for k in 0..net.devices() {
        if !proves_discharge(net, outcome, k, chain.sets.get(first + k as usize)) {
            return false;
        }
    }
    true
}

/// Whether each device's mask for it proves its charge.
fn prove_charge(net: &Network, outcome: &HourOutcome, chain: &Chain) -> bool
    requires { Fit net.now outcome.now chain.now }
    ensures { IsTrue result ↔ ProveCharge net.now outcome.now chain.now (device_count net.now.shape) }
{
    let first = net.zones() as usize + net.devices() as usize;
    for k in 0..net.devices() {
        if !proves_charge(net, outcome, k, chain.sets.get(first + k as usize)) {
            return false;
        }
    }
    true
}

/// Whether each mask of the chain proves its component.
pub(crate) fn is_proved(net: &Network, outcome: &HourOutcome, chain: &Chain) -> bool
    requires { Fit net.now outcome.now chain.now }
    ensures { IsTrue result ↔ IsProvedBy net.now outcome.now chain.now }
{
    prove_unserved(net, outcome, chain)
        && prove_discharge(net, outcome, chain)
        && prove_charge(net, outcome, chain)
}
