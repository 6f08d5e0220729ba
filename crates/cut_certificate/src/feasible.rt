//! Whether an outcome with a chain's flows and generation is feasible.

ghost use Rattle.std.specs.Prelude.{◌≡◌, ◌<◌, ◌↔◌, IsTrue, length};
ghost use Rattle.zone_network.specs.Network.{IsNetwork, link_count, device_count};
ghost use Rattle.cut_certificate.specs.Chain.{Fit, IsFeasibleBy};
ghost use Rattle.cut_certificate.specs.Parts.{IsFeasibleZone, IsFeasibleDevice, IsFeasibleLink, AreFeasibleZones, AreFeasibleDevices, AreFeasibleLinks};

use crate::balances::{backward_of, forward_of, is_balanced};
use crate::chains::Chain;
use crate::flow_lists::Flows;
use sample_totals::HourOutcome;
use zone_network::Network;

/// Whether a zone lacks at most its load, generates at most its supply and is in balance.
fn is_feasible_zone(net: &Network, outcome: &HourOutcome, chain: &Chain, zone: u8) -> bool
    requires zone { zone < net.now.shape.zones }
    requires fit { Fit net.now outcome.now chain.now }
    ensures { IsTrue result ↔ IsFeasibleZone net.now outcome.now chain.now zone }
{
    let at = zone as usize;
    outcome.unserved.get(at) <= net.load(zone)
        && chain.generation.get(at) <= net.supply(zone)
        && is_balanced(net, outcome, chain, zone)
}

/// Whether a device discharges and charges within its caps.
fn is_feasible_device(net: &Network, outcome: &HourOutcome, device: u32) -> bool
    requires device { device < device_count net.now.shape }
    requires discharge { length outcome.now.discharge ≡ device_count net.now.shape }
    requires charge { length outcome.now.charge ≡ device_count net.now.shape }
    ensures { IsTrue result ↔ IsFeasibleDevice net.now outcome.now device }
{
    let at = device as usize;
    outcome.discharge.get(at) <= net.discharge_cap(device)
        && outcome.charge.get(at) <= net.charge_cap(device)
}

/// Whether a link's flow is within its limits.
fn is_feasible_link(net: &Network, flows: &Flows, link: u32) -> bool
    requires link { link < link_count net.now.shape }
    requires flows { length flows.now ≡ link_count net.now.shape }
    ensures { IsTrue result ↔ IsFeasibleLink net.now flows.now link }
{
    let flow = flows.get(link as usize);
    forward_of(flow) <= net.forward(link) && backward_of(flow) <= net.backward(link)
}

/// Whether each zone is feasible.
fn are_feasible_zones(net: &Network, outcome: &HourOutcome, chain: &Chain) -> bool
    requires { Fit net.now outcome.now chain.now }
    ensures exact { IsTrue result ↔ AreFeasibleZones net.now outcome.now chain.now net.now.shape.zones }
    ensures valid { IsNetwork net.now }
{
    for z in 0..net.zones() {
        if !is_feasible_zone(net, outcome, chain, z) {
            return false;
        }
    }
    true
}

/// Whether each device is feasible.
fn are_feasible_devices(net: &Network, outcome: &HourOutcome) -> bool
    requires discharge { length outcome.now.discharge ≡ device_count net.now.shape }
    requires charge { length outcome.now.charge ≡ device_count net.now.shape }
    ensures { IsTrue result ↔ AreFeasibleDevices net.now outcome.now (device_count net.now.shape) }
{
    for k in 0..net.devices() {
        if !is_feasible_device(net, outcome, k) {
            return false;
        }
    }
    true
}

/// Whether each link is feasible.
fn are_feasible_links(net: &Network, flows: &Flows) -> bool
    requires { length flows.now ≡ link_count net.now.shape }
    ensures { IsTrue result ↔ AreFeasibleLinks net.now flows.now (link_count net.now.shape) }
{
    for l in 0..net.links() {
        if !is_feasible_link(net, flows, l) {
            return false;
        }
    }
    true
}

/// Whether the outcome with the chain's flows and generation is feasible.
pub(crate) fn is_feasible(net: &Network, outcome: &HourOutcome, chain: &Chain) -> bool
    requires { Fit net.now outcome.now chain.now }
    ensures exact { IsTrue result ↔ IsFeasibleBy net.now outcome.now chain.now }
    ensures valid { IsNetwork net.now }
{
    are_feasible_zones(net, outcome, chain)
        && are_feasible_devices(net, outcome)
        && are_feasible_links(net, &chain.flows)
}
