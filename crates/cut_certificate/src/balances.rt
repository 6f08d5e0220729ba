//! The balance of a zone: what comes in or is made there, and what goes out or is used there.

ghost use Rattle.std.specs.Prelude.{◌≡◌, ◌+◌, ◌<◌, ◌≤◌, ◌==◌, ◌↔◌, IsTrue, length, slice_index, if◌then◌else◌};
ghost use Rattle.zone_network.specs.Network.{IsNetwork, forward_of, backward_of, inflow, outflow, link_count, device_count, from_zone, to_zone, over_devices};
ghost use Rattle.cut_certificate.specs.Chain.{Fit, flow_at};
ghost use Rattle.cut_certificate.specs.Parts.{IsBalanced, brought, taken};

use crate::chains::Chain;
use crate::flow_lists::Flows;
use crate::outcome_sums::served;
use ra_base::Amounts;
use sample_totals::HourOutcome;
use zone_network::Network;

/// What goes forward by a signed flow, in MW.
#[inline]
pub(crate) fn forward_of(flow: i32) -> u32
    ensures value { result ≡ forward_of flow }
    ensures most { result ≤ 2147483648 }
{
    if flow > 0 { flow.unsigned_abs() } else { 0 }
}

/// What goes backward by a signed flow, in MW.
#[inline]
pub(crate) fn backward_of(flow: i32) -> u32
    ensures value { result ≡ backward_of flow }
    ensures most { result ≤ 2147483648 }
{
    if flow < 0 { flow.unsigned_abs() } else { 0 }
}

/// What a link brings into a zone, in MW.
fn brought(net: &Network, flows: &Flows, link: u32, zone: u8) -> u32
    requires link { link < link_count net.now.shape }
    requires flows { length flows.now ≡ link_count net.now.shape }
    ensures value { result ≡ brought net.now.shape flows.now link zone }
    ensures most { result ≤ 2147483648 }
{
    let ends = net.link(link);
    let flow = flows.get(link as usize);
    if ends.to == zone {
        forward_of(flow)
    } else if ends.from == zone {
        backward_of(flow)
    } else {
        0
    }
}

/// What a link takes out of a zone, in MW.
fn taken(net: &Network, flows: &Flows, link: u32, zone: u8) -> u32
    requires link { link < link_count net.now.shape }
    requires flows { length flows.now ≡ link_count net.now.shape }
    ensures value { result ≡ taken net.now.shape flows.now link zone }
    ensures most { result ≤ 2147483648 }
{
    let ends = net.link(link);
    let flow = flows.get(link as usize);
    if ends.from == zone {
        forward_of(flow)
    } else if ends.to == zone {
        backward_of(flow)
    } else {
        0
    }
}

/// What the links bring into a zone, in MW.
#[tactic(auto, using(crate::proofs::SumSteps::sum_steps))]
pub(crate) fn inflow(net: &Network, flows: &Flows, zone: u8) -> u64
    requires { length flows.now ≡ link_count net.now.shape }
    ensures value { result ≡ inflow net.now.shape (flow_at flows.now) zone }
    ensures most { result ≤ 274877906944 }
{
    let mut sum: u64 = 0;
    for l in 0..net.links() {
        sum += u64::from(brought(net, flows, l, zone));
    }
    sum
}

/// What the links take out of a zone, in MW.
#[tactic(auto, using(crate::proofs::SumSteps::sum_steps))]
pub(crate) fn outflow(net: &Network, flows: &Flows, zone: u8) -> u64
    requires { length flows.now ≡ link_count net.now.shape }
    ensures value { result ≡ outflow net.now.shape (flow_at flows.now) zone }
    ensures most { result ≤ 274877906944 }
{
    let mut sum: u64 = 0;
    for l in 0..net.links() {
        sum += u64::from(taken(net, flows, l, zone));
    }
    sum
}

/// The sum of an amount by device over the devices of a zone.
#[tactic(auto, using(crate::proofs::SumSteps::sum_steps))]
pub(crate) fn amounts_at(net: &Network, amounts: &Amounts, zone: u8) -> u64
    requires { length amounts.now ≡ device_count net.now.shape }
    ensures value { result ≡ over_devices net.now.shape (slice_index amounts.now) (λ w. w == zone) }
    ensures most { result ≤ 549755813760 }
{
    let mut sum: u64 = 0;
    for k in 0..net.devices() {
        if net.device_zone(k) == zone {
            sum += u64::from(amounts.get(k as usize));
        }
    }
    sum
}

/// Whether what comes in to a zone or is made there goes out or is used there.
pub(crate) fn is_balanced(net: &Network, outcome: &HourOutcome, chain: &Chain, zone: u8) -> bool
    requires zone { zone < net.now.shape.zones }
    requires fit { Fit net.now outcome.now chain.now }
    ensures { IsTrue result ↔ IsBalanced net.now outcome.now chain.now zone }
{
    let made = u64::from(chain.generation.get(zone as usize));
    let given = amounts_at(net, &outcome.discharge, zone);
    let used = u64::from(served(net, &outcome.unserved, zone));
    let stored = amounts_at(net, &outcome.charge, zone);
    made + given + inflow(net, &chain.flows, zone)
        == used + stored + outflow(net, &chain.flows, zone)
}
