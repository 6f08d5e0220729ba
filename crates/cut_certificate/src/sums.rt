//! Sums over the zones of a mask, and over the devices and links of these zones.

ghost use Rattle.std.specs.Prelude.{◌≡◌, ◌+◌, ◌*◌, ◌<◌, ◌≤◌};
ghost use Rattle.ra_base.specs.declared.limits.TheConstants.{MOST_ZONES, MOST_INTERFACES, MOST_STORAGES, MOST_LINK_MW};
ghost use Rattle.zone_network.specs.Sums.{inside};
ghost use Rattle.zone_network.specs.Network.{IsNetwork, link_count, into};
ghost use Rattle.cut_certificate.specs.Parts.{limit_into};
ghost use Rattle.zone_network.specs.Cut.{load_of, supply_of, discharge_caps_of};

use zone_network::{Network, has_zone};

/// The load of a mask's zones, in MW.
#[tactic(auto, using(crate::proofs::SumSteps::sum_steps))]
pub(crate) fn load_of(net: &Network, mask: u32) -> u64
    ensures value { result ≡ load_of net.now (inside mask) }
    ensures most { result ≤ MOST_ZONES * MOST_LINK_MW }
{
    let mut sum: u64 = 0;
    for z in 0..net.zones() {
        if has_zone(mask, z) {
            sum += u64::from(net.load(z));
        }
    }
    sum
}

/// The supply of a mask's zones, in MW.
#[tactic(auto, using(crate::proofs::SumSteps::sum_steps))]
pub(crate) fn supply_of(net: &Network, mask: u32) -> u64
    ensures value { result ≡ supply_of net.now (inside mask) }
    ensures most { result ≤ MOST_ZONES * MOST_LINK_MW }
{
    let mut sum: u64 = 0;
    for z in 0..net.zones() {
        if has_zone(mask, z) {
            sum += u64::from(net.supply(z));
        }
    }
    sum
}

/// The discharge caps of the devices in a mask's zones, in MW.
#[tactic(auto, using(crate::proofs::SumSteps::sum_steps))]
pub(crate) fn discharge_caps_of(net: &Network, mask: u32) -> u64
    ensures value { result ≡ discharge_caps_of net.now (inside mask) }
    ensures most { result ≤ MOST_STORAGES * MOST_LINK_MW }
{
    let mut sum: u64 = 0;
    for k in 0..net.devices() {
        if has_zone(mask, net.device_zone(k)) {
            sum += u64::from(net.discharge_cap(k));
        }
    }
    sum
}

/// The limits into a mask's zones from outside them, in MW.
#[tactic(auto, using(crate::proofs::SumSteps::sum_steps))]
pub(crate) fn into(net: &Network, mask: u32) -> u64
    ensures value { result ≡ into net.now (inside mask) }
    ensures most { result ≤ MOST_INTERFACES * MOST_LINK_MW }
    ensures valid { IsNetwork net.now }
{
    let mut sum: u64 = 0;
    for l in 0..net.links() {
        sum += u64::from(limit_into(net, mask, l));
    }
    sum
}

/// The limit of a link towards a mask's zones where it comes from outside them, and else 0.
fn limit_into(net: &Network, mask: u32, link: u32) -> u32
    requires { link < link_count net.now.shape }
    ensures value { result ≡ limit_into net.now (inside mask) link }
    ensures most { result ≤ MOST_LINK_MW }
{
    let ends = net.link(link);
    let from = has_zone(mask, ends.from);
    let to = has_zone(mask, ends.to);
    if to && !from {
        net.forward(link)
    } else if from && !to {
        net.backward(link)
    } else {
        0
    }
}
