ghost use Rattle.std.specs.Prelude.{◌≡◌, ◌<◌, ℕ, List, IsTrue, true, false, not, nat_lt, length, slice_index};
ghost use Rattle.zone_network.specs.Sums.{inside};
ghost use Rattle.zone_network.specs.Network.{IsNetwork, over_zones};
ghost use Rattle.zone_network.specs.Cut.{IsCut};
ghost use Rattle.transfer_flow.specs.Flow.{spare_at};
ghost use Rattle.hour_dispatch.specs.Stages.{IsServed, IsMaskOf};

use ra_base::Amounts;
use transfer_flow::Flow;
use zone_network::{Network, has_zone, with_zone};

/// The hour's cut, once all zones are served and before any device charges: where load is unserved, the
/// zones that no spare can reach, and else 0.
pub(crate) fn cut(flow: &Flow, net: &Network, unserved: &Amounts) -> u32
    requires { (sets : List ℕ) × IsServed net.now flow.now unserved.now sets net.now.shape.zones }
    ensures { IsCut net.now (over_zones net.now.shape (slice_index unserved.now) (λ z. true)) result }
{
    if is_served(net, unserved) {
        0
    } else {
        zones_outside(net, flow.reach_from(net, zones_with_spare(flow, net)))
    }
}

/// Whether no load is unserved.
fn is_served(net: &Network, unserved: &Amounts) -> bool
    requires { length unserved.now ≡ net.now.shape.zones }
    ensures served { IsTrue result → over_zones net.now.shape (slice_index unserved.now) (λ z. true) ≡ 0 }
    ensures short { result ≡ false → 0 < over_zones net.now.shape (slice_index unserved.now) (λ z. true) }
    ensures valid { IsNetwork net.now }
{
    for zone in 0..net.zones() {
        if unserved.get(zone as usize) > 0 {
            return false;
        }
    }
    true
}

/// The mask of the zones that have something to spare.
fn zones_with_spare(flow: &Flow, net: &Network) -> u32
    requires { flow.now.shape ≡ net.now.shape }
    ensures { IsMaskOf net.now.shape.zones (λ z. nat_lt 0 (spare_at flow.now z)) result }
{
    let mut mask = 0;
    for zone in 0..net.zones() {
        if flow.spare(zone) > 0 {
            mask = with_zone(mask, zone);
        }
    }
    mask
}

/// The mask of the zones that aren't in a mask.
fn zones_outside(net: &Network, mask: u32) -> u32
    ensures { IsMaskOf net.now.shape.zones (λ z. not (inside mask z)) result }
{
    let mut outside = 0;
    for zone in 0..net.zones() {
        if !has_zone(mask, zone) {
            outside = with_zone(outside, zone);
        }
    }
    outside
}
