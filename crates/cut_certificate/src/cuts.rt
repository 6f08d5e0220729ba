ghost use Rattle.std.specs.Prelude.{◌≡◌, ◌<◌, ◌^◌, ◌↔◌, IsTrue};
ghost use Rattle.zone_network.specs.Sums.{inside};
ghost use Rattle.zone_network.specs.Cut.{IsTight};
ghost use Rattle.cut_certificate.specs.Least.{IsLeastUnserved};

use crate::sums::{discharge_caps_of, into, load_of, supply_of};
use zone_network::Network;

/// Whether the unserved load, in MW, is what a mask's zones can't get: their load less their supply, the
/// discharge caps of their devices and the limits into them. A yes proves that no feasible dispatch leaves
/// less unserved (by the cut of a transfer network).
pub fn check_cut(net: &Network, mask: u32, unserved: u32) -> bool
    requires { mask < 2 ^ net.now.shape.zones }
    ensures exact { IsTrue result ↔ IsTight net.now unserved (inside mask) }
    ensures least { IsTrue result → IsLeastUnserved net.now unserved }
{
    u64::from(unserved) + supply_of(net, mask) + discharge_caps_of(net, mask) + into(net, mask)
        == load_of(net, mask)
}
