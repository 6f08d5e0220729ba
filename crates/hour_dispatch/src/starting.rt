ghost use Rattle.std.specs.Prelude.{◌≡◌, ◌<◌};
ghost use Rattle.zone_network.specs.Network.{discharge_cap_at};
ghost use Rattle.hour_dispatch.specs.Balance.{IsInBalance};
ghost use Rattle.hour_dispatch.specs.Stages.{IsUnused, nothing};

use transfer_flow::Flow;
use zone_network::Network;

/// No flow, and in each zone its supply and its discharge caps to spare.
pub(crate) fn start(flow: &mut Flow, net: &Network)
    requires { flow.old.shape ≡ net.now.shape }
    ensures balance { IsInBalance net.now flow.new nothing (discharge_cap_at net.now) nothing }
    ensures unused { IsUnused net.now flow.new (discharge_cap_at net.now) }
{
    flow.clear();
    for zone in 0..net.zones() {
        flow.set_spare(zone, net.supply(zone));
    }
    for device in 0..net.devices() {
        let zone = net.device_zone(device);
        flow.set_spare(zone, flow.spare(zone) + net.discharge_cap(device));
    }
}
