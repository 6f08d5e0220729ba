ghost use Rattle.std.specs.Prelude.{◌≡◌, ◌+◌, ◌<◌, length};
ghost use Rattle.zone_network.specs.Network.{discharge_cap_at};
ghost use Rattle.hour_dispatch.specs.Balance.{IsInBalance};
ghost use Rattle.hour_dispatch.specs.Stages.{IsServed, IsUnused, nothing, set_count};

use ra_base::Amounts;
use transfer_flow::Flow;
use zone_network::Network;

/// Serves the zones in order, from unused supply and unused discharge caps, and writes what isn't served
/// and the sets that prove it.
pub(crate) fn serve(flow: &mut Flow, net: &Network, unserved: &mut Amounts, sets: &mut Amounts)
    requires balance { IsInBalance net.now flow.old nothing (discharge_cap_at net.now) nothing }
    requires unused { IsUnused net.now flow.old (discharge_cap_at net.now) }
    requires unserved { length unserved.old ≡ net.now.shape.zones }
    requires sets { length sets.old ≡ set_count net.now.shape }
    ensures { IsServed net.now flow.new unserved.new sets.new net.now.shape.zones }
{
    for zone in 0..net.zones() {
        serve_zone(flow, net, zone, unserved, sets);
    }
}

/// Serves the next zone.
fn serve_zone(flow: &mut Flow, net: &Network, zone: u8, unserved: &mut Amounts, sets: &mut Amounts)
    requires zone { zone < net.now.shape.zones }
    requires before { IsServed net.now flow.old unserved.old sets.old zone }
    ensures { IsServed net.now flow.new unserved.new sets.new (zone + 1) }
{
    let load = net.load(zone);
    let pull = flow.pull_or_search(net, zone, load);
    unserved.set(zone as usize, load - pull.moved);
    sets.set(zone as usize, pull.searched);
}
