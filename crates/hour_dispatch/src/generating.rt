ghost use Rattle.std.specs.Prelude.{◌≡◌, length};
ghost use Rattle.zone_network.specs.Network.{IsNetwork, link_count};
ghost use Rattle.hour_dispatch.specs.Stages.{IsShown};

use cut_certificate::Chain;
use transfer_flow::Flow;
use zone_network::Network;

/// Writes the flows and what each zone generates: its supply less what is left to spare.
pub(crate) fn generate(flow: &Flow, net: &Network, chain: &mut Chain)
    requires shape { flow.now.shape ≡ net.now.shape }
    requires flows { length chain.old.flows ≡ link_count net.now.shape }
    requires generation { length chain.old.generation ≡ net.now.shape.zones }
    ensures shown { IsShown net.now flow.now chain.new }
    ensures sets { chain.new.sets ≡ chain.old.sets }
    ensures valid { IsNetwork net.now }
{
    for zone in 0..net.zones() {
        let generated = net.supply(zone).saturating_sub(flow.spare(zone));
        chain.generation.set(zone as usize, generated);
    }
    for link in 0..net.links() {
        chain.flows.set(link as usize, flow.flow(link));
    }
}
