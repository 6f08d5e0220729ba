ghost use Rattle.std.specs.Prelude.{◌≡◌, ◌<◌, ◌^◌, IsTrue};
ghost use Rattle.zone_network.specs.Sums.{inside};
ghost use Rattle.zone_network.specs.Network.{link_count};
ghost use Rattle.transfer_flow.specs.Flow.{IsWithinLimits};
ghost use Rattle.transfer_flow.specs.Reach.{IsReachTo, IsReachFrom, end_of};
ghost use Rattle.transfer_flow.specs.Draw.{IsEntered};
ghost use Rattle.transfer_flow.specs.Spread.{IsPassed, Spreads, CanSpread};

use crate::flows::Flow;
use crate::ways::{start_of, way};
use zone_network::{Network, has_zone, with_zone};

impl Flow {
    /// The mask of the zones that reach the goal along links with room, the goal included.
    pub fn reach_to(&self, net: &Network, goal: u8) -> u32
        requires shape { self.now.shape ≡ net.now.shape }
        requires limits { IsWithinLimits net.now self.now }
        requires goal { goal < net.now.shape.zones }
        ensures { IsReachTo net.now self.now goal result }
    {
        prove!(goal < net.zones());
        let mut mask = with_zone(0, goal);
        self.spread(net, goal, true, &mut mask);
        mask
    }

    /// The mask of the zones that a mask reaches along links with room, itself included.
    pub fn reach_from(&self, net: &Network, from: u32) -> u32
        requires shape { self.now.shape ≡ net.now.shape }
        requires limits { IsWithinLimits net.now self.now }
        requires among { from < 2 ^ net.now.shape.zones }
        ensures { IsReachFrom net.now self.now from result }
    {
        let mut mask = from;
        for zone in 0..net.zones() {
            if has_zone(from, zone) {
                self.spread(net, zone, false, &mut mask);
            }
        }
        mask
    }

    /// Adds to what was seen the zones that lie on from a seen zone: those from which links with room lead
    /// to it, or, where `towards` is false, those to which they lead.
    #[cycle(spreads)]
    fn spread(&self, net: &Network, zone: u8, towards: bool, seen: &mut u32)
        requires zone { zone < net.now.shape.zones }
        requires can { CanSpread net.now self.now zone seen.old }
        ensures spreads { Spreads net.now self.now towards seen.old seen.new }
        ensures own { IsPassed net.now self.now towards seen.new zone }
    {
        for link in net.links_of(zone) {
            let forward = net.link(*link).to == zone;
            self.spread_along(net, *link, forward, towards, seen);
        }
    }

    /// The same along one link, from its end to its start.
    #[cycle(spreads)]
    fn spread_along(&self, net: &Network, link: u32, forward: bool, towards: bool, seen: &mut u32)
        requires link { link < link_count net.now.shape }
        requires can { CanSpread net.now self.now (end_of net.now.shape link forward) seen.old }
        ensures spreads { Spreads net.now self.now towards seen.old seen.new }
        ensures entered { IsEntered net.now self.now towards seen.new
            (end_of net.now.shape link forward) link }
    {
        let start = start_of(net, link, forward);
        let room = self.room(net, link, way(towards, forward));
        if room == 0 || has_zone(*seen, start) {
            return;
        }
        *seen = with_zone(*seen, start);
        self.spread(net, start, towards, seen);
    }
}
