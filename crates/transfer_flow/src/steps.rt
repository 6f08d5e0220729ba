ghost use Rattle.std.specs.Prelude.{◌≡◌, ◌<◌, IsTrue, length};
ghost use Rattle.ra_base.specs.declared.limits.TheConstants.{MOST_ZONES};
ghost use Rattle.zone_network.specs.Network.{link_count};
ghost use Rattle.transfer_flow.specs.Flow.{IsWithinLimits};
ghost use Rattle.transfer_flow.specs.Draw.{IsUnbound};

use crate::flows::Flow;
use crate::ways::start_of;
use zone_network::{Network, has_zone, with_zone};

/// Whether the first zone lies more steps away than the second. Without numbers of steps all zones do.
#[inline]
pub(crate) fn leads_away(steps: &[u8], far: u8, near: u8) -> bool
    ensures { IsUnbound steps.now → IsTrue result }
{
    match (steps.get(far as usize), steps.get(near as usize)) {
        (Some(far), Some(near)) => far > near,
        _ => true,
    }
}

impl Flow {
    /// For each zone over how many links with room it reaches the goal, and 255 where it doesn't.
    pub(crate) fn steps_to(&self, net: &Network, goal: u8) -> [u8; 32]
        requires shape { self.now.shape ≡ net.now.shape }
        requires limits { IsWithinLimits net.now self.now }
        requires goal { goal < net.now.shape.zones }
    {
        prove!(goal < net.zones());
        let mut steps = [u8::MAX; 32];
        steps[goal as usize] = 0;
        let mut ring = with_zone(0, goal);
        for step in 1..32 {
            ring = self.next_ring(net, ring, step, &mut steps);
            if ring == 0 {
                break;
            }
        }
        steps
    }

    /// The zones that reach a ring's zones over one link and have no number of steps yet. They get it.
    fn next_ring(&self, net: &Network, ring: u32, step: u8, steps: &mut [u8]) -> u32
        requires shape { self.now.shape ≡ net.now.shape }
        requires limits { IsWithinLimits net.now self.now }
        requires steps { length steps.old ≡ MOST_ZONES }
    {
        let mut next = 0;
        for zone in 0..net.zones() {
            if has_zone(ring, zone) {
                next |= self.ring_of(net, zone, step, steps);
            }
        }
        next
    }

    /// Those of them that reach one zone.
    fn ring_of(&self, net: &Network, zone: u8, step: u8, steps: &mut [u8]) -> u32
        requires shape { self.now.shape ≡ net.now.shape }
        requires limits { IsWithinLimits net.now self.now }
        requires zone { zone < net.now.shape.zones }
        requires steps { length steps.old ≡ MOST_ZONES }
    {
        let mut ring = 0;
        for link in net.links_of(zone) {
            let forward = net.link(*link).to == zone;
            let start = start_of(net, *link, forward);
            if steps[start as usize] == u8::MAX && self.room(net, *link, forward) > 0 {
                steps[start as usize] = step;
                ring = with_zone(ring, start);
            }
        }
        ring
    }
}
