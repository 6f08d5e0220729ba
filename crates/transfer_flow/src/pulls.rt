ghost use Rattle.std.specs.Prelude.{◌≡◌, ℕ, ◌+◌, ◌-◌, ◌<◌, ◌≤◌, ◌^◌, ◌*◌, ◌⊎◌, IsTrue, true};
ghost use Rattle.zone_network.specs.Sums.{inside};
ghost use Rattle.zone_network.specs.Network.{link_count};
ghost use Rattle.transfer_flow.specs.Flow.{IsWithinLimits, Moves, spare_at};
ghost use Rattle.transfer_flow.specs.Reach.{Reaches, IsUsedUp, start_of, end_of};
ghost use Rattle.transfer_flow.specs.Draw.{CanDraw, Draws, IsDry, IsEntered, IsUnbound};

use crate::flows::Flow;
use crate::steps::leads_away;
use crate::ways::{end_of, start_of};
use zone_network::{Network, has_zone, with_zone};

/// How a pull ended.
#[derive(Clone, Copy, Debug, PartialEq, Eq)]
pub struct Pull {
    /// How much came, in MW.
    pub moved: u32,
    /// Where less came than was asked, the mask of the zones that could have given it: none has a spare,
    /// and no link with room enters them. Else 0.
    pub searched: u32,
}

impl Flow {
    /// Moves up to `most` MW to a zone, from its own spare and along links with room from the spares of
    /// others, and answers how much. Where this is less than `most`, no zone with a spare reaches it.
    pub fn pull(&mut self, net: &Network, goal: u8, most: u32) -> u32
        requires shape { self.old.shape ≡ net.now.shape }
        requires limits { IsWithinLimits net.now self.old }
        requires goal { goal < net.now.shape.zones }
        ensures shape { self.new.shape ≡ net.now.shape }
        ensures limits { IsWithinLimits net.now self.new }
        ensures moves { Moves net.now.shape self.old self.new goal result }
        ensures most { result ≤ most }
        ensures short { result < most → (z : ℕ) → Reaches net.now self.new z goal → spare_at self.new z ≡ 0 }
    {
        self.pull_or_search(net, goal, most).moved
    }

    /// The same, with the zones that were searched in vain where it falls short. The goal's own spare is
    /// taken first.
    pub fn pull_or_search(&mut self, net: &Network, goal: u8, most: u32) -> Pull
        requires shape { self.old.shape ≡ net.now.shape }
        requires limits { IsWithinLimits net.now self.old }
        requires goal { goal < net.now.shape.zones }
        ensures shape { self.new.shape ≡ net.now.shape }
        ensures limits { IsWithinLimits net.now self.new }
        ensures moves { Moves net.now.shape self.old self.new goal result.moved }
        ensures most { result.moved ≤ most }
        ensures own { spare_at self.new goal ≡ 0 ⊎ (spare_at self.new goal + most ≤ spare_at self.old goal) }
        ensures short { result.moved < most → IsUsedUp net.now self.new goal result.searched }
        ensures enough { result.moved ≡ most → result.searched ≡ 0 }
    {
        prove!(goal < net.zones());
        let mut moved = self.take_spare(goal, most);
        while moved < most {
            let mut seen = with_zone(0, goal);
            let more = self.draw(net, goal, most - moved, &[], &mut seen);
            if more == 0 {
                return Pull {
                    moved,
                    searched: seen,
                };
            }
            moved += more;
            moved += self.pull_over_few_links(net, goal, most - moved);
        }
        Pull { moved, searched: 0 }
    }

    /// Moves up to `most` MW to a zone, always over the fewest links that some way needs, until none is
    /// left. So a search that happens upon long ways can't go on for long.
    fn pull_over_few_links(&mut self, net: &Network, goal: u8, most: u32) -> u32
        requires shape { self.old.shape ≡ net.now.shape }
        requires limits { IsWithinLimits net.now self.old }
        requires goal { goal < net.now.shape.zones }
        ensures shape { self.new.shape ≡ net.now.shape }
        ensures limits { IsWithinLimits net.now self.new }
        ensures moves { Moves net.now.shape self.old self.new goal result }
        ensures most { result ≤ most }
    {
        prove!(goal < net.zones());
        let mut moved = 0;
        while moved < most {
            let steps = self.steps_to(net, goal);
            let mut seen = with_zone(0, goal);
            let more = self.draw(net, goal, most - moved, &steps, &mut seen);
            if more == 0 {
                break;
            }
            moved += more;
        }
        moved
    }

    /// Draws up to `most` MW to a zone that is marked as seen: from its own spare, then along each link
    /// from zones that aren't. Where zones have numbers of steps, only from those that lie more steps away.
    #[cycle(draws)]
    fn draw(&mut self, net: &Network, zone: u8, most: u32, steps: &[u8], seen: &mut u32) -> u32
        requires zone { zone < net.now.shape.zones }
        requires can { CanDraw net.now self.old zone seen.old most }
        ensures draws { Draws net.now self.old self.new steps.now zone seen.old seen.new most result }
        ensures own { IsUnbound steps.now → result ≡ 0 → IsDry net.now self.old seen.new zone }
    {
        let mut drawn = self.take_spare(zone, most);
        for link in net.links_of(zone) {
            if drawn == most {
                break;
            }
            let forward = net.link(*link).to == zone;
            drawn += self.draw_along(net, *link, forward, most - drawn, steps, seen);
        }
        drawn
    }

    /// Draws along a link one way, from its start to its end.
    #[cycle(draws)]
    fn draw_along(
        &mut self,
        net: &Network,
        link: u32,
        forward: bool,
        most: u32,
        steps: &[u8],
        seen: &mut u32,
    ) -> u32
        requires link { link < link_count net.now.shape }
        requires can { CanDraw net.now self.old (end_of net.now.shape link forward) seen.old most }
        ensures draws { let zone = end_of net.now.shape link forward in
            Draws net.now self.old self.new steps.now zone seen.old seen.new most result }
        ensures entered { let zone = end_of net.now.shape link forward in
            IsUnbound steps.now → result ≡ 0 → IsEntered net.now self.old true seen.new zone link }
    {
        let start = start_of(net, link, forward);
        let room = self.room(net, link, forward);
        if room == 0 || has_zone(*seen, start) {
            return 0;
        }
        if !leads_away(steps, start, end_of(net, link, forward)) {
            return 0;
        }
        *seen = with_zone(*seen, start);
        let drawn = self.draw(net, start, most.min(room), steps, seen);
        if drawn > 0 {
            self.carry(link, forward, drawn);
        }
        drawn
    }
}
