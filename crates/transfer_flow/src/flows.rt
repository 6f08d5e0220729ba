ghost use Rattle.std.specs.Prelude.{◌≡◌, ◌+◌, ◌-◌, ◌*◌, ◌<◌, ◌≤◌, IfOk, slice_set, min};
ghost use Rattle.ra_base.specs.declared.limits.TheConstants.{MOST_LINK_MW};
ghost use Rattle.zone_network.specs.Network.{ShapeParts, NetworkParts, link_count};
ghost use Rattle.transfer_flow.specs.Flow.{FlowParts, IsFlow, IsWithinLimits, no_flow, flow_at, spare_at};
ghost use Rattle.transfer_flow.specs.Reach.{room};
ghost use Rattle.transfer_flow.specs.Draw.{Carries, IsMovable};

use crate::signed::{carrying, room_below};
use ra_base::OutOfMemory;
use std::alloc::Global;
use std::marker::Model;
use zone_network::{Network, Shape};

/// A signed flow in MW for each link, forward being positive, and for each zone an amount in MW that it
/// still has to give. `spare` and `flow` say to their callers that each link and zone has one.
///
/// No call but `new` takes memory. Places count from 0.
#[derive(Drop)]
pub struct Flow {
    shape: Shape,
    flows: Vec<i32>,
    spares: Vec<u32>,
}

impl Model for Flow {
    ghost Value = { FlowParts };

    ghost view = { λ f. record { shape = f.shape; flows = f.flows.items; spares = f.spares.items } };

    ghost invariant = { λ f. IsFlow (record {
      shape = f.shape;
      flows = f.flows.items;
      spares = f.spares.items;
    }) };
}

impl Flow {
    /// No flow over the links of this shape, and nothing to give in its zones.
    pub fn new(alloc: Global, shape: &Shape) -> Result<Flow, OutOfMemory>
        ensures { IfOk result (λ flow. flow ≡ no_flow shape.now) }
    {
        Ok(Flow {
            shape: shape.copy(alloc)?,
            flows: vec![in alloc; 0; shape.links() as usize]?,
            spares: vec![in alloc; 0; shape.zones() as usize]?,
        })
    }

    /// Takes back every flow and every spare amount.
    pub fn clear(&mut self)
        ensures { self.new ≡ no_flow self.old.shape }
    {
        self.flows.fill(0);
        self.spares.fill(0);
    }

    /// Sets what a zone has to give, in MW.
    #[inline]
    pub fn set_spare(&mut self, zone: u8, mw: u32)
        requires { zone < self.old.shape.zones }
        ensures { self.new ≡ record self.old { spares = slice_set self.old.spares zone mw } }
    {
        self.spares[zone as usize] = mw;
    }

    /// What a zone still has to give, in MW.
    #[inline]
    pub fn spare(&self, zone: u8) -> u32
        requires { zone < self.now.shape.zones }
        ensures value { result ≡ spare_at self.now zone }
        ensures valid { IsFlow self.now }
    {
        self.spares[zone as usize]
    }

    /// The flow of a link in MW, forward being positive.
    #[inline]
    pub fn flow(&self, link: u32) -> i32
        requires { link < link_count self.now.shape }
        ensures value { result ≡ flow_at self.now link }
        ensures valid { IsFlow self.now }
    {
        self.flows[link as usize]
    }

    /// How much more a link can carry one way.
    #[inline]
    pub(crate) fn room(&self, net: &Network, link: u32, forward: bool) -> u32
        requires shape { self.now.shape ≡ net.now.shape }
        requires limits { IsWithinLimits net.now self.now }
        requires link { link < link_count net.now.shape }
        ensures value { result ≡ room net.now self.now link forward }
        ensures most { result ≤ 2 * MOST_LINK_MW }
    {
        let limit = if forward {
            net.forward(link)
        } else {
            net.backward(link)
        };
        room_below(self.flow(link), limit, forward)
    }

    /// Lets a link carry more one way.
    #[inline]
    pub(crate) fn carry(&mut self, link: u32, forward: bool, by: u32)
        requires { IsMovable self.old link forward by }
        ensures { Carries self.old self.new link forward by }
    {
        self.flows[link as usize] = carrying(self.flows[link as usize], by, forward);
    }

    /// Takes from what a zone has to give, as much as is asked or is there.
    #[inline]
    pub(crate) fn take_spare(&mut self, zone: u8, most: u32) -> u32
        requires { zone < self.old.shape.zones }
        ensures valid { IsFlow self.old }
        ensures given { result ≡ min (spare_at self.old zone) most }
        ensures after { let left = spare_at self.old zone - result in
            self.new ≡ record self.old { spares = slice_set self.old.spares zone left } }
    {
        let spare = self.spare(zone);
        let given = spare.min(most);
        self.set_spare(zone, spare - given);
        given
    }
}
