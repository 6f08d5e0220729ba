ghost use Rattle.std.specs.Prelude.{◌≡◌, ◌<◌, ◌≤◌, length, IfOk, slice_set};
ghost use Rattle.ra_base.specs.declared.limits.TheConstants.{MOST_LINK_MW};
ghost use Rattle.zone_network.specs.Network.{ShapeParts, NetworkParts, IsLinkAmong, IsNetwork, empty_network, link_count, device_count, link_at, links_of, zone_of_device, supply_at, load_at, forward_at, backward_at, discharge_cap_at, charge_cap_at};

use crate::links::Link;
use crate::shapes::Shape;
use ra_base::{Amounts, OutOfMemory};
use std::alloc::Global;
use std::marker::Model;

/// The network of one hour: what zones supply and ask, what links carry each way, and the caps of
/// devices, in MW. Each amount is the one that was set last, or 0.
///
/// Every reader says to its callers that the network is whole: each zone, link and device has its
/// amounts, at most 1,000,000 MW each. No call but `new` takes memory. Places count from 0.
#[derive(Drop)]
pub struct Network {
    shape: Shape,
    supply: Amounts,
    load: Amounts,
    forward: Amounts,
    backward: Amounts,
    discharge: Amounts,
    charge: Amounts,
}

impl Model for Network {
    ghost Value = { NetworkParts };

    ghost view = { λ n. record {
      shape = n.shape;
      supplies = n.supply;
      loads = n.load;
      forwards = n.forward;
      backwards = n.backward;
      discharge_caps = n.discharge;
      charge_caps = n.charge;
    } };

    ghost invariant = { λ n. IsNetwork (record {
      shape = n.shape;
      supplies = n.supply;
      loads = n.load;
      forwards = n.forward;
      backwards = n.backward;
      discharge_caps = n.discharge;
      charge_caps = n.charge;
    }) };
}

impl Network {
    /// A network of this shape whose amounts are all 0.
    pub fn new(alloc: Global, shape: &Shape) -> Result<Network, OutOfMemory>
        ensures { IfOk result (λ network. network ≡ empty_network shape.now) }
    {
        let zones = shape.zones() as usize;
        let links = shape.links() as usize;
        let devices = shape.devices() as usize;
        Ok(Network {
            shape: shape.copy(alloc)?,
            supply: Amounts::zeros(alloc, zones)?,
            load: Amounts::zeros(alloc, zones)?,
            forward: Amounts::zeros(alloc, links)?,
            backward: Amounts::zeros(alloc, links)?,
            discharge: Amounts::zeros(alloc, devices)?,
            charge: Amounts::zeros(alloc, devices)?,
        })
    }

    /// Sets the supply of a zone, in MW.
    #[inline]
    pub fn set_supply(&mut self, zone: u8, mw: u32)
        requires zone { zone < self.old.shape.zones }
        requires mw { mw ≤ MOST_LINK_MW }
        ensures { self.new ≡ record self.old { supplies = slice_set self.old.supplies zone mw } }
    {
        self.supply.set(zone as usize, mw);
    }

    /// Sets the load of a zone, in MW.
    #[inline]
    pub fn set_load(&mut self, zone: u8, mw: u32)
        requires zone { zone < self.old.shape.zones }
        requires mw { mw ≤ MOST_LINK_MW }
        ensures { self.new ≡ record self.old { loads = slice_set self.old.loads zone mw } }
    {
        self.load.set(zone as usize, mw);
    }

    /// Sets the limits of a link, in MW: from its first zone to its second, and the other way.
    #[inline]
    pub fn set_link(&mut self, link: u32, forward: u32, backward: u32)
        requires link { link < link_count self.old.shape }
        requires forward { forward ≤ MOST_LINK_MW }
        requires backward { backward ≤ MOST_LINK_MW }
        ensures { self.new ≡ record self.old {
          forwards = slice_set self.old.forwards link forward;
          backwards = slice_set self.old.backwards link backward;
        } }
    {
        self.forward.set(link as usize, forward);
        self.backward.set(link as usize, backward);
    }

    /// Sets the caps of a device, in MW.
    #[inline]
    pub fn set_caps(&mut self, device: u32, discharge: u32, charge: u32)
        requires device { device < device_count self.old.shape }
        requires discharge { discharge ≤ MOST_LINK_MW }
        requires charge { charge ≤ MOST_LINK_MW }
        ensures { self.new ≡ record self.old {
          discharge_caps = slice_set self.old.discharge_caps device discharge;
          charge_caps = slice_set self.old.charge_caps device charge;
        } }
    {
        self.discharge.set(device as usize, discharge);
        self.charge.set(device as usize, charge);
    }

    /// How many zones there are: 1 to 32.
    #[inline]
    pub fn zones(&self) -> u8
        ensures count { result ≡ self.now.shape.zones }
        ensures valid { IsNetwork self.now }
    {
        self.shape.zones()
    }

    /// How many links there are: at most 128.
    #[inline]
    pub fn links(&self) -> u32
        ensures count { result ≡ link_count self.now.shape }
        ensures valid { IsNetwork self.now }
    {
        self.shape.links()
    }

    /// How many devices there are: at most 128.
    #[inline]
    pub fn devices(&self) -> u32
        ensures count { result ≡ device_count self.now.shape }
        ensures valid { IsNetwork self.now }
    {
        self.shape.devices()
    }

    /// The ends of a link.
    #[inline]
    pub fn link(&self, link: u32) -> Link
        requires { link < link_count self.now.shape }
        ensures value { result ≡ link_at self.now.shape link }
        ensures among { IsLinkAmong self.now.shape.zones result }
        ensures valid { IsNetwork self.now }
    {
        self.shape.link(link)
    }

    /// The links that start or end in a zone, ascending.
    #[inline]
    pub fn links_of(&self, zone: u8) -> &[u32]
        requires { zone < self.now.shape.zones }
        ensures value { result.now ≡ links_of self.now.shape zone }
        ensures valid { IsNetwork self.now }
    {
        self.shape.links_of(zone)
    }

    /// The zone of a device.
    #[inline]
    pub fn device_zone(&self, device: u32) -> u8
        requires { device < device_count self.now.shape }
        ensures value { result ≡ zone_of_device self.now.shape device }
        ensures among { result < self.now.shape.zones }
        ensures valid { IsNetwork self.now }
    {
        self.shape.device_zone(device)
    }

    /// The supply of a zone, in MW: at most 1,000,000.
    #[inline]
    pub fn supply(&self, zone: u8) -> u32
        requires { zone < self.now.shape.zones }
        ensures value { result ≡ supply_at self.now zone }
        ensures most { result ≤ MOST_LINK_MW }
        ensures valid { IsNetwork self.now }
    {
        self.supply.get(zone as usize)
    }

    /// The load of a zone, in MW: at most 1,000,000.
    #[inline]
    pub fn load(&self, zone: u8) -> u32
        requires { zone < self.now.shape.zones }
        ensures value { result ≡ load_at self.now zone }
        ensures most { result ≤ MOST_LINK_MW }
        ensures valid { IsNetwork self.now }
    {
        self.load.get(zone as usize)
    }

    /// The limit of a link from its first zone to its second, in MW: at most 1,000,000.
    #[inline]
    pub fn forward(&self, link: u32) -> u32
        requires { link < link_count self.now.shape }
        ensures value { result ≡ forward_at self.now link }
        ensures most { result ≤ MOST_LINK_MW }
        ensures valid { IsNetwork self.now }
    {
        self.forward.get(link as usize)
    }

    /// The limit of a link from its second zone to its first, in MW: at most 1,000,000.
    #[inline]
    pub fn backward(&self, link: u32) -> u32
        requires { link < link_count self.now.shape }
        ensures value { result ≡ backward_at self.now link }
        ensures most { result ≤ MOST_LINK_MW }
        ensures valid { IsNetwork self.now }
    {
        self.backward.get(link as usize)
    }

    /// What a device may discharge, in MW: at most 1,000,000.
    #[inline]
    pub fn discharge_cap(&self, device: u32) -> u32
        requires { device < device_count self.now.shape }
        ensures value { result ≡ discharge_cap_at self.now device }
        ensures most { result ≤ MOST_LINK_MW }
        ensures valid { IsNetwork self.now }
    {
        self.discharge.get(device as usize)
    }

    /// What a device may charge, in MW: at most 1,000,000.
    #[inline]
    pub fn charge_cap(&self, device: u32) -> u32
        requires { device < device_count self.now.shape }
        ensures value { result ≡ charge_cap_at self.now device }
        ensures most { result ≤ MOST_LINK_MW }
        ensures valid { IsNetwork self.now }
    {
        self.charge.get(device as usize)
    }
}
