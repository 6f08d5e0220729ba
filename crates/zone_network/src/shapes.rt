ghost use Rattle.std.specs.Prelude.{◌≡◌, ◌<◌, ◌≤◌, length, All, IfOk, map};
ghost use Rattle.ra_base.specs.declared.limits.TheConstants.{MOST_INTERFACES};
ghost use Rattle.std.specs.List.{range_with_len};
ghost use Rattle.zone_network.specs.Network.{ShapeParts, IsLinkAmong, IsShape, link_count, device_count, link_at, links_of, touching, zone_of_device};

use crate::links::{Link, LinkList};
use ra_base::OutOfMemory;
use std::alloc::Global;
use std::marker::Model;

/// What stays the same over all hours: the zones, the links between them and the zone of each device.
///
/// Every reader says to its callers that there are 1 to 32 zones, at most 128 links and 128 devices,
/// and that the numbers of zones are in range. No reader takes memory. Places count from 0.
#[derive(Drop)]
pub struct Shape {
    zones: u8,
    links: Vec<Link>,
    devices: Vec<u8>,
    // By zone, so that a search from a zone looks at no other links.
    zone_links: Vec<LinkList>,
}

impl Model for Shape {
    ghost Value = { ShapeParts };

    ghost view = { λ s. record { zones = s.zones; ends = s.links.items; device_zones = s.devices.items } };

    ghost invariant = { λ s. IsShape (record {
      zones = s.zones;
      ends = s.links.items;
      device_zones = s.devices.items;
    })
        × (s.zone_links.items ≡ map (touching s.links.items) (range_with_len 0 s.zones)) };
}

impl Shape {
    /// The shape with so many zones, these links, and a device in each of these zones.
    pub fn new(
        alloc: Global,
        zones: u8,
        links: &[Link],
        devices: &[u8],
    ) -> Result<Shape, OutOfMemory>
        requires shape { IsShape (record { zones = zones; ends = links.now; device_zones = devices.now }) }
        ensures { IfOk result (λ shape.
            shape ≡ record { zones = zones; ends = links.now; device_zones = devices.now }) }
    {
        Ok(Shape {
            zones,
            links: Vec::from_slice(alloc, links)?,
            devices: Vec::from_slice(alloc, devices)?,
            zone_links: by_zone(alloc, zones, links)?,
        })
    }

    /// The same shape once more, in memory of its own.
    pub fn copy(&self, alloc: Global) -> Result<Shape, OutOfMemory>
        ensures { IfOk result (λ shape. shape ≡ self.now) }
    {
        Shape::new(alloc, self.zones, &self.links, &self.devices)
    }

    /// How many zones there are: 1 to 32.
    #[inline]
    pub fn zones(&self) -> u8
        ensures count { result ≡ self.now.zones }
        ensures valid { IsShape self.now }
    {
        self.zones
    }

    /// How many links there are: at most 128.
    #[inline]
    pub fn links(&self) -> u32
        ensures count { result ≡ link_count self.now }
        ensures valid { IsShape self.now }
    {
        self.links.len() as u32
    }

    /// How many devices there are: at most 128.
    #[inline]
    pub fn devices(&self) -> u32
        ensures count { result ≡ device_count self.now }
        ensures valid { IsShape self.now }
    {
        self.devices.len() as u32
    }

    /// The ends of a link.
    #[inline]
    pub fn link(&self, link: u32) -> Link
        requires { link < link_count self.now }
        ensures value { result ≡ link_at self.now link }
        ensures among { IsLinkAmong self.now.zones result }
        ensures valid { IsShape self.now }
    {
        self.links[link as usize]
    }

    /// The links that start or end in a zone, ascending.
    #[inline]
    pub fn links_of(&self, zone: u8) -> &[u32]
        requires { zone < self.now.zones }
        ensures value { result.now ≡ links_of self.now zone }
        ensures valid { IsShape self.now }
    {
        self.zone_links[zone as usize].links()
    }

    /// The zone of a device.
    #[inline]
    pub fn device_zone(&self, device: u32) -> u8
        requires { device < device_count self.now }
        ensures value { result ≡ zone_of_device self.now device }
        ensures among { result < self.now.zones }
        ensures valid { IsShape self.now }
    {
        self.devices[device as usize]
    }
}

/// For each zone the links that start or end there.
fn by_zone(alloc: Global, zones: u8, links: &[Link]) -> Result<Vec<LinkList>, OutOfMemory>
    requires { length links.now ≤ MOST_INTERFACES }
    ensures { IfOk result (λ lists. lists.items ≡ map (touching links.now) (range_with_len 0 zones)) }
{
    let mut lists = Vec::new(alloc);
    for zone in 0..zones {
        lists.push(LinkList::of(alloc, links, zone)?)?;
    }
    Ok(lists)
}
