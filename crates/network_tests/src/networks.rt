//! Small networks, as lists.
ghost use Rattle.std.specs.Prelude.{◌≡◌, ◌<◌, All, IfOk, length, vec_len};
ghost use Rattle.zone_network.specs.Network.{IsLinkAmong};

use ra_base::OutOfMemory;
use ra_base::limits::MOST_LINK_MW;
use std::alloc::Global;
use std::process::Abort;
use zone_network::{Link, Network, Shape};

/// A link: its zones, and its limits forward and backward.
pub(crate) type LinkRow = (u8, u8, u32, u32);

/// A storage: its zone, and its caps of discharge and of charge.
pub(crate) type DeviceRow = (u8, u32, u32);

#[derive(Clone, Copy)]
pub(crate) struct Grid<'a> {
    pub(crate) supply: &'a [u32],
    pub(crate) load: &'a [u32],
    pub(crate) links: &'a [LinkRow],
    pub(crate) devices: &'a [DeviceRow],
}

pub(crate) fn links_of(
    rt: &impl Abort,
    alloc: Global,
    zones: u8,
    rows: &[LinkRow],
) -> Result<Vec<Link>, OutOfMemory>
    ensures among { IfOk result (λ links. All (IsLinkAmong zones) links.items) }
    ensures count { IfOk result (λ links. vec_len links ≡ length rows.now) }
{
    let mut links = Vec::new(alloc);
    for (from, to, _, _) in rows {
        let link = Link {
            from: *from,
            to: *to,
        };
        assert!(rt; link.from < zones);
        assert!(rt; link.to < zones);
        assert!(rt; link.from != link.to);
        links.push(link)?;
    }
    Ok(links)
}

fn devices_of(
    rt: &impl Abort,
    alloc: Global,
    zones: u8,
    rows: &[DeviceRow],
) -> Result<Vec<u8>, OutOfMemory>
    ensures among { IfOk result (λ devices. All (λ zone. zone < zones) devices.items) }
    ensures count { IfOk result (λ devices. vec_len devices ≡ length rows.now) }
{
    let mut devices = Vec::new(alloc);
    for (zone, _, _) in rows {
        assert!(rt; *zone < zones);
        devices.push(*zone)?;
    }
    Ok(devices)
}

pub(crate) fn shape_of(rt: &impl Abort, alloc: Global, grid: &Grid) -> Result<Shape, OutOfMemory> {
    let zones = grid.supply.len();
    assert!(rt; zones > 0);
    assert!(rt; zones <= 32);
    assert!(rt; grid.links.len() <= 128);
    assert!(rt; grid.devices.len() <= 128);
    let links = links_of(rt, alloc, zones as u8, grid.links)?;
    let devices = devices_of(rt, alloc, zones as u8, grid.devices)?;
    Shape::new(alloc, zones as u8, &links, &devices)
}

pub(crate) fn set_links(rt: &impl Abort, net: &mut Network, rows: &[LinkRow])
    ensures { net.new.shape ≡ net.old.shape }
{
    assert_eq!(rt; rows.len(), net.links() as usize);
    for link in 0..net.links() {
        let (_, _, forward, backward) = rows[link as usize];
        assert!(rt; forward <= MOST_LINK_MW);
        assert!(rt; backward <= MOST_LINK_MW);
        net.set_link(link, forward, backward);
    }
}

// Sets the network's amounts.
fn fill(rt: &impl Abort, net: &mut Network, grid: &Grid)
    ensures { net.new.shape ≡ net.old.shape }
{
    assert_eq!(rt; grid.supply.len(), net.zones() as usize);
    assert_eq!(rt; grid.load.len(), net.zones() as usize);
    assert_eq!(rt; grid.devices.len(), net.devices() as usize);
    for zone in 0..net.zones() {
        let at = zone as usize;
        assert!(rt; grid.supply[at] <= MOST_LINK_MW);
        assert!(rt; grid.load[at] <= MOST_LINK_MW);
        net.set_supply(zone, grid.supply[at]);
        net.set_load(zone, grid.load[at]);
    }
    set_links(rt, net, grid.links);
    for device in 0..net.devices() {
        let (_, discharge, charge) = grid.devices[device as usize];
        assert!(rt; discharge <= MOST_LINK_MW);
        assert!(rt; charge <= MOST_LINK_MW);
        net.set_caps(device, discharge, charge);
    }
}

pub(crate) fn network_of(
    rt: &impl Abort,
    alloc: Global,
    shape: &Shape,
    grid: &Grid,
) -> Result<Network, OutOfMemory>
    ensures { IfOk result (λ net. net.shape ≡ shape.now) }
{
    let mut net = Network::new(alloc, shape)?;
    fill(rt, &mut net, grid);
    Ok(net)
}
