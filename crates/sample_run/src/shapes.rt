ghost use Rattle.std.specs.Prelude.{◌≡◌, IfOk, map};
ghost use Rattle.system_model.specs.declared.components.Storage.{Storage};
ghost use Rattle.sample_run.specs.HourNetwork.{shape_of as shape_is, link_of};

use ra_base::OutOfMemory;
use std::alloc::Global;
use system_model::System;
use zone_network::{Link, Shape};

/// The shape of a system's networks: its zones, a link for each interface, a device for each storage.
pub(crate) fn shape_of(alloc: Global, system: &System) -> Result<Shape, OutOfMemory>
    ensures { IfOk result (λ shape. shape ≡ shape_is system.now) }
{
    let links = links_of(alloc, system)?;
    let devices = devices_of(alloc, system)?;
    Shape::new(alloc, system.zones(), &links, &devices)
}

/// The link of each interface.
fn links_of(alloc: Global, system: &System) -> Result<Vec<Link>, OutOfMemory>
    ensures { IfOk result (λ links. links.items ≡ map link_of system.now.interfaces) }
{
    let mut links = Vec::with_capacity(alloc, system.interfaces() as usize)?;
    for at in 0..system.interfaces() {
        let interface = system.interface(at);
        links.push(Link {
            from: interface.from,
            to: interface.to,
        })?;
    }
    Ok(links)
}

/// The zone of each storage.
fn devices_of(alloc: Global, system: &System) -> Result<Vec<u8>, OutOfMemory>
    ensures { IfOk result (λ zones. zones.items ≡
        map (λ (storage : Storage). storage.zone) system.now.storages) }
{
    let mut zones = Vec::with_capacity(alloc, system.storages() as usize)?;
    for at in 0..system.storages() {
        zones.push(system.storage(at).zone)?;
    }
    Ok(zones)
}
