ghost use Rattle.std.specs.Prelude.{◌≡◌, IfOk};
ghost use Rattle.zone_network.specs.Network.{link_count, device_count};

use ra_base::OutOfMemory;
use std::alloc::Global;
use zone_network::{Link, Network, Shape};

// Three zones in a row, with a device in the first and one in the last.
fn row_of_zones(alloc: Global) -> Result<Shape, OutOfMemory>
    ensures zones { IfOk result (λ s. s.zones ≡ 3) }
    ensures links { IfOk result (λ s. link_count s ≡ 2) }
    ensures devices { IfOk result (λ s. device_count s ≡ 2) }
{
    let links = [Link { from: 0, to: 1 }, Link { from: 1, to: 2 }];
    Shape::new(alloc, 3, &links, &[0, 2])
}

// The same with all amounts 0.
fn network_of_zones(alloc: Global) -> Result<Network, OutOfMemory>
    ensures zones { IfOk result (λ n. n.shape.zones ≡ 3) }
    ensures links { IfOk result (λ n. link_count n.shape ≡ 2) }
    ensures devices { IfOk result (λ n. device_count n.shape ≡ 2) }
{
    let shape = row_of_zones(alloc)?;
    Network::new(alloc, &shape)
}

#[test]
fn a_shape_gives_its_parts(rt: HostRuntime) {
    let shape = row_of_zones(rt.alloc()).expect(&rt, "memory");
    assert_eq!(rt; (shape.zones(), shape.links(), shape.devices()), (3, 2, 2));
    assert_eq!(rt; shape.link(1), Link { from: 1, to: 2 });
    assert_eq!(rt; shape.device_zone(1), 2);
    assert_eq!(rt; shape.links_of(0), [0].as_slice());
    assert_eq!(rt; shape.links_of(1), [0, 1].as_slice());
    let again = shape.copy(rt.alloc()).expect(&rt, "memory");
    assert_eq!(rt; again.links_of(2), [1].as_slice());
}

#[test]
fn a_network_has_its_shape(rt: HostRuntime) {
    let net = network_of_zones(rt.alloc()).expect(&rt, "memory");
    assert_eq!(rt; (net.zones(), net.links(), net.devices()), (3, 2, 2));
    assert_eq!(rt; net.link(0), Link { from: 0, to: 1 });
    assert_eq!(rt; net.links_of(1), [0, 1].as_slice());
    assert_eq!(rt; net.device_zone(1), 2);
}

#[test]
fn zones_give_what_was_set_last_or_zero(rt: HostRuntime) {
    let mut net = network_of_zones(rt.alloc()).expect(&rt, "memory");
    net.set_supply(1, 7);
    net.set_supply(1, 10);
    net.set_load(2, 11);
    assert_eq!(rt; (net.supply(0), net.supply(1), net.supply(2)), (0, 10, 0));
    assert_eq!(rt; (net.load(0), net.load(1), net.load(2)), (0, 0, 11));
}

#[test]
fn links_give_what_was_set_last_or_zero(rt: HostRuntime) {
    let mut net = network_of_zones(rt.alloc()).expect(&rt, "memory");
    net.set_link(0, 12, 13);
    assert_eq!(rt; (net.forward(0), net.backward(0)), (12, 13));
    assert_eq!(rt; (net.forward(1), net.backward(1)), (0, 0));
}

#[test]
fn devices_give_what_was_set_last_or_zero(rt: HostRuntime) {
    let mut net = network_of_zones(rt.alloc()).expect(&rt, "memory");
    net.set_caps(1, 14, 15);
    assert_eq!(rt; (net.discharge_cap(0), net.charge_cap(0)), (0, 0));
    assert_eq!(rt; (net.discharge_cap(1), net.charge_cap(1)), (14, 15));
}
