ghost use Rattle.std.specs.Prelude.{◌≡◌, ◌<◌, IfOk};
ghost use Rattle.transfer_flow.specs.Flow.{IsWithinLimits};

use crate::networks::{LinkRow, links_of, set_links};
use ra_base::OutOfMemory;
use std::alloc::Global;
use std::process::Abort;
use std::test::Fail;
use transfer_flow::Flow;
use zone_network::{Network, Shape};

// What zones have to spare, links with their zones and limits, forward and backward, and what pulls to
// zones ask for and move, one after another; then what flows, what is left, and who reaches whom.
#[derive(Drop)]
struct Case<'a> {
    spares: &'a [u32],
    links: &'a [LinkRow],
    pulls: &'a [(u8, u32, u32)],
    flows: &'a [i32],
    left: &'a [u32],
    reach_to: &'a [(u8, u32)],
    reach_from: &'a [(u32, u32)],
}

fn shape_of(rt: &impl Abort, alloc: Global, case: &Case) -> Result<Shape, OutOfMemory> {
    let zones = case.spares.len();
    assert!(rt; zones > 0);
    assert!(rt; zones <= 32);
    assert!(rt; case.links.len() <= 128);
    let links = links_of(rt, alloc, zones as u8, case.links)?;
    Shape::new(alloc, zones as u8, &links, &[])
}

fn network_of(
    rt: &impl Abort,
    alloc: Global,
    shape: &Shape,
    case: &Case,
) -> Result<Network, OutOfMemory>
    ensures { IfOk result (λ net. net.shape ≡ shape.now) }
{
    let mut net = Network::new(alloc, shape)?;
    set_links(rt, &mut net, case.links);
    Ok(net)
}

fn spare_all(rt: &impl Abort, flow: &mut Flow, net: &Network, case: &Case)
    requires shape { flow.old.shape ≡ net.now.shape }
    requires limits { IsWithinLimits net.now flow.old }
    ensures shape { flow.new.shape ≡ net.now.shape }
    ensures limits { IsWithinLimits net.now flow.new }
{
    assert_eq!(rt; case.spares.len(), net.zones() as usize);
    for zone in 0..net.zones() {
        flow.set_spare(zone, case.spares[zone as usize]);
    }
}

fn pull_all(rt: &impl Abort, flow: &mut Flow, net: &Network, case: &Case)
    requires shape { flow.old.shape ≡ net.now.shape }
    requires limits { IsWithinLimits net.now flow.old }
    ensures shape { flow.new.shape ≡ net.now.shape }
    ensures limits { IsWithinLimits net.now flow.new }
{
    for (goal, most, moved) in case.pulls {
        assert!(rt; *goal < net.zones());
        assert_eq!(rt; flow.pull(net, *goal, *most), *moved);
    }
}

fn assert_left(rt: &impl Abort, flow: &Flow, net: &Network, case: &Case)
    requires { flow.now.shape ≡ net.now.shape }
{
    assert_eq!(rt; case.flows.len(), net.links() as usize);
    for link in 0..net.links() {
        assert_eq!(rt; flow.flow(link), case.flows[link as usize]);
    }
    assert_eq!(rt; case.left.len(), net.zones() as usize);
    for zone in 0..net.zones() {
        assert_eq!(rt; flow.spare(zone), case.left[zone as usize]);
    }
}

fn assert_reached(rt: &impl Abort, flow: &Flow, net: &Network, case: &Case)
    requires shape { flow.now.shape ≡ net.now.shape }
    requires limits { IsWithinLimits net.now flow.now }
{
    let zones = net.zones();
    assert!(rt; zones < 32);
    for (goal, mask) in case.reach_to {
        assert!(rt; *goal < zones);
        assert_eq!(rt; flow.reach_to(net, *goal), *mask);
    }
    for (from, mask) in case.reach_from {
        assert!(rt; *from < 1 << zones);
        assert_eq!(rt; flow.reach_from(net, *from), *mask);
    }
}

fn assert_case(rt: &impl Abort, alloc: Global, case: &Case) -> Result<(), OutOfMemory> {
    let shape = shape_of(rt, alloc, case)?;
    let net = network_of(rt, alloc, &shape, case)?;
    let mut flow = Flow::new(alloc, &shape)?;
    flow.set_spare(0, 1);
    flow.clear();
    spare_all(rt, &mut flow, &net, case);
    pull_all(rt, &mut flow, &net, case);
    assert_left(rt, &flow, &net, case);
    assert_reached(rt, &flow, &net, case);
    Ok(())
}

#[test]
fn pulls_end_at_full_links_and_empty_zones(rt: HostRuntime) -> Result<(), Fail> {
    let cases = [
        // 70 MW in the first zone, which asks for 40; the second asks for 50 behind a link of 30 MW.
        Case {
            spares: &[70, 0],
            links: &[(0, 1, 30, 0)],
            pulls: &[(0, 40, 40), (1, 50, 30)],
            flows: &[30],
            left: &[0, 0],
            reach_to: &[(1, 0b10), (0, 0b11)],
            reach_from: &[(0b01, 0b01), (0b10, 0b11)],
        },
        // The same with 100 MW, and 4 MW in the second, which it takes first.
        Case {
            spares: &[100, 4],
            links: &[(0, 1, 30, 0)],
            pulls: &[(0, 40, 40), (1, 54, 34), (0, 60, 30), (1, 1, 0)],
            flows: &[30],
            left: &[0, 0],
            reach_to: &[(1, 0b10)],
            reach_from: &[(0b01, 0b01)],
        },
        // 10 MW in the middle of three zones, and 10 MW asked at either end: the first took them.
        Case {
            spares: &[0, 10, 0],
            links: &[(0, 1, 10, 10), (1, 2, 10, 10)],
            pulls: &[(0, 10, 10), (2, 10, 0)],
            flows: &[-10, 0],
            left: &[0, 0, 0],
            reach_to: &[(2, 0b111)],
            reach_from: &[(0b010, 0b110), (0b001, 0b111)],
        },
        // What flows from the first zone to the second goes back when the second has its own.
        Case {
            spares: &[20, 5],
            links: &[(0, 1, 10, 0)],
            pulls: &[(1, 12, 12), (0, 13, 13)],
            flows: &[7],
            left: &[0, 0],
            reach_to: &[(0, 0b11), (1, 0b11)],
            reach_from: &[(0b01, 0b11)],
        },
    ];
    for case in &cases {
        assert_case(&rt, rt.alloc(), case)?;
    }
    Ok(())
}
