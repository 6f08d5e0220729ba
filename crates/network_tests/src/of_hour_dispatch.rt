ghost use Rattle.std.specs.Prelude.{◌≡◌, ◌<◌, ◌^◌, IfOk};
ghost use Rattle.cut_certificate.specs.Chain.{Fit};

use crate::networks::{Grid, network_of, shape_of};
use cut_certificate::{Chain, check_chain, check_cut};
use hour_dispatch::Dispatcher;
use ra_base::limits::MOST_LINK_MW;
use ra_base::{Amounts, OutOfMemory};
use sample_totals::HourOutcome;
use std::alloc::Global;
use std::process::Abort;
use std::test::Fail;
use zone_network::{Network, Shape};

// A network and the best that it can do.
#[derive(Drop)]
struct Case<'a> {
    grid: Grid<'a>,
    unserved: &'a [u32],
    discharge: &'a [u32],
    charge: &'a [u32],
    cut: u32,
}

// The list is the amounts.
fn assert_list(rt: &impl Abort, amounts: &Amounts, values: &[u32]) {
    assert_eq!(rt; amounts.len(), values.len());
    for at in 0..values.len() {
        assert_eq!(rt; amounts.get(at), values[at]);
    }
}

// The best dispatch, with its chain.
fn dispatched(
    alloc: Global,
    shape: &Shape,
    net: &Network,
) -> Result<(HourOutcome, Chain), OutOfMemory>
    requires { net.now.shape ≡ shape.now }
    ensures fit { IfOk result (λ best. Fit net.now best.0 best.1) }
    ensures cut { IfOk result (λ best. best.0.cut < 2 ^ net.now.shape.zones) }
{
    let mut outcome = HourOutcome::new(alloc, shape.zones(), shape.devices())?;
    let mut chain = Chain::new(alloc, shape)?;
    let mut dispatcher = Dispatcher::new(alloc, shape)?;
    dispatcher.best(net, &mut outcome, &mut chain);
    Ok((outcome, chain))
}

// The sum of a list whose numbers are small.
fn total(rt: &impl Abort, values: &[u32]) -> u32 {
    let mut sum: u32 = 0;
    for value in values {
        assert!(rt; sum <= MOST_LINK_MW);
        assert!(rt; *value <= MOST_LINK_MW);
        sum += *value;
    }
    sum
}

fn assert_outcome(rt: &impl Abort, net: &Network, outcome: &HourOutcome, chain: &Chain, case: &Case)
    requires fit { Fit net.now outcome.now chain.now }
    requires cut { outcome.now.cut < 2 ^ net.now.shape.zones }
{
    assert_list(rt, &outcome.unserved, case.unserved);
    assert_list(rt, &outcome.discharge, case.discharge);
    assert_list(rt, &outcome.charge, case.charge);
    assert_eq!(rt; outcome.cut, case.cut);
    assert!(rt; check_chain(net, outcome, chain));
    assert!(rt; outcome.cut == 0 || check_cut(net, outcome.cut, total(rt, case.unserved)));
}

fn assert_best(rt: &impl Abort, alloc: Global, case: &Case) -> Result<(), OutOfMemory> {
    let shape = shape_of(rt, alloc, &case.grid)?;
    let net = network_of(rt, alloc, &shape, &case.grid)?;
    let (outcome, chain) = dispatched(alloc, &shape, &net)?;
    assert_outcome(rt, &net, &outcome, &chain, case);
    Ok(())
}

// Expected lists and cuts are worked out by a program of its own, which tries values in the order of
// comparison and asks of every set of zones whether they can be had.
#[test]
fn the_best_of_small_networks(rt: HostRuntime) -> Result<(), Fail> {
    let cases = [
        // Two zones, the second behind a full link.
        Case {
            grid: Grid {
                supply: &[70, 0],
                load: &[40, 50],
                links: &[(0, 1, 30, 0)],
                devices: &[],
            },
            unserved: &[0, 20],
            discharge: &[],
            charge: &[],
            cut: 0b11,
        },
        // The same with supply to spare in the first.
        Case {
            grid: Grid {
                supply: &[100, 0],
                load: &[40, 50],
                links: &[(0, 1, 30, 0)],
                devices: &[],
            },
            unserved: &[0, 20],
            discharge: &[],
            charge: &[],
            cut: 0b10,
        },
        // A row of three, supply in the middle: the first zone is served.
        Case {
            grid: Grid {
                supply: &[0, 10, 0],
                load: &[10, 0, 10],
                links: &[(0, 1, 10, 10), (1, 2, 10, 10)],
                devices: &[],
            },
            unserved: &[0, 0, 10],
            discharge: &[],
            charge: &[],
            cut: 0b111,
        },
        // Two storages, charging from unused supply: the first charges all it can.
        Case {
            grid: Grid {
                supply: &[100],
                load: &[50],
                links: &[],
                devices: &[(0, 0, 30), (0, 0, 30)],
            },
            unserved: &[0],
            discharge: &[0, 0],
            charge: &[30, 20],
            cut: 0b0,
        },
        // Two storages, discharging: the last is spared.
        Case {
            grid: Grid {
                supply: &[100],
                load: &[120],
                links: &[],
                devices: &[(0, 27, 30), (0, 18, 30)],
            },
            unserved: &[0],
            discharge: &[20, 0],
            charge: &[0, 0],
            cut: 0b0,
        },
        // A storage serves another zone.
        Case {
            grid: Grid {
                supply: &[0, 5],
                load: &[0, 20],
                links: &[(0, 1, 12, 0)],
                devices: &[(0, 15, 6)],
            },
            unserved: &[0, 3],
            discharge: &[12],
            charge: &[0],
            cut: 0b10,
        },
        // A storage charges in one zone while another is short.
        Case {
            grid: Grid {
                supply: &[50, 0],
                load: &[20, 40],
                links: &[(0, 1, 10, 10)],
                devices: &[(0, 0, 15), (1, 5, 8)],
            },
            unserved: &[0, 25],
            discharge: &[0, 5],
            charge: &[15, 0],
            cut: 0b10,
        },
        // A zone that just balances lies in the cut.
        Case {
            grid: Grid {
                supply: &[10, 5, 30],
                load: &[25, 5, 10],
                links: &[(1, 0, 20, 20), (2, 1, 8, 0)],
                devices: &[],
            },
            unserved: &[2, 5, 0],
            discharge: &[],
            charge: &[],
            cut: 0b011,
        },
        // A link of 0.
        Case {
            grid: Grid {
                supply: &[30, 0],
                load: &[10, 15],
                links: &[(0, 1, 0, 0)],
                devices: &[],
            },
            unserved: &[0, 15],
            discharge: &[],
            charge: &[],
            cut: 0b10,
        },
        // A cycle of links.
        Case {
            grid: Grid {
                supply: &[40, 0, 0],
                load: &[5, 20, 30],
                links: &[(0, 1, 10, 0), (1, 2, 25, 0), (2, 0, 0, 15), (0, 2, 3, 0)],
                devices: &[],
            },
            unserved: &[0, 10, 12],
            discharge: &[],
            charge: &[],
            cut: 0b110,
        },
        // Supply without a way out.
        Case {
            grid: Grid {
                supply: &[60, 0, 0],
                load: &[0, 10, 10],
                links: &[(1, 0, 30, 0), (2, 1, 5, 5)],
                devices: &[],
            },
            unserved: &[0, 10, 10],
            discharge: &[],
            charge: &[],
            cut: 0b110,
        },
        // The zone served first takes what reaches the second too.
        Case {
            grid: Grid {
                supply: &[0, 0, 20],
                load: &[20, 20, 0],
                links: &[(2, 0, 12, 0), (2, 1, 12, 0), (1, 0, 10, 10)],
                devices: &[],
            },
            unserved: &[0, 20, 0],
            discharge: &[],
            charge: &[],
            cut: 0b111,
        },
        // Links and storages together.
        Case {
            grid: Grid {
                supply: &[30, 10, 0, 25],
                load: &[20, 35, 30, 5],
                links: &[(0, 1, 15, 5), (1, 2, 20, 20), (3, 2, 8, 4), (0, 3, 6, 6)],
                devices: &[(0, 6, 9), (2, 12, 4), (3, 7, 20), (1, 3, 5)],
            },
            unserved: &[0, 0, 17, 0],
            discharge: &[0, 12, 0, 3],
            charge: &[1, 0, 6, 0],
            cut: 0b0110,
        },
        // A storage gives way to supply from elsewhere, and then charges.
        Case {
            grid: Grid {
                supply: &[0, 50],
                load: &[20, 10],
                links: &[(1, 0, 25, 0)],
                devices: &[(0, 30, 7), (1, 10, 40)],
            },
            unserved: &[0, 0],
            discharge: &[0, 0],
            charge: &[5, 15],
            cut: 0b00,
        },
        // Each zone has enough for its load and its storage.
        Case {
            grid: Grid {
                supply: &[60, 50],
                load: &[40, 20],
                links: &[(0, 1, 10, 10)],
                devices: &[(1, 8, 25), (0, 12, 15)],
            },
            unserved: &[0, 0],
            discharge: &[0, 0],
            charge: &[25, 15],
            cut: 0b00,
        },
        // Each has just enough.
        Case {
            grid: Grid {
                supply: &[55, 45],
                load: &[40, 20],
                links: &[(0, 1, 10, 10)],
                devices: &[(1, 8, 25), (0, 12, 15)],
            },
            unserved: &[0, 0],
            discharge: &[0, 0],
            charge: &[25, 15],
            cut: 0b00,
        },
        // One lacks 1 MW for its storage, which is the first and so takes it from the other's.
        Case {
            grid: Grid {
                supply: &[55, 44],
                load: &[40, 20],
                links: &[(0, 1, 10, 10)],
                devices: &[(1, 8, 25), (0, 12, 15)],
            },
            unserved: &[0, 0],
            discharge: &[0, 0],
            charge: &[25, 14],
            cut: 0b00,
        },
        // Nothing at all.
        Case {
            grid: Grid {
                supply: &[0],
                load: &[0],
                links: &[],
                devices: &[],
            },
            unserved: &[0],
            discharge: &[],
            charge: &[],
            cut: 0b0,
        },
    ];
    for case in &cases {
        assert_best(&rt, rt.alloc(), case)?;
    }
    Ok(())
}
