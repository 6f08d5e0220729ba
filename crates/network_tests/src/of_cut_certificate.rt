ghost use Rattle.std.specs.Prelude.{◌≡◌, ◌<◌, ◌^◌, All, length};

use crate::networks::{Grid, network_of, shape_of};
use cut_certificate::{Chain, check_chain, check_cut};
use ra_base::{Amounts, OutOfMemory};
use sample_totals::HourOutcome;
use std::alloc::Global;
use std::process::Abort;
use std::test::Fail;
use zone_network::{Network, Shape};

// What somebody says that an hour comes to, with the sets of chains that say so, each of which is accepted or not.
#[derive(Clone, Copy)]
struct Claim<'a> {
    unserved: &'a [u32],
    discharge: &'a [u32],
    charge: &'a [u32],
    flows: &'a [i32],
    generation: &'a [u32],
    chains: &'a [(&'a [u32], bool)],
}

// A network with what is said of it, and with masks, totals of unserved load, and whether they are tight.
#[derive(Clone, Copy)]
struct Case<'a> {
    grid: Grid<'a>,
    cuts: &'a [(u32, u32, bool)],
    claims: &'a [Claim<'a>],
}

fn put(rt: &impl Abort, amounts: &mut Amounts, values: &[u32])
    ensures { length amounts.new ≡ length amounts.old }
{
    assert_eq!(rt; amounts.len(), values.len());
    for i in 0..values.len() {
        amounts.set(i, values[i]);
    }
}

fn put_masks(rt: &impl Abort, sets: &mut Amounts, values: &[u32], zones: u8)
    requires zones { zones < 32 }
    requires masks { All (λ mask. mask < 2 ^ zones) sets.old }
    ensures size { length sets.new ≡ length sets.old }
    ensures masks { All (λ mask. mask < 2 ^ zones) sets.new }
{
    assert_eq!(rt; sets.len(), values.len());
    for i in 0..values.len() {
        assert!(rt; values[i] < 1 << zones);
        sets.set(i, values[i]);
    }
}

fn is_accepted(
    rt: &impl Abort,
    alloc: Global,
    shape: &Shape,
    net: &Network,
    claim: &Claim,
    sets: &[u32],
) -> Result<bool, OutOfMemory>
    requires { net.now.shape ≡ shape.now }
{
    let zones = net.zones();
    assert!(rt; zones < 32);
    let mut outcome = HourOutcome::new(alloc, zones, net.devices())?;
    put(rt, &mut outcome.unserved, claim.unserved);
    put(rt, &mut outcome.discharge, claim.discharge);
    put(rt, &mut outcome.charge, claim.charge);
    let mut chain = Chain::new(alloc, shape)?;
    assert_eq!(rt; chain.flows.len(), claim.flows.len());
    assert_eq!(rt; chain.flows.is_empty(), claim.flows.is_empty());
    for l in 0..claim.flows.len() {
        chain.flows.set(l, claim.flows[l]);
        assert_eq!(rt; chain.flows.get(l), claim.flows[l]);
    }
    put(rt, &mut chain.generation, claim.generation);
    put_masks(rt, &mut chain.sets, sets, zones);
    Ok(check_chain(net, &outcome, &chain))
}

fn assert_claim(
    rt: &impl Abort,
    alloc: Global,
    shape: &Shape,
    net: &Network,
    claim: &Claim,
) -> Result<(), OutOfMemory>
    requires { net.now.shape ≡ shape.now }
{
    for (sets, is_best) in claim.chains {
        assert_eq!(rt; is_accepted(rt, alloc, shape, net, claim, sets)?, *is_best);
    }
    Ok(())
}

fn assert_cut(rt: &impl Abort, net: &Network, mask: u32, unserved: u32, tight: bool) {
    let zones = net.zones();
    assert!(rt; zones < 32);
    assert!(rt; mask < 1 << zones);
    assert_eq!(rt; check_cut(net, mask, unserved), tight, "{mask} {unserved}");
}

fn assert_case(rt: &impl Abort, alloc: Global, case: &Case) -> Result<(), OutOfMemory> {
    let shape = shape_of(rt, alloc, &case.grid)?;
    let net = network_of(rt, alloc, &shape, &case.grid)?;
    for (mask, unserved, tight) in case.cuts {
        assert_cut(rt, &net, *mask, *unserved, *tight);
    }
    for claim in case.claims {
        assert_claim(rt, alloc, &shape, &net, claim)?;
    }
    Ok(())
}

const CASES: [Case<'static>; 5] = [
    // The second of two zones lacks 20: both together have 90 - 70, the second 50 - 0 - 30, and the
    // first 40 - 70.
    Case {
        grid: Grid {
            supply: &[70, 0],
            load: &[40, 50],
            links: &[(0, 1, 30, 0)],
            devices: &[],
        },
        cuts: &[
            (3, 20, true),
            (2, 20, true),
            (3, 19, false),
            (2, 21, false),
            (1, 20, false),
            (1, 0, false),
            (0, 0, true),
            (0, 20, false),
        ],
        claims: &[
            Claim {
                unserved: &[0, 20],
                discharge: &[],
                charge: &[],
                flows: &[30],
                generation: &[70, 0],
                chains: &[
                    (&[0, 3], true),
                    (&[0, 2], true),
                    (&[0, 0], false),
                    (&[0, 1], false),
                    (&[3, 3], false),
                ],
            },
            Claim {
                unserved: &[0, 50],
                discharge: &[],
                charge: &[],
                flows: &[0],
                generation: &[40, 0],
                chains: &[
                    (&[0, 0], false),
                    (&[0, 1], false),
                    (&[0, 2], false),
                    (&[0, 3], false),
                ],
            },
        ],
    },
    // A row of three, 10 MW in the middle: the first is served, the last lacks 10.
    Case {
        grid: Grid {
            supply: &[0, 10, 0],
            load: &[10, 0, 10],
            links: &[(0, 1, 10, 10), (1, 2, 10, 10)],
            devices: &[],
        },
        cuts: &[
            (7, 10, true),
            (6, 10, false),
            (5, 10, false),
            (4, 10, false),
            (3, 10, false),
        ],
        claims: &[
            Claim {
                unserved: &[0, 0, 10],
                discharge: &[],
                charge: &[],
                flows: &[-10, 0],
                generation: &[0, 10, 0],
                chains: &[(&[0, 0, 7], true), (&[0, 0, 6], false), (&[0, 7, 7], true)],
            },
            Claim {
                unserved: &[10, 0, 0],
                discharge: &[],
                charge: &[],
                flows: &[0, 10],
                generation: &[0, 10, 0],
                chains: &[
                    (&[7, 0, 0], false),
                    (&[1, 0, 0], false),
                    (&[3, 0, 0], false),
                ],
            },
        ],
    },
    // At a load of 120 the first storage gives the 20 that lack.
    Case {
        grid: Grid {
            supply: &[100],
            load: &[120],
            links: &[],
            devices: &[(0, 27, 30), (0, 18, 30)],
        },
        cuts: &[(1, 0, false)],
        claims: &[
            Claim {
                unserved: &[0],
                discharge: &[20, 0],
                charge: &[0, 0],
                flows: &[],
                generation: &[100],
                chains: &[(&[0, 1, 0, 1, 1], true)],
            },
            Claim {
                unserved: &[0],
                discharge: &[2, 18],
                charge: &[0, 0],
                flows: &[],
                generation: &[100],
                chains: &[(&[0, 1, 1, 1, 1], false)],
            },
            Claim {
                unserved: &[0],
                discharge: &[27, 0],
                charge: &[0, 7],
                flows: &[],
                generation: &[100],
                chains: &[(&[0, 1, 0, 1, 1], false)],
            },
        ],
    },
    // At a load of 50 the first storage charges its 30 and the second the 20 that are left.
    Case {
        grid: Grid {
            supply: &[100],
            load: &[50],
            links: &[],
            devices: &[(0, 0, 30), (0, 0, 30)],
        },
        cuts: &[],
        claims: &[
            Claim {
                unserved: &[0],
                discharge: &[0, 0],
                charge: &[30, 20],
                flows: &[],
                generation: &[100],
                chains: &[(&[0, 0, 0, 0, 1], true)],
            },
            Claim {
                unserved: &[0],
                discharge: &[0, 0],
                charge: &[20, 30],
                flows: &[],
                generation: &[100],
                chains: &[(&[0, 0, 0, 1, 0], false)],
            },
            Claim {
                unserved: &[0],
                discharge: &[0, 0],
                charge: &[0, 0],
                flows: &[],
                generation: &[50],
                chains: &[(&[0, 0, 0, 1, 1], false)],
            },
        ],
    },
    // A storage serves the other zone over a link of 12, and doesn't charge from its own discharge.
    Case {
        grid: Grid {
            supply: &[0, 5],
            load: &[0, 20],
            links: &[(0, 1, 12, 0)],
            devices: &[(0, 15, 6)],
        },
        cuts: &[(2, 3, true), (3, 3, false), (3, 0, true)],
        claims: &[
            Claim {
                unserved: &[0, 3],
                discharge: &[12],
                charge: &[0],
                flows: &[12],
                generation: &[0, 5],
                chains: &[(&[0, 2, 3, 3], true), (&[0, 2, 1, 3], false)],
            },
            Claim {
                unserved: &[0, 3],
                discharge: &[13],
                charge: &[1],
                flows: &[12],
                generation: &[0, 5],
                chains: &[(&[0, 2, 3, 3], false)],
            },
            Claim {
                unserved: &[0, 15],
                discharge: &[0],
                charge: &[0],
                flows: &[0],
                generation: &[0, 5],
                chains: &[(&[0, 2, 0, 3], false)],
            },
        ],
    },
];

#[test]
fn claims_are_judged(rt: HostRuntime) -> Result<(), Fail> {
    for number in 0..CASES.len() {
        let case = CASES[number];
        assert_case(&rt, rt.alloc(), &case)?;
    }
    Ok(())
}
