ghost use Rattle.std.specs.Prelude.{◌≡◌, ◌+◌, ◌<◌, ◌≤◌, ◌↔◌, [], ◌∷◌, All, IfOk, IfSome, OnOk, length};
ghost use Rattle.campaign_core.specs.Ranges.{range};
ghost use Rattle.campaign_core.specs.Shares.{IsShare};
ghost use Rattle.system_model.specs.System.{zone_count, interface_count};
ghost use Rattle.sample_totals.specs.Estimates.{IsPrecision};

use campaign_core::{Job, Share, Work};
use ra_base::{Amounts, OutOfMemory, Text};
use sample_run::{Runner, SampleWork};
use sample_totals::{HourOutcome, Part, Recorder, RecorderError, Totals};
use std::alloc::Global;
use std::process::Abort;
use std::test::Fail;
use system_model::{Draft, Interface, Line, Rates, Storage, System, Unit};

// A type whose values may move between threads, and that they may share.
fn is_shared<T: Send + Sync>() {}

// The parts of a small system. Load and variable generation go hour by hour, and in an hour zone by zone.
#[derive(Drop)]
struct Plan<'a> {
    zones: u8,
    units: &'a [Unit],
    interfaces: &'a [Interface],
    lines: &'a [Line],
    storages: &'a [Storage],
    hours: u32,
    load: &'a [u32],
    variable: &'a [u32],
}

fn add_zones(rt: &impl Abort, draft: &mut Draft, zones: u8) -> Result<(), OutOfMemory>
    requires none { draft.old.zone_names ≡ [] }
    requires no_hours { draft.old.hours ≡ [] }
    ensures count { OnOk result (zone_count draft.new ≡ zones) }
    ensures few { OnOk result (zones ≤ 32) }
    ensures rest { OnOk result (draft.new ≡ record draft.old { zone_names = draft.new.zone_names }) }
{
    assert!(rt; zones <= 32);
    for _zone in 0..zones {
        draft.push_zone(b"Z")?;
    }
    Ok(())
}

fn add_units(
    rt: &impl Abort,
    draft: &mut Draft,
    zones: u8,
    units: &[Unit],
) -> Result<(), OutOfMemory>
    requires none { draft.old.units ≡ [] }
    requires zones { zone_count draft.old ≡ zones }
    ensures rest { OnOk result (draft.new ≡ record draft.old {
      units = draft.new.units;
      unit_names = draft.new.unit_names;
    }) }
{
    assert!(rt; units.len() <= 100);
    for unit in units {
        let unit = *unit;
        assert!(rt; unit.zone < zones && unit.capacity <= 2_000);
        assert!(rt; unit.rates.f <= 1_000_000_000 && unit.rates.r <= 1_000_000_000);
        assert!(rt; unit.rates.f > 0 || unit.rates.r > 0);
        draft.push_unit(b"U", unit)?;
    }
    Ok(())
}

fn add_interfaces(
    rt: &impl Abort,
    draft: &mut Draft,
    zones: u8,
    interfaces: &[Interface],
) -> Result<(), OutOfMemory>
    requires none { draft.old.interfaces ≡ [] }
    requires zones { zone_count draft.old ≡ zones }
    ensures count { OnOk result (interface_count draft.new ≡ length interfaces.now) }
    ensures few { OnOk result (length interfaces.now ≤ 100) }
    ensures rest { OnOk result (draft.new ≡ record draft.old {
      interfaces = draft.new.interfaces;
      interface_names = draft.new.interface_names;
    }) }
{
    assert!(rt; interfaces.len() <= 100);
    for interface in interfaces {
        let interface = *interface;
        assert!(rt;
            interface.from < zones && interface.to < zones && interface.from != interface.to
        );
        assert!(rt; interface.forward <= 1_000_000 && interface.backward <= 1_000_000);
        draft.push_interface(b"I", interface)?;
    }
    Ok(())
}

fn add_lines(
    rt: &impl Abort,
    draft: &mut Draft,
    interfaces: usize,
    lines: &[Line],
) -> Result<(), OutOfMemory>
    requires none { draft.old.lines ≡ [] }
    requires interfaces { interface_count draft.old ≡ interfaces }
    ensures rest { OnOk result (draft.new ≡ record draft.old {
      lines = draft.new.lines;
      line_names = draft.new.line_names;
    }) }
{
    assert!(rt; lines.len() <= 100);
    for line in lines {
        let line = *line;
        assert!(rt; usize::from(line.interface) < interfaces);
        assert!(rt; line.forward <= 1_000_000 && line.backward <= 1_000_000);
        assert!(rt; line.rates.f <= 1_000_000_000 && line.rates.r <= 1_000_000_000);
        assert!(rt; line.rates.f > 0 || line.rates.r > 0);
        draft.push_line(b"L", line)?;
    }
    Ok(())
}

fn add_storages(
    rt: &impl Abort,
    draft: &mut Draft,
    zones: u8,
    storages: &[Storage],
) -> Result<(), OutOfMemory>
    requires none { draft.old.storages ≡ [] }
    requires zones { zone_count draft.old ≡ zones }
    ensures rest { OnOk result (draft.new ≡ record draft.old {
      storages = draft.new.storages;
      storage_names = draft.new.storage_names;
    }) }
{
    assert!(rt; storages.len() <= 100);
    for storage in storages {
        let storage = *storage;
        assert!(rt; storage.zone < zones && storage.charge <= 2_000 && storage.discharge <= 2_000);
        assert!(rt; storage.energy <= 4_000_000_000 && storage.start <= storage.energy);
        assert!(rt; storage.charge_eff > 0 && storage.charge_eff <= 1_000);
        assert!(rt; storage.discharge_eff > 0 && storage.discharge_eff <= 1_000);
        assert!(rt; storage.carry > 0 && storage.carry <= 1_000);
        assert!(rt; storage.rates.f <= 1_000_000_000 && storage.rates.r <= 1_000_000_000);
        assert!(rt; storage.rates.f > 0 || storage.rates.r > 0);
        draft.push_storage(b"S", storage)?;
    }
    Ok(())
}

// The amounts of an hour.
fn hour_of(rt: &impl Abort, alloc: Global, row: &[u32]) -> Result<Amounts, OutOfMemory>
    ensures size { IfOk result (λ a. length a ≡ length row.now) }
    ensures most { IfOk result (λ a. All (λ mw. mw ≤ 6000) a) }
{
    let mut amounts = Amounts::zeros(alloc, row.len())?;
    for at in 0..row.len() {
        assert!(rt; row[at] <= 6_000);
        amounts.set(at, row[at]);
    }
    Ok(amounts)
}

fn add_hours(
    rt: &impl Abort,
    alloc: Global,
    draft: &mut Draft,
    zones: u8,
    plan: &Plan<'_>,
) -> Result<(), OutOfMemory>
    requires none { draft.old.hours ≡ [] }
    requires zones { zone_count draft.old ≡ zones }
    requires few { zones ≤ 32 }
    ensures zone { OnOk result (zone_count draft.new ≡ zones) }
    ensures hours { OnOk result (length draft.new.hours ≡ plan.now.hours) }
{
    assert!(rt; plan.hours <= 8_784);
    let zones = zones as usize;
    assert!(rt; plan.load.len() == plan.hours as usize * zones);
    assert!(rt; plan.variable.len() == plan.hours as usize * zones);
    for hour in 0..plan.hours {
        let start = hour as usize * zones;
        assert!(rt; start + zones <= plan.load.len() && start + zones <= plan.variable.len());
        let load = hour_of(rt, alloc, &plan.load[start..start + zones])?;
        let variable = hour_of(rt, alloc, &plan.variable[start..start + zones])?;
        draft.push_hour(&load, &variable)?;
    }
    Ok(())
}

fn system_of(rt: &impl Abort, alloc: Global, plan: &Plan<'_>) -> Result<System, OutOfMemory> {
    let mut draft = Draft::new(alloc);
    assert!(rt; plan.zones > 0 && plan.hours > 0);
    add_zones(rt, &mut draft, plan.zones)?;
    add_units(rt, &mut draft, plan.zones, plan.units)?;
    add_interfaces(rt, &mut draft, plan.zones, plan.interfaces)?;
    add_lines(rt, &mut draft, plan.interfaces.len(), plan.lines)?;
    add_storages(rt, &mut draft, plan.zones, plan.storages)?;
    add_hours(rt, alloc, &mut draft, plan.zones, plan)?;
    Ok(draft.finish())
}

// The totals of a runner's first samples.
fn first_totals(
    rt: &impl Abort,
    alloc: Global,
    runner: &mut Runner<'_>,
    zones: u8,
    samples: u32,
) -> Result<Totals, OutOfMemory>
    requires { zone_count runner.old.system ≡ zones }
    ensures { IfOk result (λ totals. length totals.zones ≡ zone_count runner.old.system) }
{
    let mut totals = Totals::new(alloc, zones)?;
    'samples: for sample in 0..samples {
        assert!(rt; totals.samples() < 1_000_000);
        totals.add(runner.run(sample))?;
    }
    Ok(totals)
}

// The totals of a system's first samples.
fn study(
    rt: &impl Abort,
    alloc: Global,
    system: &System,
    seed: u64,
    samples: u32,
) -> Result<Totals, OutOfMemory>
    ensures { IfOk result (λ totals. length totals.zones ≡ zone_count system.now) }
{
    let mut runner = Runner::new(alloc, system, seed)?;
    let totals = first_totals(rt, alloc, &mut runner, system.zones(), samples);
    // Moved whole into the call, since a drop here would drop each of its lists in this function.
    drop(runner);
    totals
}

// A study, and what its sums are: hours, days, events and unserved energy, the unserved energy of each
// zone, and the cuts with their hours and unserved energy.
#[derive(Drop)]
struct Case<'a> {
    plan: Plan<'a>,
    seed: u64,
    samples: u32,
    sums: [u128; 4],
    zones: &'a [u128],
    cuts: &'a [(u32, u64, u64)],
}

// The sums of the totals over all zones.
fn has_sums(rt: &impl Abort, totals: &Totals, sums: [u128; 4]) {
    let [hours, days, events, unserved] = sums;
    assert_eq!(rt; totals.part(Part::Hours).total, hours);
    assert_eq!(rt; totals.part(Part::Days).total, days);
    assert_eq!(rt; totals.part(Part::Events).total, events);
    assert_eq!(rt; totals.part(Part::Unserved).total, unserved);
}

// The unserved energy of each zone.
fn has_zones(rt: &impl Abort, totals: &Totals, zones: &[u128])
    requires { length totals.now.zones ≡ length zones.now }
{
    assert!(rt; zones.len() <= 32);
    for zone in 0..zones.len() {
        assert_eq!(rt; totals.zone(zone as u8).total, zones[zone]);
    }
}

// The rows by cut: the mask, its hours and their unserved energy.
fn has_cuts(rt: &impl Abort, totals: &Totals, cuts: &[(u32, u64, u64)]) {
    let rows = totals.cuts();
    assert!(rt; rows.len() == cuts.len());
    for at in 0..rows.len() {
        let row = rows[at];
        assert_eq!(rt; (row.mask, row.hours, row.unserved), cuts[at]);
    }
}

// Runs a study, and compares what it comes to.
fn agrees(rt: &impl Abort, alloc: Global, case: &Case<'_>) -> Result<(), OutOfMemory> {
    let system = system_of(rt, alloc, &case.plan)?;
    let totals = study(rt, alloc, &system, case.seed, case.samples)?;
    assert!(rt; case.zones.len() == system.zones() as usize);
    has_sums(rt, &totals, case.sums);
    has_zones(rt, &totals, case.zones);
    has_cuts(rt, &totals, case.cuts);
    Ok(())
}

fn unit(zone: u8, capacity: u32, f: u32, r: u32) -> Unit {
    Unit {
        zone,
        capacity,
        rates: Rates { f, r },
    }
}

fn interface(from: u8, to: u8, forward: u32, backward: u32) -> Interface {
    Interface {
        from,
        to,
        forward,
        backward,
    }
}

fn line(interface: u8, forward: u32, backward: u32, f: u32, r: u32) -> Line {
    Line {
        interface,
        forward,
        backward,
        rates: Rates { f, r },
    }
}

// 60,000 kWh, full at the start, 20 MW each way; it gives nine tenths of what it loses.
pub(crate) const LOSSY: Storage = Storage {
    zone: 0,
    charge: 20,
    discharge: 20,
    energy: 60_000,
    start: 60_000,
    charge_eff: 1_000,
    discharge_eff: 900,
    carry: 1_000,
    rates: Rates { f: 0, r: 1 },
};

// 100,000 kWh, empty at the start, 30 MW each way; it keeps nine tenths of what it takes in.
pub(crate) const EMPTY: Storage = Storage {
    zone: 0,
    charge: 30,
    discharge: 30,
    energy: 100_000,
    start: 0,
    charge_eff: 900,
    discharge_eff: 1_000,
    carry: 1_000,
    rates: Rates { f: 0, r: 1 },
};

#[test]
fn studies_of_one_zone_are_known_by_hand(rt: HostRuntime) -> Result<(), Fail> {
    let day = [60; 24];
    let always_up = [unit(0, 100, 0, 1_000_000_000)];
    let always_out = [unit(0, 100, 1_000_000_000, 0)];
    let every_other_hour = [unit(0, 10, 1_000_000_000, 1_000_000_000)];
    for (units, hours, load, samples, sums, zone, cuts) in [
        (
            &always_up,
            24,
            day.as_slice(),
            2,
            [0; 4],
            [0],
            [].as_slice(),
        ),
        (
            &always_out,
            24,
            day.as_slice(),
            2,
            [48, 2, 2, 2_880],
            [2_880],
            [(1, 48, 2_880)].as_slice(),
        ),
        (
            &every_other_hour,
            2,
            [10, 10].as_slice(),
            3,
            [3, 3, 3, 30],
            [30],
            [(1, 3, 30)].as_slice(),
        ),
    ] {
        let nothing = [0; 24];
        assert!(rt; hours <= 24);
        let case = Case {
            plan: Plan {
                zones: 1,
                units,
                interfaces: &[],
                lines: &[],
                storages: &[],
                hours,
                load,
                variable: &nothing[..hours as usize],
            },
            seed: 1,
            samples,
            sums,
            zones: &zone,
            cuts,
        };
        agrees(&rt, rt.alloc(), &case)?;
    }
    Ok(())
}

#[test]
fn hours_with_storages_are_known_by_hand(rt: HostRuntime) -> Result<(), Fail> {
    // 20 MW twice, then the last 13 MW, then nothing.
    let case = Case {
        plan: Plan {
            zones: 1,
            units: &[],
            interfaces: &[],
            lines: &[],
            storages: &[LOSSY],
            hours: 4,
            load: &[30, 30, 30, 30],
            variable: &[0, 0, 0, 0],
        },
        seed: 1,
        samples: 1,
        sums: [4, 1, 1, 67],
        zones: &[67],
        cuts: &[(1, 4, 67)],
    };
    agrees(&rt, rt.alloc(), &case)?;
    // What is charged in the first hour is there in the second.
    let case = Case {
        plan: Plan {
            zones: 1,
            units: &[unit(0, 100, 0, 1)],
            interfaces: &[],
            lines: &[],
            storages: &[EMPTY, EMPTY],
            hours: 2,
            load: &[50, 120],
            variable: &[0, 0],
        },
        seed: 1,
        samples: 1,
        sums: [0; 4],
        zones: &[0],
        cuts: &[],
    };
    agrees(&rt, rt.alloc(), &case)?;
    Ok(())
}

#[test]
fn an_hour_of_two_zones_is_known_by_hand(rt: HostRuntime) -> Result<(), Fail> {
    // Of 70 MW both zones are the cut, of 100 MW the second alone.
    for (capacity, cut) in [(70, 3), (100, 2)] {
        let case = Case {
            plan: Plan {
                zones: 2,
                units: &[unit(0, capacity, 0, 1)],
                interfaces: &[interface(0, 1, 30, 0)],
                lines: &[],
                storages: &[],
                hours: 1,
                load: &[40, 50],
                variable: &[0, 0],
            },
            seed: 1,
            samples: 1,
            sums: [1, 1, 1, 20],
            zones: &[0, 20],
            cuts: &[(cut, 1, 20)],
        };
        agrees(&rt, rt.alloc(), &case)?;
    }
    Ok(())
}

#[test]
fn an_hour_of_three_zones_is_known_by_hand(rt: HostRuntime) -> Result<(), Fail> {
    let case = Case {
        plan: Plan {
            zones: 3,
            units: &[unit(1, 10, 0, 1)],
            interfaces: &[interface(0, 1, 10, 10), interface(1, 2, 10, 10)],
            lines: &[],
            storages: &[],
            hours: 1,
            load: &[10, 0, 10],
            variable: &[0, 0, 0],
        },
        seed: 1,
        samples: 1,
        sums: [1, 1, 1, 10],
        zones: &[0, 0, 10],
        cuts: &[(7, 1, 10)],
    };
    agrees(&rt, rt.alloc(), &case)?;
    Ok(())
}

// Rates in thousandths.
fn rates(f: u32, r: u32) -> Rates
    requires some_f { f ≤ 1000 }
    requires some_r { r ≤ 1000 }
{
    Rates {
        f: f * 1_000_000,
        r: r * 1_000_000,
    }
}

fn storage(
    zone: u8,
    mw: (u32, u32),
    kwh: (u32, u32),
    shares: (u16, u16, u16),
    rates: Rates,
) -> Storage {
    Storage {
        zone,
        charge: mw.0,
        discharge: mw.1,
        energy: kwh.0,
        start: kwh.1,
        charge_eff: shares.0,
        discharge_eff: shares.1,
        carry: shares.2,
        rates,
    }
}

#[test]
fn a_mixed_study_agrees_with_an_independent_program(rt: HostRuntime) -> Result<(), Fail> {
    let mut load = [0; 216];
    let mut variable = [0; 216];
    for at in 0..216u32 {
        let hour = at / 3;
        let (mw, wind) = match at % 3 {
            0 => (90 + (hour * 7) % 50, (hour * 3) % 15),
            1 => (70 + (hour * 5) % 40, 0),
            _ => (50 + (hour * 11) % 45, (hour * 5) % 20),
        };
        load[at as usize] = mw;
        variable[at as usize] = wind;
    }
    let case = Case {
        plan: Plan {
            zones: 3,
            units: &[
                unit(0, 100, 50_000_000, 300_000_000),
                unit(1, 40, 100_000_000, 200_000_000),
                unit(2, 60, 20_000_000, 100_000_000),
                unit(0, 30, 0, 1),
                unit(1, 80, 80_000_000, 250_000_000),
                unit(2, 20, 10_000_000, 50_000_000),
                unit(0, 50, 150_000_000, 400_000_000),
            ],
            interfaces: &[
                interface(0, 1, 60, 40),
                interface(1, 2, 50, 70),
                interface(0, 2, 30, 20),
            ],
            lines: &[
                line(0, 40, 30, 30_000_000, 100_000_000),
                line(1, 30, 50, 50_000_000, 200_000_000),
                line(0, 35, 25, 20_000_000, 150_000_000),
                line(1, 30, 30, 40_000_000, 100_000_000),
            ],
            storages: &[
                storage(
                    1,
                    (30, 25),
                    (90_000, 40_000),
                    (900, 850, 995),
                    rates(50, 300),
                ),
                storage(
                    2,
                    (20, 40),
                    (120_000, 120_000),
                    (950, 900, 990),
                    rates(20, 200),
                ),
                storage(
                    1,
                    (15, 10),
                    (30_000, 0),
                    (800, 1_000, 1_000),
                    rates(100, 250),
                ),
            ],
            hours: 72,
            load: &load,
            variable: &variable,
        },
        seed: 258,
        samples: 5,
        sums: [35, 7, 13, 1_301],
        zones: &[273, 183, 845],
        cuts: &[
            (1, 9, 231),
            (3, 1, 15),
            (4, 2, 42),
            (5, 4, 201),
            (6, 1, 15),
            (7, 18, 797),
        ],
    };
    agrees(&rt, rt.alloc(), &case)?;
    Ok(())
}

#[test]
fn threads_may_have_runners_and_work() {
    is_shared::<Runner<'_>>();
    is_shared::<SampleWork<'_>>();
}

// The sum of so many samples from one on, as any who share out work come to it.
fn ran<W: Work, J: Job<W> + Send>(
    alloc: Global,
    job: &mut J,
    first: u32,
    count: u32,
) -> Result<W::Sum, OutOfMemory>
    requires { IsShare (range first count) }
    ensures sum { IfOk result (λ sum. (work : W) → J.serves job.old work
        → W.stands work sum (range first count ∷ [])) }
    ensures same { (work : W) → (J.serves job.old work ↔ J.serves job.new work) }
{
    let done = match job.run(alloc, Share::of(first, count)) {
        Ok(done) => done,
        Err((share, none)) => {
            share.abandon();
            return Err(none);
        }
    };
    let (share, sum) = done.into_parts();
    share.abandon();
    Ok(sum)
}

// The sum of the first four samples by two shares, the later one first, and whether they are enough.
fn gathered<W: Work, J: Job<W> + Send>(
    alloc: Global,
    work: &W,
    job: &mut J,
) -> Result<(W::Sum, bool), OutOfMemory>
    requires { J.serves job.old work.now }
{
    let mut sum = work.empty(alloc)?;
    let later = ran(alloc, job, 2, 2)?;
    work.merge(&mut sum, &later)?;
    let earlier = ran(alloc, job, 0, 2)?;
    work.merge(&mut sum, &earlier)?;
    let copy = work.copy(alloc, &sum)?;
    let enough = work.enough(&copy);
    Ok((copy, enough))
}

// The same, of a system and a precision.
fn four_of(
    alloc: Global,
    system: &System,
    precision: Option<u16>,
) -> Result<(Totals, bool), OutOfMemory>
    requires { IfSome precision IsPrecision }
{
    let work = SampleWork::new(system, 1, precision);
    let mut runner = Runner::new(alloc, system, 1)?;
    let four = gathered(alloc, &work, &mut runner);
    drop(runner);
    four
}

// What the first four samples come to.
fn has_four(rt: &impl Abort, totals: &Totals) {
    assert_eq!(rt; totals.samples(), 4);
    has_sums(rt, totals, [6, 4, 4, 90]);
    has_cuts(rt, totals, &[(1, 6, 90)]);
}

fn four_are(
    rt: &impl Abort,
    alloc: Global,
    system: &System,
    precision: Option<u16>,
    enough: bool,
) -> Result<(), OutOfMemory>
    requires { IfSome precision IsPrecision }
{
    let (totals, are_enough) = four_of(alloc, system, precision)?;
    has_four(rt, &totals);
    assert_eq!(rt; are_enough, enough);
    Ok(())
}

// In order, and by shares. The sum of squares is 2,100, and 10^6 * (4 * 2,100 - 90^2) is at most
// 112^2 * 90^2 * 3 and above that with 111. By the hours 333 would be too few.
fn four_are_known(rt: &impl Abort, alloc: Global, system: &System) -> Result<(), OutOfMemory> {
    has_four(rt, &study(rt, alloc, system, 1, 4)?);
    four_are(rt, alloc, system, Some(112), true)?;
    four_are(rt, alloc, system, Some(111), false)?;
    four_are(rt, alloc, system, None, true)?;
    Ok(())
}

#[test]
fn shares_in_another_order_give_the_same_totals(rt: HostRuntime) -> Result<(), Fail> {
    // A unit of 10 MW that changes its state each hour. Of the first four samples under this seed the last
    // one starts out, by an independent program: it lacks 10, 10 and 10 MW, the others 20 MW in one hour.
    let plan = Plan {
        zones: 1,
        units: &[unit(0, 10, 1_000_000_000, 1_000_000_000)],
        interfaces: &[],
        lines: &[],
        storages: &[],
        hours: 3,
        load: &[10, 20, 10],
        variable: &[0, 0, 0],
    };
    let system = system_of(&rt, rt.alloc(), &plan)?;
    let known = four_are_known(&rt, rt.alloc(), &system);
    drop(system);
    known?;
    Ok(())
}

// Marks each hour: one with a cut, and one without.
#[derive(Drop)]
struct Marks {
    text: Text,
}

impl Recorder for Marks {
    ghost use Rattle.std.specs.Prelude.{◌==◌, [], ◌∷◌, if◌then◌else◌};

    ghost seen = { λ marks. record {
      kind = 9;
      line = λ outcome. (if outcome.cut == 0 then 46 else 33) ∷ [];
      text = marks.text;
    } };

    ghost refusals = { λ marks. 0 };

    fn kind(&self) -> u8 {
        9
    }

    fn hour(&mut self, outcome: &HourOutcome) -> Result<(), RecorderError> {
        let mark = if outcome.cut == 0 { b'.' } else { b'!' };
        match self.text.push(&[mark]) {
            Ok(()) => Ok(()),
            Err(OutOfMemory) => Err(RecorderError::OutOfMemory),
        }
    }

    fn text(&self) -> &[u8] {
        self.text.bytes()
    }
}

// Gives the hours of the first sample to recorders.
fn trace_first(
    rt: &impl Abort,
    alloc: Global,
    system: &System,
    recorders: &mut [Marks],
) -> Result<(), OutOfMemory> {
    let mut runner = Runner::new(alloc, system, 1)?;
    let traced = runner.trace(0, recorders);
    drop(runner);
    assert!(rt; traced.is_ok());
    Ok(())
}

#[test]
fn a_trace_gives_each_hour_to_each_recorder(rt: HostRuntime) -> Result<(), Fail> {
    // In the second hour the storage covers the whole load.
    let plan = Plan {
        zones: 1,
        units: &[],
        interfaces: &[],
        lines: &[],
        storages: &[LOSSY],
        hours: 4,
        load: &[30, 20, 30, 30],
        variable: &[0, 0, 0, 0],
    };
    let alloc = rt.alloc();
    let mut recorders = [
        Marks {
            text: Text::new(alloc),
        },
        Marks {
            text: Text::new(alloc),
        },
    ];
    let system = system_of(&rt, alloc, &plan)?;
    let traced = trace_first(&rt, alloc, &system, &mut recorders);
    drop(system);
    traced?;
    for recorder in &recorders {
        assert_eq!(rt; recorder.text(), b"!.!!".as_slice());
    }
    Ok(())
}
