ghost use Rattle.std.specs.Prelude.{◌≡◌, length};

use ra_base::{Amounts, OutOfMemory};
use result_recorders::{BindingCut, Plain, RefusingPlain, Shortfall, StorageLevel};
use sample_totals::{HourOutcome, Recorder, RecorderError};
use std::alloc::Global;
use std::process::Abort;
use std::test::Fail;

// An hour: its number, the lists of what it came to, and the cut.
#[derive(Clone, Copy)]
struct Hour {
    hour: u32,
    unserved: &'static [u32],
    discharge: &'static [u32],
    charge: &'static [u32],
    energy: &'static [u32],
    cut: u32,
}

fn fill(amounts: &mut Amounts, values: &[u32])
    requires { length amounts.old ≡ length values.now }
{
    for (at, value) in values.iter().enumerate() {
        amounts.set(at, *value);
    }
}

fn outcome_of(rt: &impl Abort, alloc: Global, hour: Hour) -> Result<HourOutcome, OutOfMemory> {
    assert!(rt; hour.unserved.len() <= 32);
    assert!(rt; hour.discharge.len() <= 128);
    assert!(rt; hour.charge.len() == hour.discharge.len());
    assert!(rt; hour.energy.len() == hour.discharge.len());
    let zones = hour.unserved.len() as u8;
    let devices = hour.discharge.len() as u32;
    let mut outcome = HourOutcome::new(alloc, zones, devices)?;
    outcome.hour = hour.hour;
    outcome.cut = hour.cut;
    fill(&mut outcome.unserved, hour.unserved);
    fill(&mut outcome.discharge, hour.discharge);
    fill(&mut outcome.charge, hour.charge);
    fill(&mut outcome.energy, hour.energy);
    Ok(outcome)
}

// A recorder adds each hour, and has its kind and its text.
fn check<R: Recorder>(
    rt: &impl Abort,
    alloc: Global,
    mut recorder: R,
    hours: &[Hour],
    kind: u8,
    text: &str,
) -> Result<(), Fail> {
    for hour in hours {
        recorder.hour(&outcome_of(rt, alloc, *hour)?)?;
    }
    assert_eq!(rt; recorder.kind(), kind);
    assert_eq!(rt; recorder.text(), text.as_bytes());
    Ok(())
}

// A storage that covers some of a load of 30 MW over four hours.
const DRAINED: [Hour; 4] = [
    Hour {
        hour: 0,
        unserved: &[10],
        discharge: &[20],
        charge: &[0],
        energy: &[37_777],
        cut: 1,
    },
    Hour {
        hour: 1,
        unserved: &[10],
        discharge: &[20],
        charge: &[0],
        energy: &[15_554],
        cut: 1,
    },
    Hour {
        hour: 2,
        unserved: &[17],
        discharge: &[13],
        charge: &[0],
        energy: &[1_109],
        cut: 1,
    },
    Hour {
        hour: 3,
        unserved: &[30],
        discharge: &[0],
        charge: &[0],
        energy: &[1_109],
        cut: 1,
    },
];

// Two storages that are charged and then used, and three zones without storages of which two lack load.
const SERVED_AND_SHORT: [Hour; 3] = [
    Hour {
        hour: 0,
        unserved: &[0],
        discharge: &[0, 0],
        charge: &[30, 20],
        energy: &[27_000, 18_000],
        cut: 0,
    },
    Hour {
        hour: 1,
        unserved: &[0],
        discharge: &[20, 0],
        charge: &[0, 0],
        energy: &[7_000, 18_000],
        cut: 0,
    },
    Hour {
        hour: 7,
        unserved: &[1, 0, 200_000],
        discharge: &[],
        charge: &[],
        energy: &[],
        cut: 5,
    },
];

#[test]
fn plain_has_a_line_for_each_hour(rt: HostRuntime) -> Result<(), Fail> {
    let alloc = rt.alloc();
    let drained = "hour 0 unserved 10 discharge 20 charge 0 energy 37777 cut 1
hour 1 unserved 10 discharge 20 charge 0 energy 15554 cut 1
hour 2 unserved 17 discharge 13 charge 0 energy 1109 cut 1
hour 3 unserved 30 discharge 0 charge 0 energy 1109 cut 1
";
    check(&rt, alloc, Plain::new(alloc), &DRAINED, 1, drained)?;
    let other = "hour 0 unserved 0 discharge 0 0 charge 30 20 energy 27000 18000 cut 0
hour 1 unserved 0 discharge 20 0 charge 0 0 energy 7000 18000 cut 0
hour 7 unserved 1 0 200000 discharge charge energy cut 5
";
    check(&rt, alloc, Plain::new(alloc), &SERVED_AND_SHORT, 1, other)
}

#[test]
fn shortfall_has_the_hours_that_fall_short(rt: HostRuntime) -> Result<(), Fail> {
    let alloc = rt.alloc();
    let drained = "shortfall 0 total 10
shortfall 1 total 10
shortfall 2 total 17
shortfall 3 total 30
";
    check(&rt, alloc, Shortfall::new(alloc), &DRAINED, 2, drained)?;
    let other = "shortfall 7 total 200001\n";
    check(
        &rt,
        alloc,
        Shortfall::new(alloc),
        &SERVED_AND_SHORT,
        2,
        other,
    )
}

#[test]
fn storage_level_has_the_energies(rt: HostRuntime) -> Result<(), Fail> {
    let alloc = rt.alloc();
    let drained = "energy 0 37777\nenergy 1 15554\nenergy 2 1109\nenergy 3 1109\n";
    check(&rt, alloc, StorageLevel::new(alloc), &DRAINED, 3, drained)?;
    let other = "energy 0 27000 18000\nenergy 1 7000 18000\nenergy 7\n";
    check(
        &rt,
        alloc,
        StorageLevel::new(alloc),
        &SERVED_AND_SHORT,
        3,
        other,
    )
}

#[test]
fn binding_cut_has_the_hours_with_a_cut(rt: HostRuntime) -> Result<(), Fail> {
    let alloc = rt.alloc();
    let drained = "cut 0 zones 0 unserved 10
cut 1 zones 0 unserved 10
cut 2 zones 0 unserved 17
cut 3 zones 0 unserved 30
";
    check(&rt, alloc, BindingCut::new(alloc), &DRAINED, 4, drained)?;
    let other = "cut 7 zones 0+2 unserved 200001\n";
    let boxed: Box<dyn Recorder> = Box::new(alloc, BindingCut::new(alloc))?;
    check(&rt, alloc, boxed, &SERVED_AND_SHORT, 4, other)
}

#[test]
fn a_recorder_that_refuses_an_hour_keeps_its_text(rt: HostRuntime) -> Result<(), Fail> {
    let alloc = rt.alloc();
    let mut recorder = RefusingPlain::new(alloc, 2);
    recorder.hour(&outcome_of(&rt, alloc, DRAINED[0])?)?;
    recorder.hour(&outcome_of(&rt, alloc, DRAINED[1])?)?;
    let answer = recorder.hour(&outcome_of(&rt, alloc, DRAINED[2])?);
    assert_eq!(rt; answer, Err(RecorderError::Refused));
    let two = "hour 0 unserved 10 discharge 20 charge 0 energy 37777 cut 1
hour 1 unserved 10 discharge 20 charge 0 energy 15554 cut 1
";
    assert_eq!(rt; recorder.kind(), 1);
    assert_eq!(rt; recorder.text(), two.as_bytes());
    Ok(())
}
