ghost use Rattle.std.specs.Prelude.{◌≤◌};

use campaign::Campaign;
use campaign_console::{ConsoleDone, ConsoleEnd, console};
use ra_base::{Amounts, Console, MemoryConsole, MemorySink, NoPause, OutOfMemory};
use sample_run::SampleWork;
use std::alloc::Global;
use std::process::Abort;
use std::sync::Wait;
use std::test::Fail;
use std::thread::Threads;
use system_model::{Draft, Rates, System, Unit};

// A zone with a unit of 100 MW that is never out, over one hour of 60 MW.
fn one_zone(alloc: Global) -> Result<System, OutOfMemory> {
    let mut draft = Draft::new(alloc);
    draft.push_zone(b"A")?;
    let rates = Rates {
        f: 0,
        r: 1_000_000_000,
    };
    let unit = Unit {
        zone: 0,
        capacity: 100,
        rates,
    };
    draft.push_unit(b"U1", unit)?;
    let mut load = Amounts::zeros(alloc, 1)?;
    load.set(0, 60);
    draft.push_hour(&load, &Amounts::zeros(alloc, 1)?)?;
    Ok(draft.finish())
}

// How a console over five samples ends, two of them a share.
fn ran<R: Threads + Wait + Abort + Sync, C: Console + Send>(
    rt: &R,
    alloc: Global,
    system: &System,
    workers: u8,
    lines: &mut C,
    out: &mut MemorySink,
) -> Result<ConsoleEnd, Fail>
    requires { (1 ≤ workers) × (workers ≤ 64) }
{
    let work = SampleWork::new(system, 1, None);
    let Ok((campaign, pass)) = Campaign::open(alloc, work, 5, 2) else {
        panic!(rt; "no memory")
    };
    let done = console(
        rt, alloc, campaign, pass, system, 1, workers, lines, out, &NoPause,
    );
    let ConsoleDone { end, finished: _ } = done;
    Ok(end)
}

// Adds a line that is too long.
fn push_long(lines: &mut MemoryConsole) -> Result<(), OutOfMemory> {
    lines.push(&[b'x'; 5000])
}

const AFTER_THE_REPORT: &[u8] = b"refused too many target 5
target 15
refused unknown
refused long
sealed
refused sealed
gate next 15 target 15 sealed yes cancelled no
ranges 0..14
samples 15
hours sum 0 mean 0.000 error 0.000
days sum 0 mean 0.000 error 0.000
events sum 0 mean 0.000 error 0.000
unserved sum 0 mean 0.000 error 0.000
zone A sum 0 mean 0.000 error 0.000
";

#[test]
fn lines_are_answered_and_the_final_report_has_all_samples(rt: HostRuntime) -> Result<(), Fail> {
    let alloc = rt.alloc();
    let system = one_zone(alloc)?;
    let mut lines = MemoryConsole::new(alloc);
    lines.push(b"report")?;
    lines.push(b"extend 1000000")?;
    lines.push(b"extend 10\r")?;
    lines.push(b"hello")?;
    push_long(&mut lines)?;
    lines.push(b"seal")?;
    lines.push(b"extend 1")?;
    let mut out = MemorySink::new(alloc, 4096)?;
    let end = ran(&rt, alloc, &system, 2, &mut lines, &mut out)?;
    assert!(rt; end == ConsoleEnd::Finished);
    assert!(rt; out.bytes().starts_with(b"gate next "));
    assert!(rt; out.bytes().ends_with(AFTER_THE_REPORT));
    Ok(())
}

#[test]
fn a_cancel_is_answered_and_what_was_deposited_reported(rt: HostRuntime) -> Result<(), Fail> {
    let alloc = rt.alloc();
    let system = one_zone(alloc)?;
    let mut lines = MemoryConsole::new(alloc);
    lines.push(b"cancel")?;
    let mut out = MemorySink::new(alloc, 4096)?;
    let end = ran(&rt, alloc, &system, 1, &mut lines, &mut out)?;
    assert!(rt; end == ConsoleEnd::Cancelled);
    assert!(rt; out.bytes().starts_with(b"cancelled\ngate next "));
    Ok(())
}

#[test]
fn faults_end_the_console(rt: HostRuntime) -> Result<(), Fail> {
    let alloc = rt.alloc();
    let system = one_zone(alloc)?;
    let mut lines = MemoryConsole::new(alloc);
    lines.push(b"cancel")?;
    lines.fail(2)?;
    let mut out = MemorySink::new(alloc, 4096)?;
    let end = ran(&rt, alloc, &system, 1, &mut lines, &mut out)?;
    assert!(rt; end == ConsoleEnd::ReadFault);
    assert_eq!(rt; out.bytes(), b"cancelled\n".as_slice());
    let mut lines = MemoryConsole::new(alloc);
    lines.push(b"report")?;
    let mut full = MemorySink::new(alloc, 0)?;
    let end = ran(&rt, alloc, &system, 1, &mut lines, &mut full)?;
    assert!(rt; end == ConsoleEnd::WriteFault);
    assert!(rt; full.bytes().is_empty());
    Ok(())
}
