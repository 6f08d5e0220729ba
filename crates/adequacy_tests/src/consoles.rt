//! Consoles: what lines are answered, and that workers run while lines are read.
ghost use Rattle.std.specs.Prelude.{Some};
ghost use Rattle.ra_base.specs.MemoryConsole.{lines_of, faults_of, answers_of};

use crate::answers::{ALL_SHORT, ALWAYS_OUT, DAY, NEVER_OUT, ZONE, shelf_of, words_of};
use adequacy::adequacy;
use ra_base::{
    Console, ConsoleError, MemoryConsole, MemorySink, NoPause, OutOfMemory, Pause, Status,
    TableName, Text,
};
use sample_totals::Recorder;
use std::alloc::Global;
use std::sync::atomic::{AtomicU64, Ordering};
use std::sync::{Arc, Wait};
use std::test::Fail;
use std::thread::Threads;

const TURNS: u32 = 200_000_000;

// What the lines behind a report are answered, and the gate and the ranges of the final report.
const ANSWERS: &str = "refused too many target 5
target 15
refused unknown
refused long
sealed
refused sealed
gate next 15 target 15 sealed yes cancelled no
ranges 0..14
";

// A moment of a campaign: how many samples were given out, the ranges that were deposited, how many samples these
// have, and how many workers it takes at least, each of which deposits its share before it claims another.
type Moment = (u32, &'static str, u64, usize);

// All moments of a campaign of five samples in blocks of two: whatever was given out, each choice of its shares may
// be deposited.
const MOMENTS: [Moment; 15] = [
    (0, "none", 0, 1),
    (2, "none", 0, 1),
    (2, "0..1", 2, 1),
    (4, "none", 0, 2),
    (4, "0..1", 2, 1),
    (4, "2..3", 2, 2),
    (4, "0..3", 4, 1),
    (5, "none", 0, 3),
    (5, "0..1", 2, 2),
    (5, "2..3", 2, 2),
    (5, "4..4", 1, 3),
    (5, "0..3", 4, 1),
    (5, "0..1 4..4", 3, 2),
    (5, "2..4", 3, 2),
    (5, "0..4", 5, 1),
];

// Those where all that was given out is deposited.
const ENDS: [Moment; 4] = [
    (0, "none", 0, 1),
    (2, "0..1", 2, 1),
    (4, "0..3", 4, 1),
    (5, "0..4", 5, 1),
];

// Those of a campaign of four samples where nothing is deposited.
const BEGINNINGS: [Moment; 3] = [(0, "none", 0, 1), (2, "none", 0, 1), (4, "none", 0, 2)];

// What a gate says behind them.
const RUNNING: &str = "target 5 sealed no cancelled no";

const CANCELLED: &str = "target 5 sealed yes cancelled yes";

const RUNNING_FOUR: &str = "target 4 sealed no cancelled no";

const FIRST_TWO: &str = "gate next 4 target 4 sealed no cancelled no
ranges 0..1
";

const LAST_OF_FOUR: &str = "gate next 4 target 4 sealed yes cancelled no
ranges 0..3
";

// How a console ended, and what was written.
#[derive(Drop)]
struct Told {
    status: Status,
    out: MemorySink,
    err: MemorySink,
}

fn tell<T: Threads + Wait + Sync, C: Console + Send, P: Pause + Sync>(
    rt: &T,
    alloc: Global,
    tables: &[(TableName, &str)],
    words: &str,
    lines: &mut C,
    pause: &P,
) -> Result<Told, Fail> {
    let words = words_of(alloc, words)?;
    let mut shelf = shelf_of(alloc, tables)?;
    let mut out = MemorySink::new(alloc, 2000)?;
    let mut err = MemorySink::new(alloc, 100)?;
    let mut none: Vec<Box<dyn Recorder>> = Vec::new(alloc);
    let status = adequacy(
        rt, alloc, &words, &mut shelf, lines, &mut out, &mut err, pause, &mut none,
    );
    Ok(Told { status, out, err })
}

// The same over a zone with a unit that is always out or never, five samples and lines in memory.
fn tell_lines<T: Threads + Wait + Sync>(
    rt: &T,
    alloc: Global,
    is_short: bool,
    workers: usize,
    lines: &mut MemoryConsole,
) -> Result<Told, Fail> {
    let unit = if is_short { ALWAYS_OUT } else { NEVER_OUT };
    let tables = [ZONE, unit, DAY];
    let words = format!(in alloc; "console F --samples 5 --block 2 --workers {workers}")?;
    tell(rt, alloc, &tables, &words, lines, &NoPause)
}

// Adds a line that is too long.
fn push_long(lines: &mut MemoryConsole) -> Result<(), OutOfMemory> {
    lines.push(&[b'x'; 5000])
}

// The lines behind the report, one of them of five thousand bytes.
fn push_lines(lines: &mut MemoryConsole) -> Result<(), OutOfMemory> {
    lines.push(b"extend 1000000")?;
    lines.push(b"extend 10")?;
    lines.push(b"hello")?;
    push_long(lines)?;
    lines.push(b"seal")?;
    lines.push(b"extend 1")
}

// The totals over samples that are all the same: in each a zone lacks 60 MW in each of 24 hours, or nothing.
pub(crate) fn totals_of(alloc: Global, samples: u64, is_short: bool) -> Result<String, Fail> {
    let mut text = format!(in alloc; "samples {samples}\n")?;
    if samples == 0 {
        return Ok(text);
    }
    let error = if samples == 1 { "-" } else { "0.000" };
    let (hours, days, unserved) = if is_short { (24, 1, 1_440) } else { (0, 0, 0) };
    for (figure, each) in [
        ("hours", hours),
        ("days", days),
        ("events", days),
        ("unserved", unserved),
        ("zone A", unserved),
    ] {
        let sum = samples.saturating_mul(each);
        text.push_str(&format!(in alloc; "{figure} sum {sum} mean {each}.000 error {error}\n")?)?;
    }
    if is_short {
        let hours = samples.saturating_mul(hours);
        let unserved = samples.saturating_mul(unserved);
        text.push_str(&format!(in alloc; "cut A hours {hours} unserved {unserved}\n")?)?;
    }
    Ok(text)
}

// The report of a moment, with what its gate says behind the samples that were given out.
fn report_of(alloc: Global, moment: &Moment, state: &str, is_short: bool) -> Result<String, Fail> {
    let (next, ranges, samples, _) = *moment;
    let totals = totals_of(alloc, samples, is_short)?;
    Ok(format!(in alloc; "gate next {next} {state}\nranges {ranges}\n{totals}")?)
}

// Whether bytes are the report of one of some moments at which so many workers can be.
fn is_lawful(
    alloc: Global,
    bytes: &[u8],
    moments: &[Moment],
    state: &str,
    is_short: bool,
    workers: usize,
) -> Result<bool, Fail> {
    for moment in moments {
        let report = report_of(alloc, moment, state, is_short)?;
        if moment.3 <= workers && bytes == report.as_bytes() {
            return Ok(true);
        }
    }
    Ok(false)
}

// What stands in front of two texts at the end of bytes, if they stand there.
fn in_front<'b>(bytes: &'b [u8], behind: &str, last: &str) -> Option<&'b [u8]> {
    bytes
        .strip_suffix(last.as_bytes())?
        .strip_suffix(behind.as_bytes())
}

#[test]
fn lines_are_answered(rt: HostRuntime) -> Result<(), Fail> {
    let alloc = rt.alloc();
    let mut lines = MemoryConsole::new(alloc);
    push_lines(&mut lines)?;
    let told = tell_lines(&rt, alloc, false, 1, &mut lines)?;
    assert_eq!(rt; told.status, Status::Done);
    let totals = totals_of(alloc, 15, false)?;
    let wanted = format!(in alloc; "{ANSWERS}{totals}")?;
    assert_eq!(rt; told.out.bytes(), wanted.as_bytes());
    assert_eq!(rt; told.err.bytes(), b"".as_slice());
    Ok(())
}

// Whether a report in mid-run is that of a moment at which so many workers can be, and the rest is the same.
fn is_reported_first<T: Threads + Wait + Sync>(
    rt: &T,
    alloc: Global,
    is_short: bool,
    workers: usize,
) -> Result<bool, Fail> {
    let mut lines = MemoryConsole::new(alloc);
    lines.push(b"report")?;
    push_lines(&mut lines)?;
    let told = tell_lines(rt, alloc, is_short, workers, &mut lines)?;
    if told.status != Status::Done {
        return Ok(false);
    }
    let fifteen = totals_of(alloc, 15, is_short)?;
    match in_front(told.out.bytes(), ANSWERS, &fifteen) {
        Some(report) => is_lawful(alloc, report, &MOMENTS, RUNNING, is_short, workers),
        None => Ok(false),
    }
}

#[test]
fn a_report_comes_first(rt: HostRuntime) -> Result<(), Fail> {
    let alloc = rt.alloc();
    for workers in 1..=3 {
        let is_calm = is_reported_first(&rt, alloc, false, workers)?;
        assert!(rt; is_calm, "nothing short, {workers} workers");
        let is_short = is_reported_first(&rt, alloc, true, workers)?;
        assert!(rt; is_short, "all short, {workers} workers");
    }
    Ok(())
}

// Whether a cancel is told, and behind it the report of all that was given out.
fn is_cancel_told<T: Threads + Wait + Sync>(
    rt: &T,
    alloc: Global,
    is_short: bool,
    workers: usize,
) -> Result<bool, Fail> {
    let mut lines = MemoryConsole::new(alloc);
    lines.push(b"cancel")?;
    let told = tell_lines(rt, alloc, is_short, workers, &mut lines)?;
    if told.status != Status::Cancelled || told.err.bytes() != b"cancelled\n".as_slice() {
        return Ok(false);
    }
    match told.out.bytes().strip_prefix(b"cancelled\n".as_slice()) {
        Some(report) => is_lawful(alloc, report, &ENDS, CANCELLED, is_short, workers),
        None => Ok(false),
    }
}

#[test]
fn a_cancel_is_told(rt: HostRuntime) -> Result<(), Fail> {
    let alloc = rt.alloc();
    for workers in 1..=3 {
        let is_calm = is_cancel_told(&rt, alloc, false, workers)?;
        assert!(rt; is_calm, "nothing short, {workers} workers");
        let is_short = is_cancel_told(&rt, alloc, true, workers)?;
        assert!(rt; is_short, "all short, {workers} workers");
    }
    Ok(())
}

#[test]
fn a_failed_read_ends_it(rt: HostRuntime) -> Result<(), Fail> {
    let alloc = rt.alloc();
    let mut lines = MemoryConsole::new(alloc);
    lines.push(b"extend 1")?;
    lines.push(b"seal")?;
    lines.fail(2)?;
    let told = tell_lines(&rt, alloc, false, 1, &mut lines)?;
    assert_eq!(rt; told.status, Status::ReadFault);
    assert_eq!(rt; told.out.bytes(), b"target 6\n".as_slice());
    assert_eq!(rt; told.err.bytes(), b"read fault\n".as_slice());
    Ok(())
}

// How far the lines and a worker have come, which wait for each other.
#[derive(Drop)]
struct Meeting {
    // The console's second call has begun.
    second_call: AtomicU64,
    // A share that is to be held has come.
    share: AtomicU64,
    // One of them waited in vain.
    missed: AtomicU64,
}

impl Meeting {
    fn new() -> Meeting {
        Meeting {
            second_call: AtomicU64::new(0),
            share: AtomicU64::new(0),
            missed: AtomicU64::new(0),
        }
    }

    fn has_missed(&self) -> bool {
        self.missed.load(Ordering::SeqCst) == 1
    }

    // Waits until the word is 1, for many turns and not forever.
    fn wait_for(&self, word: &AtomicU64) {
        for _ in 0..TURNS {
            if word.load(Ordering::SeqCst) == 1 {
                return;
            }
        }
        self.missed.store(1, Ordering::SeqCst);
    }
}

// A console that holds one of its calls until a share has come.
#[derive(Drop)]
struct HeldConsole {
    lines: MemoryConsole,
    meeting: Arc<Meeting, Global>,
    calls: u64,
    held_call: u64,
}

impl Console for HeldConsole {
    ghost left = { λ c. Some (lines_of c.lines) };

    ghost answers = { λ c. answers_of c.lines };

    ghost faults = { λ c. faults_of c.lines };

    fn line(&mut self, alloc: Global) -> Result<Option<Text>, ConsoleError> {
        self.calls = self.calls.saturating_add(1);
        if self.calls == 2 {
            self.meeting.second_call.store(1, Ordering::SeqCst);
        }
        if self.calls == self.held_call {
            self.meeting.wait_for(&self.meeting.share);
        }
        self.lines.line(alloc)
    }
}

// A pause that holds each share from a sample on until the console's second call has begun.
#[derive(Drop)]
struct HeldShares<'m> {
    meeting: &'m Meeting,
    from: u32,
}

impl<'m> Pause for HeldShares<'m> {
    fn before(&self, first: u32, _count: u32) {
        if first >= self.from {
            self.meeting.share.store(1, Ordering::SeqCst);
            self.meeting.wait_for(&self.meeting.second_call);
        }
    }
}

// What a console writes that gives `report`, where one of its calls is held until a share from this sample on
// has come, and these shares are held until its second call has begun.
fn met<T: Threads + Wait + Sync>(
    rt: &T,
    alloc: Global,
    workers: usize,
    held_call: u64,
    from: u32,
) -> Result<MemorySink, Fail> {
    let meeting = Arc::new(alloc, Meeting::new())?;
    let mut lines = HeldConsole {
        lines: MemoryConsole::new(alloc),
        meeting: Arc::try_clone(&meeting)?,
        calls: 0,
        held_call,
    };
    lines.lines.push(b"report")?;
    let pause = HeldShares {
        meeting: &meeting,
        from,
    };
    let words = format!(in alloc; "console F --samples 4 --block 2 --workers {workers}")?;
    let told = tell(
        rt,
        alloc,
        &[ZONE, ALWAYS_OUT, DAY],
        &words,
        &mut lines,
        &pause,
    )?;
    let Told {
        status,
        out,
        err: _,
    } = told;
    if status != Status::Done || meeting.has_missed() {
        return Err("they missed each other".into());
    }
    Ok(out)
}

// The console's second call waits until a share has come, and each share until that call has begun: so the report
// has none.
#[test]
fn workers_run_while_lines_are_read(rt: HostRuntime) -> Result<(), Fail> {
    let alloc = rt.alloc();
    let out = met(&rt, alloc, 2, 2, 0)?;
    let four = totals_of(alloc, 4, true)?;
    let Some(report) = in_front(out.bytes(), LAST_OF_FOUR, &four) else {
        return Err("the final report isn't that of all four".into());
    };
    assert!(rt; is_lawful(alloc, report, &BEGINNINGS, RUNNING_FOUR, true, 2)?);
    Ok(())
}

// The first call waits until the second share has come, which waits until the second call has begun: so the one
// worker has deposited its first share, and the report sums that.
#[test]
fn a_report_sums_what_was_deposited(rt: HostRuntime) -> Result<(), Fail> {
    let alloc = rt.alloc();
    let out = met(&rt, alloc, 1, 1, 2)?;
    let four = totals_of(alloc, 4, true)?;
    let wanted = format!(in alloc; "{FIRST_TWO}{ALL_SHORT}{LAST_OF_FOUR}{four}")?;
    assert_eq!(rt; out.bytes(), wanted.as_bytes());
    Ok(())
}
