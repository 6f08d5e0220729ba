ghost use Rattle.std.specs.Prelude.{Some};

use adequacy::adequacy;
use ra_base::{
    MemoryConsole, MemoryShelf, MemorySink, NoPause, Pause, Sink, SinkFault, Status, TableName,
};
use sample_totals::Recorder;
use std::alloc::Global;
use std::sync::Wait;
use std::test::Fail;
use std::thread::Threads;

type Tables = &'static [(TableName, &'static str)];

// A folder, words, and what is written.
#[derive(Clone, Copy)]
struct Answered {
    tables: Tables,
    words: &'static str,
    out: &'static str,
}

pub(crate) const ZONE: (TableName, &str) = (TableName::Zones, "name\nA\n");

// A unit of 100 MW that is never out, and one that always is.
pub(crate) const NEVER_OUT: (TableName, &str) = (
    TableName::Units,
    "name,zone,capacity,failure,repair\nU1,A,100,0,1\n",
);

pub(crate) const ALWAYS_OUT: (TableName, &str) = (
    TableName::Units,
    "name,zone,capacity,failure,repair\nU1,A,100,1,0\n",
);

// Loads of 60 MW in 24 hours.
pub(crate) const DAY: (TableName, &str) = (
    TableName::Load,
    "hour,A\n0,60\n1,60\n2,60\n3,60\n4,60\n5,60\n6,60\n7,60\n8,60\n9,60\n10,60\n11,60\n12,60\n13,60\n14,60\n15,60\n16,60\n17,60\n18,60\n19,60\n20,60\n21,60\n22,60\n23,60\n",
);

// A unit of 10 MW that changes its state each hour, and loads of 10 MW in two hours.
const ALTERNATING: (TableName, &str) = (
    TableName::Units,
    "name,zone,capacity,failure,repair\nU1,A,10,1,1\n",
);

const TWO_HOURS: (TableName, &str) = (TableName::Load, "hour,A\n0,10\n1,10\n");

const ONE_HOUR: (TableName, &str) = (TableName::Load, "hour,A\n1,8\n");

// As a spreadsheet writes it: a mark in front, other columns in another order, quotes, spaces, CRLF.
const SPREADSHEET: (TableName, &str) = (
    TableName::Units,
    "\u{feff}fuel,repair,name,zone,failure,capacity\r\ngas,0.98,\"U, one\",A,0.02,3.0\r\ncoal, 0.98 ,U2,A,2e-2,5\r\n",
);

const OPEN_QUOTE: (TableName, &str) = (
    TableName::Units,
    "\u{feff}fuel,repair,name,zone,failure,capacity\r\ngas,0.98,\"U, one\",A,0.02,3.0\r\ncoal, 0.98 ,U2,A,2e-2,5\r\n\"gas,0.98,U3,A,0.02,4",
);

const NOTHING_SHORT: &str = "samples 2
hours sum 0 mean 0.000 error 0.000
days sum 0 mean 0.000 error 0.000
events sum 0 mean 0.000 error 0.000
unserved sum 0 mean 0.000 error 0.000
zone A sum 0 mean 0.000 error 0.000
";

// What a console without lines writes: the last report.
const ONE_SAMPLE_REPORTED: &str = "gate next 1 target 1 sealed yes cancelled no
ranges 0..0
samples 1
hours sum 0 mean 0.000 error -
days sum 0 mean 0.000 error -
events sum 0 mean 0.000 error -
unserved sum 0 mean 0.000 error -
zone A sum 0 mean 0.000 error -
";

pub(crate) const ALL_SHORT: &str = "samples 2
hours sum 48 mean 24.000 error 0.000
days sum 2 mean 1.000 error 0.000
events sum 2 mean 1.000 error 0.000
unserved sum 2880 mean 1440.000 error 0.000
zone A sum 2880 mean 1440.000 error 0.000
cut A hours 48 unserved 2880
";

const ONE_SAMPLE: &str = "samples 1
hours sum 24 mean 24.000 error -
days sum 1 mean 1.000 error -
events sum 1 mean 1.000 error -
unserved sum 1440 mean 1440.000 error -
zone A sum 1440 mean 1440.000 error -
cut A hours 24 unserved 1440
";

const ONE_HOUR_EACH: &str = "samples 3
hours sum 3 mean 1.000 error 0.000
days sum 3 mean 1.000 error 0.000
events sum 3 mean 1.000 error 0.000
unserved sum 30 mean 10.000 error 0.000
zone A sum 30 mean 10.000 error 0.000
cut A hours 3 unserved 30
";

// A capacity that isn't whole, a unit that can neither fail nor be repaired, and hours with a gap.
const HALF_MW: (TableName, &str) = (
    TableName::Units,
    "name,zone,capacity,failure,repair\nU1,A,155.5,0,1\n",
);

const NO_RATE: (TableName, &str) = (
    TableName::Units,
    "name,zone,capacity,failure,repair\nU1,A,100,0,0\n",
);

const GAP: (TableName, &str) = (TableName::Load, "hour,A\n0,10\n1,10\n3,10\n");

const TWO_ZONES: (TableName, &str) = (TableName::Zones, "name\nA\nB\n");

const TWO_LOADS: (TableName, &str) = (TableName::Load, "hour,A,B\n0,40,50\n");

// 70 MW that are never out, and 30 MW from the first zone to the second.
const SEVENTY_MW: (TableName, &str) = (
    TableName::Units,
    "name,zone,capacity,failure,repair\nU1,A,70,0,1\n",
);

const ONE_WAY: (TableName, &str) = (
    TableName::Interfaces,
    "name,from,to,forward,backward\nI,A,B,30,0\n",
);

// 10 MW in the middle of three zones, of which the outer two want 10 MW each.
const THREE_ZONES: (TableName, &str) = (TableName::Zones, "name\nA\nB\nC\n");

const MIDDLE_UNIT: (TableName, &str) = (
    TableName::Units,
    "name,zone,capacity,failure,repair\nU1,B,10,0,1\n",
);

const CHAIN: (TableName, &str) = (
    TableName::Interfaces,
    "name,from,to,forward,backward\nI,A,B,10,10\nJ,B,C,10,10\n",
);

const THREE_LOADS: (TableName, &str) = (TableName::Load, "hour,A,B,C\n0,10,0,10\n");

const NO_UNIT: (TableName, &str) = (TableName::Units, "name,zone,capacity,failure,repair\n");

const BATTERY: (TableName, &str) = (
    TableName::Storages,
    "name,zone,charge,discharge,energy_kwh,start_kwh,charge_efficiency,discharge_efficiency,carryover,failure,repair\nS,A,20,20,60000,60000,1,0.9,1,0,1\n",
);

const FOUR_HOURS: (TableName, &str) = (TableName::Load, "hour,A\n0,30\n1,30\n2,30\n3,30\n");

// Three units that are out a fiftieth of the time, under 8 MW; and one of 100 MW under 80 MW.
const THREE_UNITS: (TableName, &str) = (
    TableName::Units,
    "name,zone,capacity,failure,repair\nU1,A,3,0.02,0.98\nU2,A,3,0.02,0.98\nU3,A,5,0.02,0.98\n",
);

const FIFTIETH_OUT: (TableName, &str) = (
    TableName::Units,
    "name,zone,capacity,failure,repair\nU1,A,100,0.02,0.98\n",
);

const EIGHTY_MW: (TableName, &str) = (TableName::Load, "hour,A\n0,80\n");

const OUTAGES: &str = "units 3 total 11
outage 0 low 1.000000000000 high 1.000000000000
outage 3 low 0.058807999999 high 0.058808000001
outage 5 low 0.020391999999 high 0.020392000001
outage 6 low 0.001183999999 high 0.001184000001
outage 8 low 0.000791999999 high 0.000792000001
outage 11 low 0.000007999999 high 0.000008000001
";

const INDICES: &str = "hours 1 peak 8 hour 0
lole low 0.020391999999 high 0.020392000001
eue low 0.043575999999 high 0.043576000001
hour 0 need 8 lolp low 0.020391999999 high 0.020392000001 unserved low 0.043575999999 high 0.043576000001
";

// What a unit of 50 MW is worth that is out a quarter of the time, and one that always is.
const WORTH: &str = "credit efc eue
target low 0.849999999999 high 0.850000000001
low 37 at low 0.859999999999 high 0.860000000001
high 38 at low 0.839999999999 high 0.840000000001
";

const WORTHLESS: &str = "credit efc eue
target low 1.599999999999 high 1.600000000001
low none
high 1 at low 1.579999999999 high 1.580000000001
";

const BOTH_SHORT: &str = "samples 1
hours sum 1 mean 1.000 error -
days sum 1 mean 1.000 error -
events sum 1 mean 1.000 error -
unserved sum 20 mean 20.000 error -
zone A sum 0 mean 0.000 error -
zone B sum 20 mean 20.000 error -
cut A+B hours 1 unserved 20
";

const SECOND_SHORT: &str = "samples 1
hours sum 1 mean 1.000 error -
days sum 1 mean 1.000 error -
events sum 1 mean 1.000 error -
unserved sum 20 mean 20.000 error -
zone A sum 0 mean 0.000 error -
zone B sum 20 mean 20.000 error -
cut B hours 1 unserved 20
";

const LAST_SHORT: &str = "samples 1
hours sum 1 mean 1.000 error -
days sum 1 mean 1.000 error -
events sum 1 mean 1.000 error -
unserved sum 10 mean 10.000 error -
zone A sum 0 mean 0.000 error -
zone B sum 0 mean 0.000 error -
zone C sum 10 mean 10.000 error -
cut A+B+C hours 1 unserved 10
";

const DRAINED: &str = "samples 1
hours sum 4 mean 4.000 error -
days sum 1 mean 1.000 error -
events sum 1 mean 1.000 error -
unserved sum 67 mean 67.000 error -
zone A sum 67 mean 67.000 error -
cut A hours 4 unserved 67
";

// What is known by hand: what is written over a folder,
const ANSWERED: [Answered; 15] = [
    Answered {
        tables: &[ZONE, THREE_UNITS, ONE_HOUR],
        words: "table F",
        out: OUTAGES,
    },
    Answered {
        tables: &[ZONE, THREE_UNITS, ONE_HOUR],
        words: "index F",
        out: INDICES,
    },
    Answered {
        tables: &[ZONE, FIFTIETH_OUT, EIGHTY_MW],
        words: "credit F --kind efc --measure eue --capacity 50 --failure 0.25 --repair 0.75 --up-to 100",
        out: WORTH,
    },
    Answered {
        tables: &[ZONE, FIFTIETH_OUT, EIGHTY_MW],
        words: "credit F --kind efc --measure eue --capacity 50 --failure 1 --repair 0 --up-to 100",
        out: WORTHLESS,
    },
    Answered {
        tables: &[ZONE, NEVER_OUT, DAY],
        words: "study F --samples 2 --seed 1 --workers 4 --block 1",
        out: NOTHING_SHORT,
    },
    Answered {
        tables: &[ZONE, ALWAYS_OUT, DAY],
        words: "study F --samples 2",
        out: ALL_SHORT,
    },
    Answered {
        tables: &[ZONE, ALWAYS_OUT, DAY],
        words: "study F --samples 1",
        out: ONE_SAMPLE,
    },
    Answered {
        tables: &[ZONE, ALTERNATING, TWO_HOURS],
        words: "study F --samples 3 --workers 2 --block 2",
        out: ONE_HOUR_EACH,
    },
    Answered {
        tables: &[ZONE, SPREADSHEET, ONE_HOUR],
        words: "check F",
        out: "zones 1 units 2 interfaces 0 lines 0 storages 0 hours 1 capacity 8 peak 8 hour 0\n",
    },
    // One sample isn't enough for a precision, and two are.
    Answered {
        tables: &[ZONE, ALWAYS_OUT, DAY],
        words: "study F --precision 10 --samples 1 --most 3",
        out: ALL_SHORT,
    },
    // The two zones together have too little, whatever goes from one to the other; with more in the first
    // zone it is the second alone, behind its interface.
    Answered {
        tables: &[TWO_ZONES, SEVENTY_MW, ONE_WAY, TWO_LOADS],
        words: "study F --samples 1",
        out: BOTH_SHORT,
    },
    Answered {
        tables: &[TWO_ZONES, NEVER_OUT, ONE_WAY, TWO_LOADS],
        words: "study F --samples 1",
        out: SECOND_SHORT,
    },
    // The first of two zones that want the same is served.
    Answered {
        tables: &[THREE_ZONES, MIDDLE_UNIT, CHAIN, THREE_LOADS],
        words: "study F --samples 1",
        out: LAST_SHORT,
    },
    // A store of 60 MWh that gives nine tenths of what it loses, and no unit.
    Answered {
        tables: &[ZONE, NO_UNIT, BATTERY, FOUR_HOURS],
        words: "study F --samples 1 --seed 1",
        out: DRAINED,
    },
    Answered {
        tables: &[ZONE, NEVER_OUT, DAY],
        words: "console F --samples 1",
        out: ONE_SAMPLE_REPORTED,
    },
];

// tables that are refused, and the line that says so,
const REFUSED_TABLES: [(Tables, &str, &str); 5] = [
    (
        &[ZONE, OPEN_QUOTE, ONE_HOUR],
        "check F",
        "table units row 4 column -: field count\n",
    ),
    (
        &[ZONE, HALF_MW, ONE_HOUR],
        "check F",
        "table units row 2 column capacity: not whole at 4\n",
    ),
    (
        &[ZONE, NEVER_OUT, GAP],
        "check F",
        "table load row 4 column hour: hour 3, wanted 2\n",
    ),
    (&[ZONE, NEVER_OUT], "check F", "table load missing\n"),
    (
        &[ZONE, NO_RATE, ONE_HOUR],
        "study F --samples 2 --seed 1",
        "table units row 2 column repair: both rates are zero\n",
    ),
];

// and words that are, whatever the folder holds.
const REFUSED_WORDS: [(&str, &str); 10] = [
    (
        "credit F --kind efc --measure eue --capacity 50 --failure 0 --repair 0 --up-to 100",
        "words: --repair is bad\n",
    ),
    ("credit F --kind efc", "words: --measure is missing\n"),
    ("study F --samples 1000001", "words: --samples is bad\n"),
    ("study F --samples 0", "words: --samples is bad\n"),
    ("study F --samples", "words: usage\n"),
    ("study F --seed 1", "words: --samples is missing\n"),
    ("study F --samples 2 --seed x", "words: --seed is bad\n"),
    ("study F --samples 2 --seed 1 --seed 1", "words: usage\n"),
    ("check F --samples 2", "words: --samples is not for check\n"),
    ("steady F", "words: no such command\n"),
];

// A sink that counts its writes.
#[derive(Drop)]
struct CountedSink {
    inner: MemorySink,
    writes: u32,
}

impl Sink for CountedSink {
    ghost held = { λ s. Some s.inner.held };

    ghost faults = { λ s. s.inner.faults };

    fn write(&mut self, piece: &[u8]) -> Result<(), SinkFault> {
        self.writes = self.writes.saturating_add(1);
        self.inner.write(piece)
    }
}

impl CountedSink {
    fn new(alloc: Global, capacity: usize) -> Result<CountedSink, Fail> {
        Ok(CountedSink {
            inner: MemorySink::new(alloc, capacity)?,
            writes: 0,
        })
    }

    // Whether the text was written at once, or nothing where it is empty.
    fn gained(&self, text: &str) -> bool {
        self.inner.bytes() == text.as_bytes() && self.writes == u32::from(!text.is_empty())
    }
}

pub(crate) fn shelf_of(alloc: Global, tables: &[(TableName, &str)]) -> Result<MemoryShelf, Fail> {
    let mut shelf = MemoryShelf::new(alloc);
    for (table, text) in tables {
        shelf.put("F", *table, text.as_bytes())?;
    }
    Ok(shelf)
}

pub(crate) fn words_of(alloc: Global, text: &str) -> Result<Vec<String>, Fail> {
    let mut words = Vec::new(alloc);
    for word in text.split(' ') {
        words.push(String::from_str(alloc, word)?)?;
    }
    Ok(words)
}

/// Runs words with a console without lines and no recorder.
pub(crate) fn quietly<T: Threads + Wait + Sync, O: Sink + Send, E: Sink, P: Pause + Sync>(
    rt: &T,
    alloc: Global,
    words: &[String],
    shelf: &mut MemoryShelf,
    out: &mut O,
    err: &mut E,
    pause: &P,
) -> Status {
    let mut lines = MemoryConsole::new(alloc);
    let mut none: Vec<Box<dyn Recorder>> = Vec::new(alloc);
    adequacy(
        rt, alloc, words, shelf, &mut lines, out, err, pause, &mut none,
    )
}

// How words over a folder ended, and what was written.
#[derive(Drop)]
struct Ended {
    status: Status,
    out: CountedSink,
    err: CountedSink,
}

impl Ended {
    fn is_refused(&self, status: Status, line: &str) -> bool {
        self.status == status && self.out.gained("") && self.err.gained(line)
    }
}

fn end_of<T: Threads + Wait + Sync>(
    rt: &T,
    alloc: Global,
    tables: &[(TableName, &str)],
    words: &str,
) -> Result<Ended, Fail> {
    let words = words_of(alloc, words)?;
    let mut shelf = shelf_of(alloc, tables)?;
    let mut out = CountedSink::new(alloc, 1000)?;
    let mut err = CountedSink::new(alloc, 1000)?;
    let status = quietly(rt, alloc, &words, &mut shelf, &mut out, &mut err, &NoPause);
    Ok(Ended { status, out, err })
}

#[test]
fn answers(rt: HostRuntime) -> Result<(), Fail> {
    for number in 0..ANSWERED.len() {
        let case = ANSWERED[number];
        let ended = end_of(&rt, rt.alloc(), case.tables, case.words)?;
        assert_eq!(rt; ended.status, Status::Done, "case {number}");
        assert!(rt; ended.out.gained(case.out), "case {number}");
        assert!(rt; ended.err.gained(""), "case {number}");
    }
    Ok(())
}

#[test]
fn refusals(rt: HostRuntime) -> Result<(), Fail> {
    for number in 0..REFUSED_TABLES.len() {
        let (tables, words, line) = REFUSED_TABLES[number];
        let ended = end_of(&rt, rt.alloc(), tables, words)?;
        assert!(rt; ended.is_refused(Status::Table, line), "tables {number}");
    }
    for number in 0..REFUSED_WORDS.len() {
        let (words, line) = REFUSED_WORDS[number];
        let ended = end_of(&rt, rt.alloc(), &[ZONE, NEVER_OUT, DAY], words)?;
        assert!(rt; ended.is_refused(Status::Words, line), "words {number}");
    }
    Ok(())
}

// A sink of each capacity below the answer's length holds exactly the first bytes of it; each read fails in turn;
// and a full standard error changes nothing.
#[test]
fn faults(rt: HostRuntime) -> Result<(), Fail> {
    let alloc = rt.alloc();
    let words = words_of(alloc, "study F --samples 2 --seed 1")?;
    let text = NOTHING_SHORT.as_bytes();
    for (capacity, fails, room) in [
        (0, 0, 100),
        (1, 0, 100),
        (10, 0, 100),
        (11, 0, 0),
        (text.len() - 1, 0, 5),
        (text.len(), 0, 0),
        (1000, 1, 100),
        (1000, 2, 100),
        (1000, 7, 3),
    ] {
        let mut shelf = shelf_of(alloc, &[ZONE, NEVER_OUT, DAY])?;
        if fails > 0 {
            shelf.fail(fails)?;
        }
        let mut out = MemorySink::new(alloc, capacity)?;
        let mut err = MemorySink::new(alloc, room)?;
        let status = quietly(&rt, alloc, &words, &mut shelf, &mut out, &mut err, &NoPause);
        let (want, line, held) = if fails > 0 {
            (Status::ReadFault, "read fault\n", 0)
        } else if capacity < text.len() {
            (Status::WriteFault, "write fault\n", capacity)
        } else {
            (Status::Done, "", text.len())
        };
        assert_eq!(rt; status, want, "at {capacity}, {fails}");
        assert_eq!(rt; out.bytes(), &text[..held], "at {capacity}, {fails}");
        let told = line.len().min(room);
        assert_eq!(rt;
            err.bytes(),
            &line.as_bytes()[..told],
            "at {capacity}, {fails}"
        );
    }
    Ok(())
}
