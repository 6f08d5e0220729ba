ghost use Rattle.std.specs.Prelude.{◌≡◌, ◌++◌, OnOk, OnErr, codes, false};
ghost use Rattle.sample_totals.specs.Recorders.{Seen, is_refused};

use crate::answers::{shelf_of, words_of};
use adequacy::adequacy;
use ra_base::{
    MemoryConsole, MemoryShelf, MemorySink, NoPause, OutOfMemory, Status, TableName, Text,
};
use result_recorders::{BindingCut, Plain, RefusingPlain, Shortfall, StorageLevel};
use sample_totals::{HourOutcome, Recorder, RecorderError};
use std::alloc::Global;
use std::test::Fail;

// A recorder of a kind that no result names.
#[derive(Drop)]
struct Nine {
    text: Text,
}

impl Recorder for Nine {
    ghost seen = { λ recorder. record { kind = 9; line = λ outcome. codes "nine "; text = recorder.text } };

    ghost refusals = { λ recorder. 0 };

    fn kind(&self) -> u8 {
        9
    }

    fn hour(&mut self, outcome: &HourOutcome) -> Result<(), RecorderError>
        ensures ok { OnOk result (self.new.text ≡ self.old.text ++ codes "nine ") }
        ensures err { OnErr result (self.new.text ≡ self.old.text) }
        ensures never { is_refused result ≡ false }
    {
        let _ = outcome;
        match self.text.push(b"nine ") {
            Ok(()) => Ok(()),
            Err(OutOfMemory) => Err(RecorderError::OutOfMemory),
        }
    }

    fn text(&self) -> &[u8] {
        self.text.bytes()
    }
}

// A recorder that is made for a trace.
#[derive(Clone, Copy)]
enum Made {
    Plain,
    Shortfall,
    Storage,
    Cut,
    Nine,
    Refusing(u32),
}

// A folder, words, the recorders, the status, and which recorders are left with which texts.
#[derive(Clone, Copy)]
struct Case {
    tables: &'static [(TableName, &'static str)],
    words: &'static str,
    made: &'static [Made],
    status: Status,
    left: &'static [(u8, &'static str)],
}

// A store of 60 MWh that gives nine tenths of what it loses, no unit, and a load of 30 MW.
const ONE_STORE: &[(TableName, &str)] = &[
    (TableName::Zones, "name\nA\n"),
    (TableName::Units, "name,zone,capacity,failure,repair\n"),
    (
        TableName::Storages,
        "name,zone,charge,discharge,energy_kwh,start_kwh,charge_efficiency,discharge_efficiency,carryover,failure,repair\nS,A,20,20,60000,60000,1,0.9,1,0,1\n",
    ),
    (TableName::Load, "hour,A\n0,30\n1,30\n2,30\n3,30\n"),
];

// A unit of 100 MW that is never out, two empty stores that keep nine tenths of what they take, and loads of 50
// and 120 MW.
const TWO_STORES: &[(TableName, &str)] = &[
    (TableName::Zones, "name\nA\n"),
    (
        TableName::Units,
        "name,zone,capacity,failure,repair\nU1,A,100,0,1\n",
    ),
    (
        TableName::Storages,
        "name,zone,charge,discharge,energy_kwh,start_kwh,charge_efficiency,discharge_efficiency,carryover,failure,repair\nS,A,30,30,100000,0,0.9,1,1,0,1\nT,A,30,30,100000,0,0.9,1,1,0,1\n",
    ),
    (TableName::Load, "hour,A\n0,50\n1,120\n"),
];

const PLAIN: &str = "hour 0 unserved 10 discharge 20 charge 0 energy 37777 cut 1
hour 1 unserved 10 discharge 20 charge 0 energy 15554 cut 1
hour 2 unserved 17 discharge 13 charge 0 energy 1109 cut 1
hour 3 unserved 30 discharge 0 charge 0 energy 1109 cut 1
";

const ONE_HOUR: &str = "hour 0 unserved 10 discharge 20 charge 0 energy 37777 cut 1\n";

const TWO_HOURS: &str = "hour 0 unserved 10 discharge 20 charge 0 energy 37777 cut 1
hour 1 unserved 10 discharge 20 charge 0 energy 15554 cut 1
";

const THREE_HOURS: &str = "hour 0 unserved 10 discharge 20 charge 0 energy 37777 cut 1
hour 1 unserved 10 discharge 20 charge 0 energy 15554 cut 1
hour 2 unserved 17 discharge 13 charge 0 energy 1109 cut 1
";

const CHARGED: &str = "hour 0 unserved 0 discharge 0 0 charge 30 20 energy 27000 18000 cut 0
hour 1 unserved 0 discharge 20 0 charge 0 0 energy 7000 18000 cut 0
";

const SHORTFALL: &str =
    "shortfall 0 total 10\nshortfall 1 total 10\nshortfall 2 total 17\nshortfall 3 total 30\n";

const STORAGE: &str = "energy 0 37777\nenergy 1 15554\nenergy 2 1109\nenergy 3 1109\n";

const CUT: &str = "cut 0 zones 0 unserved 10
cut 1 zones 0 unserved 10
cut 2 zones 0 unserved 17
cut 3 zones 0 unserved 30
";

const NINES: &str = "nine nine nine nine ";

// One recorder of each kind, as the program has them.
const EACH: &[Made] = &[Made::Plain, Made::Shortfall, Made::Storage, Made::Cut];

const CASES: [Case; 15] = [
    Case {
        tables: ONE_STORE,
        words: "trace F --sample 0 --result plain",
        made: EACH,
        status: Status::Done,
        left: &[(1, PLAIN)],
    },
    Case {
        tables: ONE_STORE,
        words: "trace F --sample 0 --result shortfall",
        made: EACH,
        status: Status::Done,
        left: &[(2, SHORTFALL)],
    },
    Case {
        tables: ONE_STORE,
        words: "trace F --sample 0 --result storage",
        made: EACH,
        status: Status::Done,
        left: &[(3, STORAGE)],
    },
    Case {
        tables: ONE_STORE,
        words: "trace F --sample 0 --result cut",
        made: EACH,
        status: Status::Done,
        left: &[(4, CUT)],
    },
    // Two stores, of which the first is filled first and emptied first; no hour is short and no zone cut off.
    Case {
        tables: TWO_STORES,
        words: "trace F --sample 0 --result plain",
        made: EACH,
        status: Status::Done,
        left: &[(1, CHARGED)],
    },
    Case {
        tables: TWO_STORES,
        words: "trace F --sample 0 --result shortfall",
        made: EACH,
        status: Status::Done,
        left: &[(2, "")],
    },
    // No result is named: each kind is chosen, an unknown one too, in the order of the list.
    Case {
        tables: ONE_STORE,
        words: "trace F --sample 0 --seed 7",
        made: &[Made::Cut, Made::Nine, Made::Plain, Made::Plain],
        status: Status::Done,
        left: &[(4, CUT), (9, NINES), (1, PLAIN), (1, PLAIN)],
    },
    Case {
        tables: ONE_STORE,
        words: "trace F --sample 0 --result plain",
        made: &[Made::Plain, Made::Nine, Made::Cut, Made::Plain],
        status: Status::Done,
        left: &[(1, PLAIN), (1, PLAIN)],
    },
    Case {
        tables: ONE_STORE,
        words: "trace F --sample 0",
        made: &[],
        status: Status::Done,
        left: &[],
    },
    // The third hour is refused, alone and between recorders of which the first has taken it; any other hour
    // behind a recorder that has taken it; and an hour by a recorder that isn't chosen.
    Case {
        tables: ONE_STORE,
        words: "trace F --sample 0 --result plain",
        made: &[Made::Refusing(2)],
        status: Status::RecorderRefused,
        left: &[(1, TWO_HOURS)],
    },
    Case {
        tables: ONE_STORE,
        words: "trace F --sample 0",
        made: &[Made::Plain, Made::Refusing(2), Made::Plain],
        status: Status::RecorderRefused,
        left: &[(1, THREE_HOURS), (1, TWO_HOURS), (1, TWO_HOURS)],
    },
    Case {
        tables: ONE_STORE,
        words: "trace F --sample 0 --result plain",
        made: &[Made::Plain, Made::Refusing(0)],
        status: Status::RecorderRefused,
        left: &[(1, ONE_HOUR), (1, "")],
    },
    Case {
        tables: ONE_STORE,
        words: "trace F --sample 0 --result plain",
        made: &[Made::Plain, Made::Refusing(1)],
        status: Status::RecorderRefused,
        left: &[(1, TWO_HOURS), (1, ONE_HOUR)],
    },
    Case {
        tables: ONE_STORE,
        words: "trace F --sample 0 --result plain",
        made: &[Made::Plain, Made::Refusing(3)],
        status: Status::RecorderRefused,
        left: &[(1, PLAIN), (1, THREE_HOURS)],
    },
    Case {
        tables: ONE_STORE,
        words: "trace F --sample 0 --result storage",
        made: &[Made::Refusing(2), Made::Storage],
        status: Status::Done,
        left: &[(3, STORAGE)],
    },
];

// Which recorders are left, with which texts, and that these are what was written where all was.
#[test]
fn traces(rt: HostRuntime) -> Result<(), Fail> {
    let alloc = rt.alloc();
    for number in 0..CASES.len() {
        let case = CASES[number];
        let mut recorders: Vec<Box<dyn Recorder>> = Vec::new(alloc);
        for made in case.made.iter().copied() {
            recorders.push(match made {
                Made::Plain => Box::new(alloc, Plain::new(alloc))?,
                Made::Shortfall => Box::new(alloc, Shortfall::new(alloc))?,
                Made::Storage => Box::new(alloc, StorageLevel::new(alloc))?,
                Made::Cut => Box::new(alloc, BindingCut::new(alloc))?,
                Made::Nine => Box::new(
                    alloc,
                    Nine {
                        text: Text::new(alloc),
                    },
                )?,
                Made::Refusing(at) => Box::new(alloc, RefusingPlain::new(alloc, at))?,
            })?;
        }
        let words = words_of(alloc, case.words)?;
        let mut shelf = shelf_of(alloc, case.tables)?;
        let mut out = MemorySink::new(alloc, 1000)?;
        let mut err = MemorySink::new(alloc, 1000)?;
        let status = adequacy(
            &rt,
            alloc,
            &words,
            &mut shelf,
            &mut MemoryConsole::new(alloc),
            &mut out,
            &mut err,
            &NoPause,
            &mut recorders,
        );
        assert_eq!(rt; status, case.status, "case {number}");
        let line = if case.status == Status::Done {
            ""
        } else {
            "recorder refused\n"
        };
        assert_eq!(rt; err.bytes(), line.as_bytes(), "case {number}");
        assert_eq!(rt; recorders.len(), case.left.len(), "case {number}");
        let mut wanted = Text::new(alloc);
        for (recorder, (kind, text)) in recorders.iter().zip(case.left) {
            assert_eq!(rt; recorder.kind(), *kind, "case {number}");
            assert_eq!(rt; recorder.text(), text.as_bytes(), "case {number}");
            if case.status == Status::Done {
                wanted.push(text.as_bytes())?;
            }
        }
        assert_eq!(rt; out.bytes(), wanted.bytes(), "case {number}");
    }
    Ok(())
}
