ghost use Rattle.std.specs.Prelude.{◌≡◌, ◌<◌};
ghost use Rattle.analytic_index.specs.Pool.{IsNewUnit};

use crate::systems::one_zone;
use analytic_index::{Analysis, NewUnit};
use capacity_credit::{Kind, Measure, Steps, credit};
use index_text::{put_bracket, put_index, put_table};
use ra_base::{OutOfMemory, Text};
use std::alloc::Global;
use std::marker::Brand;
use std::process::Abort;
use std::sync::ledger::{Blank, Ledger};
use system_model::{Rates, System};

// Both texts, the table's first.
fn texts(
    rt: &impl Abort,
    alloc: Global,
    units: &[(u32, u32, u32)],
    hours: &[(u32, u32)],
) -> Result<Text, OutOfMemory> {
    let system = one_zone(rt, alloc, units, hours)?;
    let analysis = Analysis::new(alloc, &system, None)?;
    let mut text = Text::new(alloc);
    put_table(&mut text, analysis.table())?;
    put_index(&mut text, &analysis)?;
    Ok(text)
}

const THREE_UNITS: &str = "\
units 3 total 11
outage 0 low 1.000000000000 high 1.000000000000
outage 3 low 0.058807999999 high 0.058808000001
outage 5 low 0.020391999999 high 0.020392000001
outage 6 low 0.001183999999 high 0.001184000001
outage 8 low 0.000791999999 high 0.000792000001
outage 11 low 0.000007999999 high 0.000008000001
hours 1 peak 8 hour 0
lole low 0.020391999999 high 0.020392000001
eue low 0.043575999999 high 0.043576000001
hour 0 need 8 lolp low 0.020391999999 high 0.020392000001 unserved low 0.043575999999 high 0.043576000001
";

const NO_UNITS: &str = "\
units 0 total 0
outage 0 low 1.000000000000 high 1.000000000000
hours 2 peak 5 hour 1
lole low 1.000000000000 high 1.000000000000
eue low 5.000000000000 high 5.000000000000
hour 0 need 0 lolp low 0.000000000000 high 0.000000000000 unserved low 0.000000000000 high 0.000000000000
hour 1 need 5 lolp low 1.000000000000 high 1.000000000000 unserved low 5.000000000000 high 5.000000000000
";

// Three units that are each out a fiftieth of the time; and no units, where what is needed is lacking.
#[test]
fn texts_are_written_line_by_line(rt: HostRuntime) {
    let (f, r) = (20_000_000, 980_000_000);
    let cases: [(&[(u32, u32, u32)], &[(u32, u32)], &str); 2] = [
        (&[(3, f, r), (3, f, r), (5, f, r)], &[(8, 0)], THREE_UNITS),
        (&[], &[(3, 4), (7, 2)], NO_UNITS),
    ];
    for (units, hours, want) in cases {
        match texts(&rt, rt.alloc(), units, hours) {
            Ok(text) => assert!(rt; text.bytes() == want.as_bytes(), "{want}"),
            Err(OutOfMemory) => panic!(rt; "out of memory"),
        }
    }
}

// The text of the firm capacity of 50 MW more, by unserved energy.
fn credit_text<L: Ledger>(
    alloc: Global,
    blank: Blank,
    system: &System,
    unit: NewUnit,
) -> Result<Text, OutOfMemory>
    requires name { blank.name ≡ L.name }
    requires parts { blank.parts ≡ L.parts }
    requires some { 0 < blank.parts }
    requires unit { IsNewUnit unit }
{
    let mut steps = Steps::<L>::open(blank);
    let bracket = credit(
        alloc,
        system,
        &unit,
        Kind::Efc,
        Measure::Eue,
        100,
        &mut steps,
    )?;
    let mut text = Text::new(alloc);
    put_bracket(&mut text, Kind::Efc, Measure::Eue, &bracket)?;
    Ok(text)
}

const QUARTER_OUT: &str = "\
credit efc eue
target low 0.849999999999 high 0.850000000001
low 37 at low 0.859999999999 high 0.860000000001
high 38 at low 0.839999999999 high 0.840000000001
";

const NEVER_OUT: &str = "\
credit efc eue
target low 0.599999999999 high 0.600000000001
low 49 at low 0.619999999999 high 0.620000000001
high 51 at low 0.579999999999 high 0.580000000001
";

const ALWAYS_OUT: &str = "\
credit efc eue
target low 1.599999999999 high 1.600000000001
low none
high 1 at low 1.579999999999 high 1.580000000001
";

// A unit of 100 MW that is out a fiftieth of the time, under a load of 80 MW. Exactly, 50 MW more leave
// 0.02 * (30 + 50 * chance) MW unserved, and needs less by c leave 0.02 * (80 - c).
#[test]
fn a_bracket_is_written_line_by_line(rt: HostRuntime) {
    let cases = [
        (250_000_000, 750_000_000, QUARTER_OUT),
        (0, 1_000_000_000, NEVER_OUT),
        (1_000_000_000, 0, ALWAYS_OUT),
    ];
    match one_zone(
        &rt,
        rt.alloc(),
        &[(100, 20_000_000, 980_000_000)],
        &[(80, 0)],
    ) {
        Ok(system) => {
            for (f, r, want) in cases {
                assert!(rt; f <= 1_000_000_000 && r <= 1_000_000_000 && f + r > 0);
                let unit = NewUnit {
                    capacity: 50,
                    rates: Rates { f, r },
                };
                match credit_text::<Brand>(rt.alloc(), Blank::new(1), &system, unit) {
                    Ok(text) => assert!(rt; text.bytes() == want.as_bytes(), "{want}"),
                    Err(OutOfMemory) => panic!(rt; "out of memory"),
                }
            }
        }
        Err(OutOfMemory) => panic!(rt; "out of memory"),
    }
}
