use crate::systems::one_zone;
use analytic_index::{Analysis, Index, NewUnit};
use fixed_interval::{Enclosure, put_high, put_low};
use ra_base::{OutOfMemory, Text};
use std::alloc::Global;
use std::process::Abort;
use system_model::Rates;

fn low_text(alloc: Global, a: Enclosure) -> Result<Text, OutOfMemory> {
    let mut text = Text::new(alloc);
    put_low(&mut text, a)?;
    Ok(text)
}

fn high_text(alloc: Global, a: Enclosure) -> Result<Text, OutOfMemory> {
    let mut text = Text::new(alloc);
    put_high(&mut text, a)?;
    Ok(text)
}

fn expect_text(rt: &impl Abort, text: Result<Text, OutOfMemory>, want: &str) {
    match text {
        Ok(text) => assert!(rt; text.bytes() == want.as_bytes(), "{want}"),
        Err(OutOfMemory) => panic!(rt; "out of memory"),
    }
}

fn expect_index(rt: &(impl Abort + AllocGlobal), index: Index, want: [&str; 4]) {
    expect_text(rt, low_text(rt.alloc(), index.lole), want[0]);
    expect_text(rt, high_text(rt.alloc(), index.lole), want[1]);
    expect_text(rt, low_text(rt.alloc(), index.eue), want[2]);
    expect_text(rt, high_text(rt.alloc(), index.eue), want[3]);
}

const FIFTIETH: (u32, u32) = (20_000_000, 980_000_000);

// Units of 3, 3 and 5 MW, each out a fiftieth of the time, lack 0.043576 MW of 8 MW. A unit of 100 MW that is out
// a fiftieth of the time lacks 0.02 * 80 MW of 80 MW, and with 50 MW more that are out a quarter of the time
// 0.02 * (0.75 * 30 + 0.25 * 80). Shifts by 37 and 38 MW leave 0.02 * 43 and 0.02 * 42. In the last system the
// second hour asks nothing, and the third lacks 20 MW more than its unit gives.
#[test]
fn indices_are_those_of_the_states(rt: HostRuntime) {
    let (f, r) = FIFTIETH;
    let quarter = NewUnit {
        capacity: 50,
        rates: Rates {
            f: 250_000_000,
            r: 750_000_000,
        },
    };
    let hundred: &[(u32, u32, u32)] = &[(100, f, r)];
    let cases: [(
        &[(u32, u32, u32)],
        &[(u32, u32)],
        Option<NewUnit>,
        u32,
        u32,
        [&str; 4],
    ); 6] = [
        (
            &[(3, f, r), (3, f, r), (5, f, r)],
            &[(8, 0)],
            None,
            0,
            0,
            [
                "0.020391999999",
                "0.020392000001",
                "0.043575999999",
                "0.043576000001",
            ],
        ),
        (
            hundred,
            &[(80, 0)],
            Some(quarter),
            0,
            0,
            [
                "0.019999999999",
                "0.020000000001",
                "0.849999999999",
                "0.850000000001",
            ],
        ),
        (
            hundred,
            &[(80, 0)],
            None,
            37,
            0,
            [
                "0.019999999999",
                "0.020000000001",
                "0.859999999999",
                "0.860000000001",
            ],
        ),
        (
            hundred,
            &[(80, 0)],
            None,
            38,
            0,
            [
                "0.019999999999",
                "0.020000000001",
                "0.839999999999",
                "0.840000000001",
            ],
        ),
        (
            hundred,
            &[(80, 0)],
            None,
            0,
            30,
            [
                "1.000000000000",
                "1.000000000000",
                "11.999999999999",
                "12.000000000001",
            ],
        ),
        (
            hundred,
            &[(80, 0), (10, 30), (150, 30)],
            None,
            0,
            0,
            [
                "1.019999999999",
                "1.020000000001",
                "23.599999999999",
                "23.600000000001",
            ],
        ),
    ];
    for (units, hours, extra, less, more, want) in cases {
        match one_zone(&rt, rt.alloc(), units, hours) {
            Ok(system) => match Analysis::new(rt.alloc(), &system, extra) {
                Ok(analysis) => {
                    assert!(rt; less <= 200_000 && more <= 200_000);
                    expect_index(&rt, analysis.index_shifted(less, more), want);
                }
                Err(OutOfMemory) => panic!(rt; "out of memory"),
            },
            Err(OutOfMemory) => panic!(rt; "out of memory"),
        }
    }
}
