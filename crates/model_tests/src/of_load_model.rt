ghost use Rattle.std.specs.Prelude.{IfOk};

use load_model::{NetHour, NetLoad, Peak};
use ra_base::{Amounts, OutOfMemory};
use std::alloc::Global;
use std::process::Abort;
use system_model::{Draft, System};

// Two zones without units: each hour as the loads of both and the variable generation of both.
fn two_zones(
    rt: &impl Abort,
    alloc: Global,
    hours: &[(u32, u32, u32, u32)],
) -> Result<System, OutOfMemory> {
    assert!(rt; !hours.is_empty() && hours.len() <= 10);
    let mut draft = Draft::new(alloc);
    draft.push_zone(b"North")?;
    draft.push_zone(b"South")?;
    let mut load = Amounts::zeros(alloc, 2)?;
    let mut variable = Amounts::zeros(alloc, 2)?;
    'hours: for (north, south, wind, sun) in hours {
        let (north, south, wind, sun) = (*north, *south, *wind, *sun);
        assert!(rt; north <= 100_000 && south <= 100_000 && wind <= 100_000 && sun <= 100_000);
        load.set(0, north);
        load.set(1, south);
        variable.set(0, wind);
        variable.set(1, sun);
        draft.push_hour(&load, &variable)?;
    }
    Ok(draft.finish())
}

fn loads_of(
    rt: &impl Abort,
    alloc: Global,
    hours: &[(u32, u32, u32, u32)],
) -> Result<NetLoad, OutOfMemory> {
    let system = two_zones(rt, alloc, hours)?;
    NetLoad::new(alloc, &system)
}

// The second hour gives more than it asks, and the third needs as much as the first.
#[test]
fn needs_are_loads_less_variable_generation(rt: HostRuntime) {
    let cases: [(&[(u32, u32, u32, u32)], &[u32], u64, Peak); 3] = [
        (
            &[
                (40, 30, 10, 5),
                (20, 10, 30, 40),
                (55, 0, 0, 0),
                (7, 8, 9, 0),
            ],
            &[55, 0, 55, 6],
            116,
            Peak { mw: 55, hour: 0 },
        ),
        (
            &[(5, 5, 10, 0), (1, 0, 0, 2)],
            &[0, 0],
            0,
            Peak { mw: 0, hour: 0 },
        ),
        (
            &[(0, 1, 0, 0), (100_000, 100_000, 0, 1)],
            &[1, 199_999],
            200_000,
            Peak {
                mw: 199_999,
                hour: 1,
            },
        ),
    ];
    for (hours, needs, total, peak) in cases {
        match loads_of(&rt, rt.alloc(), hours) {
            Ok(loads) => {
                assert_eq!(rt; loads.hours() as usize, needs.len());
                for hour in 0..loads.hours() {
                    assert!(rt; needs.len() > hour as usize);
                    assert_eq!(rt; loads.need(hour), needs[hour as usize], "hour {hour}");
                }
                assert_eq!(rt; loads.total(), total);
                assert!(rt; loads.peak() == peak);
                assert_eq!(rt; loads.net_hours().len(), needs.len());
            }
            Err(OutOfMemory) => panic!(rt; "out of memory"),
        }
    }
}

// A net load below 0 is shifted before it is cut at 0.
#[test]
fn a_net_load_is_shifted_before_it_is_cut(rt: HostRuntime) {
    let hour = NetHour {
        load: 10,
        variable: 40,
    };
    assert_eq!(rt; hour.need(), 0);
    for (less, more, need) in [(0, 20, 0), (0, 31, 1), (5, 31, 0), (10, 50, 10)] {
        assert_eq!(rt; hour.shifted(less, more), need, "less {less} more {more}");
    }
}
