ghost use Rattle.std.specs.Prelude.{◌≡◌, ◌<◌};
ghost use Rattle.analytic_index.specs.Pool.{IsNewUnit};

use crate::systems::one_zone;
use analytic_index::NewUnit;
use capacity_credit::{Bracket, Kind, Measure, Steps, credit};
use ra_base::OutOfMemory;
use std::alloc::Global;
use std::marker::Brand;
use std::sync::ledger::{Blank, Ledger};
use system_model::{Rates, System};

// The bracket of a unit's worth, its steps counted from none.
fn counted<L: Ledger>(
    alloc: Global,
    blank: Blank,
    system: &System,
    unit: NewUnit,
    kind: Kind,
    measure: Measure,
) -> Result<Bracket, OutOfMemory>
    requires name { blank.name ≡ L.name }
    requires parts { blank.parts ≡ L.parts }
    requires some { 0 < blank.parts }
    requires unit { IsNewUnit unit }
{
    let mut steps = Steps::<L>::open(blank);
    credit(alloc, system, &unit, kind, measure, 100, &mut steps)
}

// One unit of 100 MW that is out a fiftieth of the time, under a load of 80 MW, and a new unit of 50 MW. By unserved
// energy it is worth 37.5 MW where it is out a quarter of the time, 50 MW where it never is, and nothing where it always
// is. By lost load it is worth nothing below 80 MW, from which on no hour is short.
#[test]
fn a_unit_is_worth_this_much(rt: HostRuntime) {
    let cases: [(u32, u32, Kind, Measure, Option<u32>, Option<u32>); 5] = [
        (
            250_000_000,
            750_000_000,
            Kind::Efc,
            Measure::Eue,
            Some(37),
            Some(38),
        ),
        (
            0,
            1_000_000_000,
            Kind::Efc,
            Measure::Eue,
            Some(49),
            Some(51),
        ),
        (1_000_000_000, 0, Kind::Efc, Measure::Eue, None, Some(1)),
        (
            0,
            1_000_000_000,
            Kind::Elcc,
            Measure::Eue,
            Some(49),
            Some(51),
        ),
        (0, 1_000_000_000, Kind::Efc, Measure::Lole, None, Some(80)),
    ];
    match one_zone(
        &rt,
        rt.alloc(),
        &[(100, 20_000_000, 980_000_000)],
        &[(80, 0)],
    ) {
        Ok(system) => {
            for (f, r, kind, measure, low, high) in cases {
                assert!(rt; f <= 1_000_000_000 && r <= 1_000_000_000 && f + r > 0);
                let unit = NewUnit {
                    capacity: 50,
                    rates: Rates { f, r },
                };
                match counted::<Brand>(rt.alloc(), Blank::new(1), &system, unit, kind, measure) {
                    Ok(bracket) => {
                        assert_eq!(rt; bracket.low, low);
                        assert_eq!(rt; bracket.high, high);
                    }
                    Err(OutOfMemory) => panic!(rt; "out of memory"),
                }
            }
        }
        Err(OutOfMemory) => panic!(rt; "out of memory"),
    }
}
