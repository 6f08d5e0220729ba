use fixed_interval::{Enclosure, put_high, put_low};
use outage_table::*;
use ra_base::{OutOfMemory, Text};
use std::alloc::Global;
use std::process::Abort;
use system_model::Rates;

// Units of 3, 3 and 5 MW, each out a fiftieth of the time.
fn three_units(alloc: Global) -> Result<OutageTable, AddError> {
    let rates = Rates {
        f: 20_000_000,
        r: 980_000_000,
    };
    let mut table = match OutageTable::empty(alloc) {
        Ok(table) => table,
        Err(OutOfMemory) => return Err(AddError::OutOfMemory),
    };
    for capacity in [3, 3, 5] {
        table.add_unit(capacity, rates)?;
    }
    Ok(table)
}

fn low_and_high(alloc: Global, a: Enclosure) -> Result<(Text, Text), OutOfMemory> {
    let mut low = Text::new(alloc);
    let mut high = Text::new(alloc);
    put_low(&mut low, a)?;
    put_high(&mut high, a)?;
    Ok((low, high))
}

fn expect_ends(rt: &(impl Abort + AllocGlobal), a: Enclosure, want_low: &str, want_high: &str) {
    match low_and_high(rt.alloc(), a) {
        Ok((low, high)) => {
            assert!(rt; low.bytes() == want_low.as_bytes(), "low end {want_low}");
            assert!(rt;
                high.bytes() == want_high.as_bytes(),
                "high end {want_high}"
            );
        }
        Err(OutOfMemory) => panic!(rt; "out of memory"),
    }
}

// The exact probabilities are 1, 0.058808, 0.020392, 0.001184, 0.000792, 0.000008 and 0, and the
// exact unserved energy under a need of 8 MW is 0.043576 MWh.
#[test]
fn three_units_have_these_outages(rt: HostRuntime) {
    let cases = [
        (0, "1.000000000000", "1.000000000000"),
        (1, "0.058807999999", "0.058808000001"),
        (3, "0.058807999999", "0.058808000001"),
        (4, "0.020391999999", "0.020392000001"),
        (5, "0.020391999999", "0.020392000001"),
        (6, "0.001183999999", "0.001184000001"),
        (8, "0.000791999999", "0.000792000001"),
        (11, "0.000007999999", "0.000008000001"),
        (12, "0.000000000000", "0.000000000000"),
    ];
    match three_units(rt.alloc()) {
        Ok(table) => {
            assert_eq!(rt; table.units(), 3);
            assert_eq!(rt; table.total(), 11);
            for (x, low, high) in cases {
                expect_ends(&rt, table.at_least(x), low, high);
            }
            assert!(rt; table.at_least(4) == table.at_least(5));
            expect_ends(&rt, table.unserved(8), "0.043575999999", "0.043576000001");
        }
        Err(e) => panic!(rt; "{e:?}"),
    }
}

#[test]
fn a_unit_past_the_largest_total_is_refused(rt: HostRuntime) {
    let rates = Rates { f: 1, r: 1 };
    match OutageTable::empty(rt.alloc()) {
        Ok(mut table) => {
            assert!(rt; table.add_unit(400_000, rates) == Ok(()));
            assert!(rt; table.add_unit(1, rates) == Err(AddError::TooLarge { total: 400_001 }));
            assert_eq!(rt; table.total(), 400_000);
            assert_eq!(rt; table.units(), 1);
        }
        Err(OutOfMemory) => panic!(rt; "out of memory"),
    }
}

// Six units that are seldom out: past 19 MW an outage is too improbable for a low end above 0, and
// the high ends are few units of 2^-60.
fn six_units(alloc: Global) -> Result<(OutageTable, OutageTable), AddError> {
    let rates = Rates {
        f: 100_000,
        r: 999_900_000,
    };
    let unit = |capacity| PooledUnit { capacity, rates };
    let units = [unit(3), unit(5), unit(2), unit(7), unit(4), unit(1)];
    match (
        OutageTable::of_units(alloc, &units),
        OutageTable::empty(alloc),
    ) {
        (Ok(fleet), Ok(mut table)) => {
            for unit in units {
                table.add_unit(unit.capacity, unit.rates)?;
            }
            Ok((fleet, table))
        }
        _ => Err(AddError::OutOfMemory),
    }
}

#[test]
fn a_fleet_has_the_entries_of_its_units_one_after_the_other(rt: HostRuntime) {
    match six_units(rt.alloc()) {
        Ok((fleet, table)) => {
            assert_eq!(rt; fleet.units(), 6);
            assert_eq!(rt; fleet.total(), 22);
            for x in 0..24 {
                assert!(rt; fleet.at_least(x) == table.at_least(x), "at {x}");
            }
            assert_eq!(rt;
                fleet.at_least(19),
                Enclosure {
                    low: 115,
                    high: 117
                }
            );
            assert_eq!(rt; fleet.at_least(20), Enclosure { low: 0, high: 2 });
        }
        Err(e) => panic!(rt; "{e:?}"),
    }
}
