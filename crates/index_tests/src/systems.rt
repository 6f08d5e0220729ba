//! Small systems, as lists.

use ra_base::{Amounts, OutOfMemory};
use std::alloc::Global;
use std::process::Abort;
use system_model::{Draft, Rates, System, Unit};

/// A system with one zone: units as capacity, failure and repair rate, hours as load and variable
/// generation.
pub(crate) fn one_zone(
    rt: &impl Abort,
    alloc: Global,
    units: &[(u32, u32, u32)],
    hours: &[(u32, u32)],
) -> Result<System, OutOfMemory> {
    assert!(rt; units.len() <= 8);
    assert!(rt; !hours.is_empty() && hours.len() <= 8);
    let mut draft = Draft::new(alloc);
    draft.push_zone(b"A")?;
    'units: for (capacity, f, r) in units {
        let (capacity, f, r) = (*capacity, *f, *r);
        assert!(rt; capacity <= 25_000 && f <= 1_000_000_000 && r <= 1_000_000_000);
        assert!(rt; f > 0 || r > 0);
        let unit = Unit {
            zone: 0,
            capacity,
            rates: Rates { f, r },
        };
        draft.push_unit(b"U", unit)?;
    }
    let mut load = Amounts::zeros(alloc, 1)?;
    let mut variable = Amounts::zeros(alloc, 1)?;
    'hours: for (mw, given) in hours {
        let (mw, given) = (*mw, *given);
        assert!(rt; mw <= 200_000 && given <= 200_000);
        load.set(0, mw);
        variable.set(0, given);
        draft.push_hour(&load, &variable)?;
    }
    Ok(draft.finish())
}
