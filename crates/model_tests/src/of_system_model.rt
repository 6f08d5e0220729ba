use ra_base::{Amounts, OutOfMemory};
use std::alloc::Global;
use system_model::{Draft, Interface, Line, Rates, Storage, System, Unit};

// A threads' value: it may move between them, and they may share it.
fn is_shared<T: Send + Sync>(_value: &T) {}

fn unit(zone: u8, capacity: u32, f: u32, r: u32) -> Unit {
    Unit {
        zone,
        capacity,
        rates: Rates { f, r },
    }
}

const TIE: Interface = Interface {
    from: 0,
    to: 1,
    forward: 400,
    backward: 300,
};

const CIRCUIT: Line = Line {
    interface: 0,
    forward: 250,
    backward: 200,
    rates: Rates {
        f: 1_000_000,
        r: 100_000_000,
    },
};

const PUMPS: Storage = Storage {
    zone: 1,
    charge: 100,
    discharge: 120,
    energy: 400_000,
    start: 200_000,
    charge_eff: 900,
    discharge_eff: 950,
    carry: 999,
    rates: Rates { f: 0, r: 1 },
};

// Two zones and two units, one interface with a line, one storage, and two hours.
fn small_system(alloc: Global) -> Result<System, OutOfMemory> {
    let mut draft = Draft::new(alloc);
    draft.push_zone(b"North")?;
    draft.push_zone(b"South")?;
    draft.push_unit(
        b"Coal",
        Unit {
            zone: 0,
            capacity: 100,
            rates: Rates {
                f: 20_000_000,
                r: 400_000_000,
            },
        },
    )?;
    draft.push_unit(
        b"Gas",
        Unit {
            zone: 1,
            capacity: 60,
            rates: Rates { f: 0, r: 1 },
        },
    )?;
    draft.push_interface(b"Tie", TIE)?;
    draft.push_line(b"Circuit", CIRCUIT)?;
    draft.push_storage(b"Pumps", PUMPS)?;
    let mut load = Amounts::zeros(alloc, 2)?;
    let mut variable = Amounts::zeros(alloc, 2)?;
    load.set(0, 70);
    load.set(1, 50);
    draft.push_hour(&load, &variable)?;
    load.set(0, 80);
    variable.set(1, 5);
    draft.push_hour(&load, &variable)?;
    Ok(draft.finish())
}

#[test]
fn a_system_has_the_parts_that_were_pushed(rt: HostRuntime) {
    let Ok(system) = small_system(rt.alloc()) else {
        panic!(rt; "no memory");
    };
    is_shared(&system);
    assert_eq!(rt; system.zones(), 2);
    assert_eq!(rt; system.units(), 2);
    assert_eq!(rt; system.interfaces(), 1);
    assert_eq!(rt; system.lines(), 1);
    assert_eq!(rt; system.storages(), 1);
    assert_eq!(rt; system.hours(), 2);
    assert_eq!(rt; system.zone_name(1), b"South".as_slice());
    assert_eq!(rt; system.unit_name(1), b"Gas".as_slice());
    assert_eq!(rt; system.interface_name(0), b"Tie".as_slice());
    assert_eq!(rt; system.line_name(0), b"Circuit".as_slice());
    assert_eq!(rt; system.storage_name(0), b"Pumps".as_slice());
    assert_eq!(rt; system.unit(0), unit(0, 100, 20_000_000, 400_000_000));
    assert_eq!(rt; system.unit(1), unit(1, 60, 0, 1));
    assert_eq!(rt; system.interface(0), TIE);
    assert_eq!(rt; system.line(0), CIRCUIT);
    assert_eq!(rt; system.storage(0), PUMPS);
    for (hour, zone, load, variable) in [
        (0, 0, 70, 0),
        (0, 1, 50, 0),
        (1, 0, 80, 0),
        (1, 1, 50, 5),
    ] {
        assert_eq!(rt; system.load(hour, zone), load, "hour {hour} zone {zone}");
        assert_eq!(rt;
            system.variable(hour, zone),
            variable,
            "hour {hour} zone {zone}"
        );
    }
}
