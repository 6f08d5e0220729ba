use outage_chronology::Chronology;
use ra_base::{Amounts, OutOfMemory};
use std::alloc::Global;
use system_model::{Draft, Interface, Line, Rates, Storage, System, Unit};

// A value that may move between threads, and that they may share.
fn is_shared<T: Send + Sync>(_value: &T) {}

const TIE: Interface = Interface {
    from: 0,
    to: 1,
    forward: 10,
    backward: 10,
};

const CIRCUIT: Line = Line {
    interface: 0,
    forward: 10,
    backward: 10,
    rates: Rates {
        f: 500_000_000,
        r: 500_000_000,
    },
};

const PUMPS: Storage = Storage {
    zone: 1,
    charge: 10,
    discharge: 10,
    energy: 1_000,
    start: 0,
    charge_eff: 900,
    discharge_eff: 900,
    carry: 1_000,
    rates: Rates {
        f: 300_000_000,
        r: 400_000_000,
    },
};

// A unit of 10 MW that is out every other hour.
const EVERY_OTHER_HOUR: Unit = Unit {
    zone: 0,
    capacity: 10,
    rates: Rates {
        f: 1_000_000_000,
        r: 1_000_000_000,
    },
};

// A unit of 10 MW that is never out.
const NEVER_OUT: Unit = Unit {
    zone: 1,
    capacity: 10,
    rates: Rates { f: 0, r: 1 },
};

// A unit that is out every other hour, one that is never out, a storage and a line, over four hours.
fn small_system(alloc: Global) -> Result<System, OutOfMemory> {
    let mut draft = Draft::new(alloc);
    draft.push_zone(b"A")?;
    draft.push_zone(b"B")?;
    draft.push_unit(b"U", EVERY_OTHER_HOUR)?;
    draft.push_unit(b"V", NEVER_OUT)?;
    draft.push_interface(b"Tie", TIE)?;
    draft.push_line(b"Circuit", CIRCUIT)?;
    draft.push_storage(b"Pumps", PUMPS)?;
    let nothing = Amounts::zeros(alloc, 2)?;
    draft.push_hour(&nothing, &nothing)?;
    draft.push_hour(&nothing, &nothing)?;
    draft.push_hour(&nothing, &nothing)?;
    draft.push_hour(&nothing, &nothing)?;
    Ok(draft.finish())
}

// The up states of both units, the storage and the line under seed 258, known from an independent
// program with a ChaCha of its own, and which of them differ from the hour before.
type Hour = ([bool; 4], &'static [u32]);

const SAMPLE_7: [Hour; 4] = [
    ([false, true, true, true], &[0]),
    ([true, true, false, false], &[0, 2, 3]),
    ([false, true, false, true], &[0, 3]),
    ([true, true, false, true], &[0]),
];

const SAMPLE_0: [Hour; 4] = [
    ([false, true, false, true], &[0, 2]),
    ([true, true, false, true], &[0]),
    ([false, true, true, true], &[0, 2]),
    ([true, true, true, false], &[0, 3]),
];

#[test]
fn components_are_up_as_an_independent_program_says(rt: HostRuntime) {
    let Ok(system) = small_system(rt.alloc()) else {
        panic!(rt; "no memory");
    };
    assert_eq!(rt; system.hours(), 4);
    assert_eq!(rt; system.units(), 2);
    assert_eq!(rt; system.storages(), 1);
    assert_eq!(rt; system.lines(), 1);
    let Ok(mut chronology) = Chronology::new(rt.alloc(), &system, 258) else {
        panic!(rt; "no memory");
    };
    is_shared(&chronology);
    for (sample, hours) in [(7, SAMPLE_7), (0, SAMPLE_0)] {
        chronology.start(sample);
        for (hour, (up, changed)) in [hours[0], hours[1], hours[2], hours[3]].iter().enumerate() {
            assert_eq!(rt; chronology.hour() as usize, hour);
            assert_eq!(rt;
                chronology.changed(),
                *changed,
                "sample {sample} hour {hour}"
            );
            assert_eq!(rt; chronology.up_masks().len(), 4);
            for component in 0..4 {
                assert_eq!(rt;
                    chronology.is_up(component),
                    up[component as usize],
                    "sample {sample} hour {hour} component {component}"
                );
            }
            if hour < 3 {
                chronology.step();
            }
        }
    }
}
