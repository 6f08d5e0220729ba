use crate::of_sample_run::{EMPTY, LOSSY};
use ra_base::{Amounts, OutOfMemory};
use std::alloc::Global;
use storage_state::{Caps, Storages};
use system_model::{Draft, Rates, Storage, System};

// A value that may move between threads, and that they may share.
fn is_shared<T: Send + Sync>(_value: &T) {}

// It loses a thousandth from hour to hour.
const LEAKY: Storage = Storage {
    zone: 0,
    charge: 1,
    discharge: 1,
    energy: 1_001,
    start: 1_001,
    charge_eff: 1_000,
    discharge_eff: 1_000,
    carry: 999,
    rates: Rates { f: 0, r: 1 },
};

fn small_system(alloc: Global) -> Result<System, OutOfMemory> {
    let mut draft = Draft::new(alloc);
    draft.push_zone(b"A")?;
    draft.push_storage(b"S", LOSSY)?;
    draft.push_storage(b"T", EMPTY)?;
    draft.push_storage(b"U", EMPTY)?;
    draft.push_storage(b"V", LEAKY)?;
    let nothing = Amounts::zeros(alloc, 1)?;
    draft.push_hour(&nothing, &nothing)?;
    Ok(draft.finish())
}

fn caps(charge: u32, discharge: u32) -> Caps {
    Caps { charge, discharge }
}

#[test]
fn hours_of_storages_are_known_by_hand(rt: HostRuntime) {
    let Ok(system) = small_system(rt.alloc()) else {
        panic!(rt; "no memory");
    };
    assert_eq!(rt; system.storages(), 4);
    let Ok(mut storages) = Storages::new(rt.alloc(), &system) else {
        panic!(rt; "no memory");
    };
    is_shared(&storages);
    // The storage, its caps, the charge and the discharge of the hour, and the energy after it.
    for (device, most, charge, discharge, energy) in [
        (0, caps(0, 20), 0, 20, 37_777),
        (0, caps(20, 20), 0, 20, 15_554),
        (0, caps(20, 13), 0, 13, 1_109),
        (0, caps(20, 0), 0, 0, 1_109),
        (1, caps(30, 0), 30, 0, 27_000),
        (2, caps(30, 0), 20, 0, 18_000),
        (1, caps(30, 27), 0, 20, 7_000),
        (2, caps(30, 18), 0, 0, 18_000),
    ] {
        assert!(rt; device < 4);
        let now = storages.caps(device, true);
        assert_eq!(rt; now, most, "storage {device} before {energy}");
        assert_eq!(rt; storages.caps(device, false), caps(0, 0));
        assert!(rt; charge <= now.charge && discharge <= now.discharge);
        storages.apply(device, charge, discharge);
        assert_eq!(rt; storages.energy(device), energy);
    }
    storages.carry();
    assert_eq!(rt; storages.energy(0), 1_109);
    assert_eq!(rt; storages.energy(3), 999);
    storages.reset();
    assert_eq!(rt; storages.energy(0), 60_000);
    assert_eq!(rt; storages.energy(3), 1_001);
}
