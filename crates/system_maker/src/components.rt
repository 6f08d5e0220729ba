//! The zones, units, interfaces, lines and storages of a made system.
ghost use Rattle.std.specs.Prelude.{◌≡◌, ◌+◌, ◌*◌, ◌<◌, ◌≤◌, [], ◌∷◌, ◌++◌, OnOk};
ghost use Rattle.system_model.specs.System.{SystemParts, IsUnitAmong, IsInterfaceAmong, IsLineAmong, IsStorageAmong, zone_count, unit_count, interface_count, pooled_capacity, pooled_charge, pooled_discharge};
ghost use Rattle.system_maker.specs.MadeSystem.{made_name, made_names, made_unit, made_units, made_interface, made_interfaces, made_line, made_lines, made_storage, made_storages};

use crate::names::numbered;
use ra_base::OutOfMemory;
use std::alloc::Global;
use system_model::{Draft, Interface, Line, Rates, Storage, Unit};

/// How many zones there are.
pub(crate) const ZONES: u32 = 3;

const UNITS: u32 = 96;

const INTERFACES: u32 = 3;

const LINES: u32 = 5;

const STORAGES: u32 = 2;

/// Adds the zones.
#[tactic(auto, using(crate::proofs::MadeLaws::name_steps))]
pub(crate) fn add_zones(alloc: Global, draft: &mut Draft) -> Result<(), OutOfMemory>
    requires none { draft.old.zone_names ≡ [] }
    requires before_hours { draft.old.hours ≡ [] }
    ensures { OnOk result (draft.new ≡ record draft.old { zone_names = made_names 90 3 }) }
{
    for at in 0..ZONES {
        let name = numbered(alloc, b'Z', at)?;
        draft.push_zone(name.bytes())?;
    }
    Ok(())
}

/// Adds the units.
#[tactic(auto, using(crate::proofs::MadeLaws::unit_steps))]
pub(crate) fn add_units(alloc: Global, variant: u32, draft: &mut Draft) -> Result<(), OutOfMemory>
    requires zones { zone_count draft.old ≡ 3 }
    requires none { draft.old.units ≡ [] }
    requires no_names { draft.old.unit_names ≡ [] }
    requires variant { variant < 1000 }
    ensures { OnOk result (draft.new ≡ record draft.old {
      units = made_units variant 96;
      unit_names = made_names 85 96;
    }) }
{
    for at in 0..UNITS {
        let name = numbered(alloc, b'U', at)?;
        draft.push_unit(name.bytes(), unit_of(variant, at))?;
    }
    Ok(())
}

// The unit at a place. Units stand in the zones in turn.
fn unit_of(variant: u32, at: u32) -> Unit
    requires variant { variant < 1000 }
    requires place { at < 96 }
    ensures unit { result ≡ made_unit variant at }
    ensures range { IsUnitAmong 3 result }
    ensures capacity { result.capacity ≤ 130 }
{
    Unit {
        zone: (at % ZONES) as u8,
        capacity: 20 + 10 * ((5 * at + variant) % 12),
        rates: Rates {
            f: 500_000 * (1 + at % 4),
            r: 20_000_000,
        },
    }
}

/// Adds an interface for each two zones.
#[tactic(auto, unfolding(crate::specs::MadeSystem::made_interfaces, crate::specs::MadeSystem::made_names))]
pub(crate) fn add_interfaces(alloc: Global, draft: &mut Draft) -> Result<(), OutOfMemory>
    requires zones { zone_count draft.old ≡ 3 }
    requires none { draft.old.interfaces ≡ [] }
    requires no_names { draft.old.interface_names ≡ [] }
    ensures { OnOk result (draft.new ≡ record draft.old {
      interfaces = made_interfaces;
      interface_names = made_names 73 3;
    }) }
{
    add_interface(alloc, 0, between(0, 1), draft)?;
    add_interface(alloc, 1, between(1, 2), draft)?;
    add_interface(alloc, 2, between(0, 2), draft)
}

// Adds the interface at a place.
fn add_interface(
    alloc: Global,
    at: u32,
    interface: Interface,
    draft: &mut Draft,
) -> Result<(), OutOfMemory>
    requires few { interface_count draft.old < 3 }
    requires interface { IsInterfaceAmong (zone_count draft.old) interface }
    ensures { OnOk result (draft.new ≡ record draft.old {
      interfaces = draft.old.interfaces ++ interface ∷ [];
      interface_names = draft.old.interface_names ++ made_name 73 at ∷ [];
    }) }
{
    let name = numbered(alloc, b'I', at)?;
    draft.push_interface(name.bytes(), interface)
}

// An interface between two zones.
fn between(from: u8, to: u8) -> Interface
    ensures { result ≡ made_interface from to }
{
    Interface {
        from,
        to,
        forward: 400,
        backward: 400,
    }
}

/// Adds the lines.
#[tactic(auto, using(crate::proofs::MadeLaws::line_steps))]
pub(crate) fn add_lines(alloc: Global, draft: &mut Draft) -> Result<(), OutOfMemory>
    requires interfaces { interface_count draft.old ≡ 3 }
    requires none { draft.old.lines ≡ [] }
    requires no_names { draft.old.line_names ≡ [] }
    ensures { OnOk result (draft.new ≡ record draft.old {
      lines = made_lines 5;
      line_names = made_names 76 5;
    }) }
{
    for at in 0..LINES {
        let name = numbered(alloc, b'L', at)?;
        draft.push_line(name.bytes(), line_of(at))?;
    }
    Ok(())
}

// The line at a place. Lines belong to the interfaces in turn.
fn line_of(at: u32) -> Line
    ensures line { result ≡ made_line at }
    ensures range { IsLineAmong 3 result }
{
    Line {
        interface: (at % INTERFACES) as u8,
        forward: 250,
        backward: 200,
        rates: Rates {
            f: 1_000_000,
            r: 100_000_000,
        },
    }
}

/// Adds the storages, one in each of the first zones.
#[tactic(auto, using(crate::proofs::MadeLaws::storage_steps))]
pub(crate) fn add_storages(alloc: Global, draft: &mut Draft) -> Result<(), OutOfMemory>
    requires zones { zone_count draft.old ≡ 3 }
    requires none { draft.old.storages ≡ [] }
    requires no_names { draft.old.storage_names ≡ [] }
    ensures { OnOk result (draft.new ≡ record draft.old {
      storages = made_storages 2;
      storage_names = made_names 83 2;
    }) }
{
    for zone in 0..STORAGES {
        let name = numbered(alloc, b'S', zone)?;
        draft.push_storage(name.bytes(), storage_in(zone as u8))?;
    }
    Ok(())
}

// The storage of a zone.
fn storage_in(zone: u8) -> Storage
    requires { zone < 3 }
    ensures storage { result ≡ made_storage zone }
    ensures range { IsStorageAmong 3 result }
{
    Storage {
        zone,
        charge: 100,
        discharge: 120,
        energy: 400_000,
        start: 200_000,
        charge_eff: 900,
        discharge_eff: 950,
        carry: 999,
        rates: Rates {
            f: 1_000_000,
            r: 50_000_000,
        },
    }
}
