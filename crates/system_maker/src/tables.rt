//! The tables of a system's parts, and all seven tables.
ghost use Rattle.std.specs.Prelude.{◌≡◌, ◌<◌, ◌++◌, OnOk, IfOk};
ghost use Rattle.std.specs.List.{flat_map};
ghost use Rattle.system_model.specs.System.{zone_count, unit_count, interface_count, line_count, storage_count};
ghost use Rattle.system_maker.specs.PlainTables.{record_text, zone_row, zone_table, unit_row, unit_table, interface_row, interface_table, line_row, line_table, storage_row, storage_table, next_field, size_fields, share_fields, plain_tables};

use crate::fields::{put_limits, put_name, put_number, put_rates, put_share};
use crate::hour_tables::{Series, hour_table};
use ra_base::{OutOfMemory, TableBytes, Text};
use std::alloc::Global;
use system_model::{Storage, System};

/// The seven tables of a system.
pub(crate) fn plain_tables(alloc: Global, system: &System) -> Result<TableBytes, OutOfMemory>
    ensures { IfOk result (λ tables. tables ≡ plain_tables system.now) }
{
    Ok(TableBytes {
        zones: Some(zone_table(alloc, system)?),
        units: Some(unit_table(alloc, system)?),
        interfaces: Some(interface_table(alloc, system)?),
        lines: Some(line_table(alloc, system)?),
        storages: Some(storage_table(alloc, system)?),
        load: Some(hour_table(alloc, system, Series::Load)?),
        variable: Some(hour_table(alloc, system, Series::Variable)?),
    })
}

// The table of zones.
#[tactic(auto, unfolding(crate::specs::PlainTables::zone_table), using(decimal_text::proofs::Growing::text_steps))]
fn zone_table(alloc: Global, system: &System) -> Result<Text, OutOfMemory>
    ensures { IfOk result (λ text. text ≡ zone_table system.now) }
{
    let mut out = Text::new(alloc);
    out.push(b"name\n")?;
    for at in 0..system.zones() {
        out.push(system.zone_name(at))?;
        out.push(b"\n")?;
    }
    Ok(out)
}

// The table of units.
#[tactic(auto, unfolding(crate::specs::PlainTables::unit_table), using(decimal_text::proofs::Growing::text_steps))]
fn unit_table(alloc: Global, system: &System) -> Result<Text, OutOfMemory>
    ensures { IfOk result (λ text. text ≡ unit_table system.now) }
{
    let mut out = Text::new(alloc);
    out.push(b"name,zone,capacity,failure,repair\n")?;
    for at in 0..system.units() {
        put_unit(&mut out, system, at)?;
    }
    Ok(out)
}

// The record of a unit.
#[tactic(auto, unfolding(crate::specs::PlainTables::unit_row), using(decimal_text::proofs::Growing::text_steps))]
fn put_unit(out: &mut Text, system: &System, at: u32) -> Result<(), OutOfMemory>
    requires { at < unit_count system.now }
    ensures { OnOk result (out.new ≡ out.old ++ record_text (unit_row system.now at)) }
{
    let unit = system.unit(at);
    out.push(system.unit_name(at))?;
    put_name(out, system.zone_name(unit.zone))?;
    put_number(out, unit.capacity)?;
    put_rates(out, unit.rates)
}

// The table of interfaces.
#[tactic(auto, unfolding(crate::specs::PlainTables::interface_table), using(decimal_text::proofs::Growing::text_steps))]
fn interface_table(alloc: Global, system: &System) -> Result<Text, OutOfMemory>
    ensures { IfOk result (λ text. text ≡ interface_table system.now) }
{
    let mut out = Text::new(alloc);
    out.push(b"name,from,to,forward,backward\n")?;
    for at in 0..system.interfaces() {
        put_interface(&mut out, system, at)?;
    }
    Ok(out)
}

// The record of an interface.
#[tactic(auto, unfolding(crate::specs::PlainTables::interface_row), using(decimal_text::proofs::Growing::text_steps))]
fn put_interface(out: &mut Text, system: &System, at: u32) -> Result<(), OutOfMemory>
    requires { at < interface_count system.now }
    ensures { OnOk result (out.new ≡ out.old ++ record_text (interface_row system.now at)) }
{
    let interface = system.interface(at);
    out.push(system.interface_name(at))?;
    put_name(out, system.zone_name(interface.from))?;
    put_name(out, system.zone_name(interface.to))?;
    put_limits(out, interface.forward, interface.backward)?;
    out.push(b"\n")
}

// The table of lines.
#[tactic(auto, unfolding(crate::specs::PlainTables::line_table), using(decimal_text::proofs::Growing::text_steps))]
fn line_table(alloc: Global, system: &System) -> Result<Text, OutOfMemory>
    ensures { IfOk result (λ text. text ≡ line_table system.now) }
{
    let mut out = Text::new(alloc);
    out.push(b"name,interface,forward,backward,failure,repair\n")?;
    for at in 0..system.lines() {
        put_line(&mut out, system, at)?;
    }
    Ok(out)
}

// The record of a line.
#[tactic(auto, unfolding(crate::specs::PlainTables::line_row), using(decimal_text::proofs::Growing::text_steps))]
fn put_line(out: &mut Text, system: &System, at: u32) -> Result<(), OutOfMemory>
    requires { at < line_count system.now }
    ensures { OnOk result (out.new ≡ out.old ++ record_text (line_row system.now at)) }
{
    let line = system.line(at);
    out.push(system.line_name(at))?;
    put_name(out, system.interface_name(u32::from(line.interface)))?;
    put_limits(out, line.forward, line.backward)?;
    put_rates(out, line.rates)
}

// The table of storages.
#[tactic(auto, unfolding(crate::specs::PlainTables::storage_table), using(decimal_text::proofs::Growing::text_steps))]
fn storage_table(alloc: Global, system: &System) -> Result<Text, OutOfMemory>
    ensures { IfOk result (λ text. text ≡ storage_table system.now) }
{
    let mut out = Text::new(alloc);
    out.push(b"name,zone,charge,discharge,energy_kwh,start_kwh,")?;
    out.push(b"charge_efficiency,discharge_efficiency,carryover,failure,repair\n")?;
    for at in 0..system.storages() {
        put_storage(&mut out, system, at)?;
    }
    Ok(out)
}

// The record of a storage.
#[tactic(auto, unfolding(crate::specs::PlainTables::storage_row), using(decimal_text::proofs::Growing::text_steps))]
fn put_storage(out: &mut Text, system: &System, at: u32) -> Result<(), OutOfMemory>
    requires { at < storage_count system.now }
    ensures { OnOk result (out.new ≡ out.old ++ record_text (storage_row system.now at)) }
{
    let storage = system.storage(at);
    out.push(system.storage_name(at))?;
    put_name(out, system.zone_name(storage.zone))?;
    put_sizes(out, storage)?;
    put_shares(out, storage)?;
    put_rates(out, storage.rates)
}

// How much a storage takes and gives in an hour, what it holds and what it starts with.
#[tactic(auto, using(decimal_text::proofs::Growing::text_steps))]
fn put_sizes(out: &mut Text, storage: Storage) -> Result<(), OutOfMemory>
    ensures { OnOk result (out.new ≡ out.old ++ flat_map next_field (size_fields storage)) }
{
    put_number(out, storage.charge)?;
    put_number(out, storage.discharge)?;
    put_number(out, storage.energy)?;
    put_number(out, storage.start)
}

// What a storage loses.
#[tactic(auto, using(decimal_text::proofs::Growing::text_steps))]
fn put_shares(out: &mut Text, storage: Storage) -> Result<(), OutOfMemory>
    ensures { OnOk result (out.new ≡ out.old ++ flat_map next_field (share_fields storage)) }
{
    put_share(out, storage.charge_eff)?;
    put_share(out, storage.discharge_eff)?;
    put_share(out, storage.carry)
}
