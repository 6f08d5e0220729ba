//! The table of storages.
ghost use Rattle.std.specs.Prelude.{◌≡◌, ◌+◌, ◌<◌, ◌≤◌, [], ◌∷◌, length, nat_lt, OnOk, IfOk};
ghost use Rattle.system_model.specs.Components.{IsStorageAmong};
ghost use Rattle.system_tables.specs.Faults.{fault_at, refuse, in_turn, table_in};
ghost use Rattle.system_tables.specs.Outcome.{GivesNow};
ghost use Rattle.system_tables.specs.Storages.{storage_columns_in, storage_of, storage_in, storage_rows_in, with_storages};
ghost use Rattle.system_tables.specs.SoFar.{AreLinesRead, AreStoragesRead, AreStoragesSoFar};
ghost use Rattle.system_tables.specs.Tables.{where_there};

use crate::columns::{FoundColumn, column};
use crate::faults::{Cause, Column, Place, ReadError, TableFault, refuse};
use crate::fields::{
    RateColumns, new_name, pooled_within, rates, reference, shape, share, some_rate, value, whole,
};
use crate::headers::header;
use crate::names::Names;
use crate::records::Records;
use ra_base::limits::{MOST_ENERGY_KWH, MOST_POOLED_MW, MOST_STORAGES};
use ra_base::{TableName, Text};
use std::alloc::Global;
use system_model::{Draft, Storage};

// The columns of the table.
#[derive(Clone, Copy)]
struct StorageColumns {
    name: FoundColumn,
    zone: FoundColumn,
    charge: FoundColumn,
    discharge: FoundColumn,
    energy: FoundColumn,
    start: FoundColumn,
    charge_eff: FoundColumn,
    discharge_eff: FoundColumn,
    carry: FoundColumn,
    rates: RateColumns,
}

// The columns that the header names.
#[tactic(auto, unfolding(crate::specs::Storages::storage_columns_in))]
fn storage_columns(header: &Records<'_>) -> Result<StorageColumns, TableFault>
    ensures { result ≡ storage_columns_in header.now.row }
{
    let table = TableName::Storages;
    let name = column(table, Column::Fixed(0), header, b"name")?;
    let zone = column(table, Column::Fixed(1), header, b"zone")?;
    let charge = column(table, Column::Fixed(2), header, b"charge")?;
    let discharge = column(table, Column::Fixed(3), header, b"discharge")?;
    let energy = column(table, Column::Fixed(4), header, b"energy_kwh")?;
    let start = column(table, Column::Fixed(5), header, b"start_kwh")?;
    let charge_eff = column(table, Column::Fixed(6), header, b"charge_efficiency")?;
    let discharge_eff = column(table, Column::Fixed(7), header, b"discharge_efficiency")?;
    let carry = column(table, Column::Fixed(8), header, b"carryover")?;
    let failure = column(table, Column::Fixed(9), header, b"failure")?;
    let repair = column(table, Column::Fixed(10), header, b"repair")?;
    Ok(StorageColumns {
        name,
        zone,
        charge,
        discharge,
        energy,
        start,
        charge_eff,
        discharge_eff,
        carry,
        rates: RateColumns { failure, repair },
    })
}

// The storage of a row.
#[tactic(auto, unfolding(crate::specs::Storages::storage_of))]
fn storage_of(
    place: Place,
    columns: &StorageColumns,
    zones: &Names,
    row: &Records<'_>,
) -> Result<Storage, TableFault>
    requires few { length zones.now ≤ 255 }
    ensures exact { result ≡ storage_of place columns.now zones.now row.now.row }
    ensures among { IfOk result (IsStorageAmong (length zones.now)) }
{
    let most = u64::from(MOST_POOLED_MW);
    let zone = reference(place, columns.zone, row, zones)?;
    let charge = whole(place, columns.charge, row, 0, most)?;
    let discharge = whole(place, columns.discharge, row, 0, most)?;
    let energy = whole(place, columns.energy, row, 0, u64::from(MOST_ENERGY_KWH))?;
    let start = value(place, columns.start, row)?;
    let charge_eff = share(place, columns.charge_eff, row)?;
    let discharge_eff = share(place, columns.discharge_eff, row)?;
    let carry = share(place, columns.carry, row)?;
    let rates = rates(place, columns.rates, row)?;
    start_within(place, columns.start, start, energy)?;
    some_rate(place, columns.rates, rates)?;
    Ok(Storage {
        zone,
        charge: charge as u32,
        discharge: discharge as u32,
        energy: energy as u32,
        start: start as u32,
        charge_eff: charge_eff as u16,
        discharge_eff: discharge_eff as u16,
        carry: carry as u16,
        rates,
    })
}

// That a storage doesn't start with more than it holds.
fn start_within(place: Place, found: FoundColumn, start: u64, energy: u64) -> Result<(), TableFault>
    ensures exact { result ≡ refuse (nat_lt energy start)
        (fault_at place found.column (Cause.OutOfRange start energy)) }
    ensures within { OnOk result (start ≤ energy) }
{
    refuse(
        energy < start,
        place.fault(
            found.column,
            Cause::OutOfRange {
                value: start,
                limit: energy,
            },
        ),
    )
}

// Adds the storage of the row that was read last.
#[tactic(auto, unfolding(crate::specs::Storages::storage_in))]
fn add_storage(
    draft: &mut Draft,
    names: &mut Names,
    charge: &mut u32,
    discharge: &mut u32,
    zones: &Names,
    columns: &StorageColumns,
    width: usize,
    row: &Records<'_>,
) -> Result<(), ReadError>
    requires so_far { AreStoragesSoFar draft.old zones.now names.old charge.old discharge.old }
    ensures exact { GivesNow (storage_in columns.now width draft.old row.now.row) result draft.new }
    ensures so_far { OnOk result (AreStoragesSoFar draft.new zones.now names.new charge.new discharge.new) }
{
    let count = names.len() as u32;
    let place = Place {
        table: TableName::Storages,
        row: count + 2,
    };
    shape(place, MOST_STORAGES, count, width, row)?;
    new_name(place, columns.name, row, names)?;
    let storage = storage_of(place, columns, zones, row)?;
    let charges = *charge + storage.charge;
    let discharges = *discharge + storage.discharge;
    pooled_within(place, columns.charge, charges)?;
    pooled_within(place, columns.discharge, discharges)?;
    draft.push_storage(row.field(columns.name.at), storage)?;
    *charge = charges;
    *discharge = discharges;
    Ok(())
}

// Adds the storages of the rows that are left.
fn add_storages(
    draft: &mut Draft,
    names: &mut Names,
    zones: &Names,
    columns: &StorageColumns,
    width: usize,
    rows: &mut Records<'_>,
) -> Result<(), ReadError>
    requires so_far { AreStoragesSoFar draft.old zones.now names.old 0 0 }
    ensures exact { GivesNow (in_turn (storage_in columns.now width) draft.old rows.old.rest) result
        draft.new }
    ensures so_far { OnOk result (AreStoragesRead draft.new zones.now) }
{
    let mut charge = 0;
    let mut discharge = 0;
    'rows: while rows.next()? {
        add_storage(
            draft,
            names,
            &mut charge,
            &mut discharge,
            zones,
            columns,
            width,
            rows,
        )?;
    }
    Ok(())
}

// Adds the storages of a table whose header stands in front.
#[tactic(auto, unfolding(crate::specs::Storages::storage_rows_in))]
fn read_rows(
    draft: &mut Draft,
    names: &mut Names,
    zones: &Names,
    rows: &mut Records<'_>,
) -> Result<(), ReadError>
    requires so_far { AreStoragesSoFar draft.old zones.now names.old 0 0 }
    ensures exact { GivesNow (table_in TableName.Storages rows.old.rest (storage_rows_in draft.old)) result
        draft.new }
    ensures so_far { OnOk result (AreStoragesRead draft.new zones.now) }
{
    header(TableName::Storages, rows)?;
    let columns = storage_columns(rows)?;
    let width = rows.len();
    add_storages(draft, names, zones, &columns, width, rows)
}

/// Adds the storages of the table, where there is one.
#[tactic(auto, using(crate::proofs::SoFar::start_storages), unfolding(crate::specs::Tables::where_there))]
pub(crate) fn read_storages(
    alloc: Global,
    table: &Option<Text>,
    zones: &Names,
    draft: &mut Draft,
) -> Result<(), ReadError>
    requires so_far { AreLinesRead draft.old zones.now }
    ensures exact { GivesNow (where_there with_storages draft.old table.now) result draft.new }
    ensures so_far { OnOk result (AreStoragesRead draft.new zones.now) }
{
    let Some(table) = table else {
        return Ok(());
    };
    let mut names = Names::new(alloc);
    let mut rows = Records::new(alloc, table.bytes());
    read_rows(draft, &mut names, zones, &mut rows)
}
