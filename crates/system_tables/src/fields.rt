//! Fields by the kind of their column.
ghost use Rattle.std.specs.Prelude.{◌≡◌, ◌+◌, ◌^◌, ◌<◌, ◌≤◌, ◌∷◌, ◌++◌, [], length, nat_lt, ℕ, IfOk, OnOk};
ghost use Rattle.ra_base.specs.declared.limits.TheConstants.{BILLION, THOUSAND, MOST_POOLED_MW};
ghost use Rattle.system_model.specs.System.{IsName};
ghost use Rattle.system_tables.specs.Columns.{field_of};
ghost use Rattle.system_tables.specs.Fields.{number, ranged, whole_in, value_in, probability_in, share_in, rates_in, some_rate_in, name_bytes_in, name_in, zone_name_in, reference_in, AreInRange};
ghost use Rattle.system_tables.specs.Faults.{fault_at, refuse, shape_in};
ghost use Rattle.system_tables.specs.Outcome.{Gives, GivesNow};

use crate::columns::FoundColumn;
use crate::faults::{Cause, Column, Place, ReadError, TableFault, refuse};
use crate::names::Names;
use crate::numbers::whole_number;
use crate::records::Records;
use decimal_text::{NumberFault, read_billionths};
use ra_base::limits::{BILLION, MOST_NAME_BYTES, MOST_POOLED_MW, THOUSAND};
use system_model::Rates;

/// The columns of the rates with which a component fails and is repaired.
#[derive(Clone, Copy)]
pub(crate) struct RateColumns {
    pub(crate) failure: FoundColumn,
    pub(crate) repair: FoundColumn,
}

/// A row within the limit, with as many fields as the header.
#[tactic(auto, unfolding(crate::specs::Faults::shape_in))]
pub(crate) fn shape(
    place: Place,
    limit: u32,
    count: u32,
    width: usize,
    row: &Records<'_>,
) -> Result<(), TableFault>
    ensures exact { result ≡ shape_in place limit count width row.now.row }
    ensures room { OnOk result (count < limit) }
{
    refuse(
        limit <= count,
        place.fault(Column::Whole, Cause::TooMany { limit }),
    )?;
    refuse(
        row.len() != width,
        place.fault(Column::Whole, Cause::FieldCount),
    )
}

// The number, or its fault.
fn number(place: Place, column: Column, read: Result<u64, NumberFault>) -> Result<u64, TableFault>
    ensures exact { result ≡ number place column read }
    ensures same { (most : ℕ) → IfOk read (λ value. value ≤ most) → IfOk result (λ value. value ≤ most) }
{
    match read {
        Ok(value) => Ok(value),
        Err(fault) => Err(place.fault(column, Cause::Number(fault))),
    }
}

// The value, unless it passes a bound.
#[tactic(auto, unfolding(crate::specs::Fields::ranged))]
fn ranged(place: Place, column: Column, low: u64, most: u64, value: u64) -> Result<u64, TableFault>
    ensures exact { result ≡ ranged place column low most value }
    ensures within { IfOk result (AreInRange low most) }
{
    refuse(
        value < low,
        place.fault(column, Cause::OutOfRange { value, limit: low }),
    )?;
    refuse(
        most < value,
        place.fault(column, Cause::OutOfRange { value, limit: most }),
    )?;
    Ok(value)
}

/// A whole number in the column's range.
#[tactic(auto, unfolding(crate::specs::Fields::whole_in))]
pub(crate) fn whole(
    place: Place,
    found: FoundColumn,
    row: &Records<'_>,
    low: u64,
    most: u64,
) -> Result<u64, TableFault>
    ensures exact { result ≡ whole_in place found low most row.now.row }
    ensures within { IfOk result (AreInRange low most) }
{
    let value = number(place, found.column, whole_number(row.field(found.at)))?;
    ranged(place, found.column, low, most, value)
}

/// A whole number that is compared with another field of its row.
#[tactic(auto, unfolding(crate::specs::Fields::value_in))]
pub(crate) fn value(place: Place, found: FoundColumn, row: &Records<'_>) -> Result<u64, TableFault>
    ensures exact { result ≡ value_in place found row.now.row }
    ensures small { IfOk result (λ value. value ≤ 10 ^ 18) }
{
    number(place, found.column, whole_number(row.field(found.at)))
}

/// That what the rows have together so far isn't past the limit.
pub(crate) fn pooled_within(place: Place, found: FoundColumn, sum: u32) -> Result<(), TableFault>
    ensures exact { result ≡ refuse (nat_lt MOST_POOLED_MW sum)
        (fault_at place found.column (Cause.OutOfRange sum MOST_POOLED_MW)) }
    ensures within { OnOk result (sum ≤ MOST_POOLED_MW) }
{
    refuse(
        MOST_POOLED_MW < sum,
        place.fault(
            found.column,
            Cause::OutOfRange {
                value: u64::from(sum),
                limit: u64::from(MOST_POOLED_MW),
            },
        ),
    )
}

// A probability in billionths.
#[tactic(auto, unfolding(crate::specs::Fields::probability_in))]
fn probability(place: Place, found: FoundColumn, row: &Records<'_>) -> Result<u64, TableFault>
    ensures exact { result ≡ probability_in place found row.now.row }
    ensures within { IfOk result (AreInRange 0 BILLION) }
{
    let value = number(place, found.column, read_billionths(row.field(found.at)))?;
    ranged(place, found.column, 0, u64::from(BILLION), value)
}

/// An efficiency or a carryover in thousandths.
#[tactic(auto, unfolding(crate::specs::Fields::share_in))]
pub(crate) fn share(place: Place, found: FoundColumn, row: &Records<'_>) -> Result<u64, TableFault>
    ensures exact { result ≡ share_in place found row.now.row }
    ensures within { IfOk result (AreInRange 1 THOUSAND) }
{
    let value = number(place, found.column, read_billionths(row.field(found.at)))?;
    ranged(
        place,
        found.column,
        1,
        u64::from(THOUSAND),
        value / 1_000_000,
    )
}

/// The rates of a row.
#[tactic(auto, unfolding(crate::specs::Fields::rates_in))]
pub(crate) fn rates(
    place: Place,
    columns: RateColumns,
    row: &Records<'_>,
) -> Result<Rates, TableFault>
    ensures exact { result ≡ rates_in place columns row.now.row }
    ensures failure { IfOk result (λ rates. rates.f ≤ BILLION) }
    ensures repair { IfOk result (λ rates. rates.r ≤ BILLION) }
{
    let f = probability(place, columns.failure, row)?;
    let r = probability(place, columns.repair, row)?;
    Ok(Rates {
        f: f as u32,
        r: r as u32,
    })
}

/// That not both rates are 0.
#[tactic(auto, unfolding(crate::specs::Fields::some_rate_in))]
pub(crate) fn some_rate(place: Place, columns: RateColumns, rates: Rates) -> Result<(), TableFault>
    ensures exact { result ≡ some_rate_in place columns rates }
    ensures some { OnOk result (0 < rates.f + rates.r) }
{
    refuse(
        rates.f == 0 && rates.r == 0,
        place.fault(columns.repair.column, Cause::BothRatesZero),
    )
}

// A name of 1 to 64 bytes.
#[tactic(auto, unfolding(crate::specs::Fields::name_bytes_in))]
fn name_bytes(place: Place, column: Column, name: &[u8]) -> Result<(), TableFault>
    ensures exact { result ≡ name_bytes_in place column name.now }
    ensures name { OnOk result (IsName name.now) }
{
    refuse(name.is_empty(), place.fault(column, Cause::Empty))?;
    let most = MOST_NAME_BYTES as usize;
    refuse(
        most < name.len(),
        place.fault(
            column,
            Cause::OutOfRange {
                value: name.len() as u64,
                limit: u64::from(MOST_NAME_BYTES),
            },
        ),
    )
}

/// A name that differs from those above it, which it joins.
#[tactic(auto, unfolding(crate::specs::Fields::name_in))]
pub(crate) fn new_name(
    place: Place,
    found: FoundColumn,
    row: &Records<'_>,
    names: &mut Names,
) -> Result<(), ReadError>
    ensures exact { GivesNow (name_in place found names.old row.now.row) result (field_of found row.now.row) }
    ensures added { OnOk result (names.new ≡ names.old ++ field_of found row.now.row ∷ []) }
    ensures name { OnOk result (IsName (field_of found row.now.row)) }
{
    let name = row.field(found.at);
    name_bytes(place, found.column, name)?;
    let is_new = names.add(name)?;
    refuse(!is_new, place.fault(found.column, Cause::NameTwice))?;
    Ok(())
}

/// The name of a zone, which isn't `hour` either.
#[tactic(auto, unfolding(crate::specs::Fields::zone_name_in))]
pub(crate) fn new_zone_name(
    place: Place,
    found: FoundColumn,
    row: &Records<'_>,
    names: &mut Names,
) -> Result<(), ReadError>
    ensures exact { GivesNow (zone_name_in place found names.old row.now.row) result
        (field_of found row.now.row) }
    ensures added { OnOk result (names.new ≡ names.old ++ field_of found row.now.row ∷ []) }
    ensures name { OnOk result (IsName (field_of found row.now.row)) }
{
    refuse(
        row.field(found.at) == b"hour".as_slice(),
        place.fault(found.column, Cause::NameTwice),
    )?;
    new_name(place, found, row, names)
}

/// The place of the row that has this name.
#[tactic(auto, unfolding(crate::specs::Fields::reference_in))]
pub(crate) fn reference(
    place: Place,
    found: FoundColumn,
    row: &Records<'_>,
    names: &Names,
) -> Result<u8, TableFault>
    requires { length names.now ≤ 255 }
    ensures exact { result ≡ reference_in place found names.now row.now.row }
    ensures within { IfOk result (λ at. at < length names.now) }
{
    match names.place(row.field(found.at)) {
        Some(at) => Ok(at as u8),
        None => Err(place.fault(found.column, Cause::NameUnknown)),
    }
}
