ghost use Rattle.std.specs.Prelude.{◌≡◌, IfOk, length};
ghost use Rattle.system_model.specs.System.{zone_count};

use campaign_core::{Gate, Run, Runs};
use decimal_text::NumberFault;
use ra_base::{Amounts, OutOfMemory, TableName, Text};
use report_text::{put_check, put_gate, put_interim, put_table_fault, put_totals};
use sample_totals::{HourOutcome, SampleResult, Totals};
use std::alloc::Global;
use std::process::Abort;
use std::test::Fail;
use system_model::{Draft, Rates, System, Unit};
use system_tables::{Cause, Column, TableFault};

// A system of one hour with the zones A and B, the second with a control byte behind its name. A unit of
// 70 MW stands in A, and the loads are 40 and 50 MW.
fn two_zones(alloc: Global) -> Result<System, OutOfMemory>
    ensures { IfOk result (λ s. zone_count s ≡ 2) }
{
    let mut draft = Draft::new(alloc);
    draft.push_zone(b"A")?;
    draft.push_zone(b"B\x7f")?;
    let rates = Rates {
        f: 0,
        r: 1_000_000_000,
    };
    let unit = Unit {
        zone: 0,
        capacity: 70,
        rates,
    };
    draft.push_unit(b"U", unit)?;
    let mut load = Amounts::zeros(alloc, 2)?;
    load.set(0, 40);
    load.set(1, 50);
    draft.push_hour(&load, &Amounts::zeros(alloc, 2)?)?;
    Ok(draft.finish())
}

// The result of that hour where B lacks 20 MW behind both zones as the cut, or of an hour that is served.
fn result_of(alloc: Global, is_short: bool) -> Result<SampleResult, OutOfMemory>
    ensures { IfOk result (λ r. length r.figures.zones ≡ 2) }
{
    let mut outcome = HourOutcome::new(alloc, 2, 0)?;
    if is_short {
        outcome.unserved.set(1, 20);
        outcome.cut = 3;
    }
    let mut result = SampleResult::new(alloc, 2, 1)?;
    result.add_hour(&outcome);
    Ok(result)
}

const SUMS: &[u8] = b"samples 2
hours sum 1 mean 0.500 error 0.500
days sum 1 mean 0.500 error 0.500
events sum 1 mean 0.500 error 0.500
unserved sum 20 mean 10.000 error 10.000
zone A sum 0 mean 0.000 error 0.000
zone B? sum 20 mean 10.000 error 10.000
cut A+B? hours 1 unserved 20
";

#[test]
fn totals_have_a_line_for_each_part_zone_and_cut(rt: HostRuntime) -> Result<(), Fail> {
    let system = two_zones(rt.alloc())?;
    let mut totals = Totals::new(rt.alloc(), 2)?;
    let mut text = Text::new(rt.alloc());
    put_totals(&mut text, &system, &totals)?;
    assert_eq!(rt; text.bytes(), b"samples 0\n".as_slice());
    totals.add(&result_of(rt.alloc(), true)?)?;
    let mut one = Text::new(rt.alloc());
    put_totals(&mut one, &system, &totals)?;
    let expected = b"samples 1
hours sum 1 mean 1.000 error -
days sum 1 mean 1.000 error -
events sum 1 mean 1.000 error -
unserved sum 20 mean 20.000 error -
zone A sum 0 mean 0.000 error -
zone B? sum 20 mean 20.000 error -
cut A+B? hours 1 unserved 20
";
    assert_eq!(rt; one.bytes(), expected.as_slice());
    totals.add(&result_of(rt.alloc(), false)?)?;
    let mut two = Text::new(rt.alloc());
    put_totals(&mut two, &system, &totals)?;
    assert_eq!(rt; two.bytes(), SUMS);
    Ok(())
}

#[test]
fn a_check_counts_the_parts_of_a_system(rt: HostRuntime) -> Result<(), Fail> {
    let system = two_zones(rt.alloc())?;
    let mut text = Text::new(rt.alloc());
    put_check(&mut text, &system, 90, 0)?;
    let expected =
        b"zones 2 units 1 interfaces 0 lines 0 storages 0 hours 1 capacity 70 peak 90 hour 0\n";
    assert_eq!(rt; text.bytes(), expected.as_slice());
    Ok(())
}

#[test]
fn an_interim_report_has_the_gate_the_runs_and_the_totals(rt: HostRuntime) -> Result<(), Fail> {
    let system = two_zones(rt.alloc())?;
    let mut totals = Totals::new(rt.alloc(), 2)?;
    totals.add(&result_of(rt.alloc(), true)?)?;
    totals.add(&result_of(rt.alloc(), false)?)?;
    let gate = Gate {
        next: 7,
        target: 8,
        sealed: false,
        cancelled: true,
    };
    let ranges = [Run { first: 5, last: 5 }, Run { first: 0, last: 0 }];
    let runs = Runs::of(ranges.to_vec(rt.alloc())?);
    let mut text = Text::new(rt.alloc());
    put_interim(&mut text, &system, gate, &runs, &totals)?;
    let mut expected = Text::new(rt.alloc());
    expected.push(b"gate next 7 target 8 sealed no cancelled yes\nranges 0..0 5..5\n")?;
    expected.push(SUMS)?;
    assert_eq!(rt; text.bytes(), expected.bytes());
    Ok(())
}

#[test]
fn a_report_may_have_no_runs_and_a_gate_be_sealed(rt: HostRuntime) -> Result<(), Fail> {
    let system = two_zones(rt.alloc())?;
    let totals = Totals::new(rt.alloc(), 2)?;
    let gate = Gate {
        next: 15,
        target: 15,
        sealed: true,
        cancelled: false,
    };
    let runs = Runs::of(Vec::new(rt.alloc()));
    let mut text = Text::new(rt.alloc());
    put_gate(&mut text, gate)?;
    put_interim(&mut text, &system, gate, &runs, &totals)?;
    let line = "gate next 15 target 15 sealed yes cancelled no\n";
    let mut expected = Text::new(rt.alloc());
    expected.push(line.as_bytes())?;
    expected.push(line.as_bytes())?;
    expected.push(b"ranges none\nsamples 0\n")?;
    assert_eq!(rt; text.bytes(), expected.bytes());
    Ok(())
}

fn check_fault(
    rt: &impl Abort,
    alloc: Global,
    table: TableName,
    row: u32,
    column: Column,
    cause: Cause,
    expected: &str,
) -> Result<(), OutOfMemory> {
    let fault = TableFault {
        table,
        row,
        column,
        cause,
    };
    let mut text = Text::new(alloc);
    put_table_fault(&mut text, &fault)?;
    assert_eq!(rt; text.bytes(), expected.as_bytes());
    Ok(())
}

#[test]
fn a_fault_has_its_table_row_column_and_cause(rt: HostRuntime) -> Result<(), Fail> {
    let not_whole = Cause::Number(NumberFault::NotWhole { at: 4 });
    let late = Cause::HourOrder {
        found: 3,
        wanted: 2,
    };
    let too_large = Cause::OutOfRange {
        value: 200_001,
        limit: 200_000,
    };
    for (table, row, column, cause, expected) in [
        (
            TableName::Units,
            2,
            Column::Fixed(2),
            not_whole,
            "table units row 2 column capacity: not whole at 4\n",
        ),
        (
            TableName::Units,
            4,
            Column::Whole,
            Cause::FieldCount,
            "table units row 4 column -: field count\n",
        ),
        (
            TableName::Load,
            4,
            Column::Fixed(0),
            late,
            "table load row 4 column hour: hour 3, wanted 2\n",
        ),
        (
            TableName::Units,
            3,
            Column::Fixed(2),
            too_large,
            "table units row 3 column capacity: 200001 is out of range, limit 200000\n",
        ),
        (
            TableName::Interfaces,
            2,
            Column::Fixed(2),
            Cause::SameZone,
            "table interfaces row 2 column to: same zone\n",
        ),
        (
            TableName::Variable,
            1,
            Column::Zone(3),
            Cause::ColumnMissing,
            "table variable row 1 column zone 3: column missing\n",
        ),
    ] {
        check_fault(&rt, rt.alloc(), table, row, column, cause, expected)?;
    }
    Ok(())
}
