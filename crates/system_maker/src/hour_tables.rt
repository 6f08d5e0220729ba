//! The tables of load and of variable generation.
ghost use Rattle.std.specs.Prelude.{◌≡◌, ◌<◌, ◌++◌, map, slice_index, OnOk, IfOk};
ghost use Rattle.std.specs.List.{flat_map};
ghost use Rattle.decimal_text.specs.DecimalText.{whole_text};
ghost use Rattle.system_model.specs.System.{zone_count, hour_count, hour_at};
ghost use Rattle.system_maker.specs.PlainTables.{next_field, record_text, series_amounts, hour_row, hour_header, hour_table};

use crate::fields::{put_name, put_number};
use decimal_text::put_whole;
use ra_base::{OutOfMemory, Text};
use std::alloc::Global;
use system_model::System;

/// What a table by hours tells.
#[derive(Clone, Copy, Debug, PartialEq, Eq)]
pub(crate) enum Series {
    Load,
    Variable,
}

/// A table by hours.
#[tactic(auto, unfolding(crate::specs::PlainTables::hour_table), using(decimal_text::proofs::Growing::text_steps))]
pub(crate) fn hour_table(
    alloc: Global,
    system: &System,
    series: Series,
) -> Result<Text, OutOfMemory>
    ensures { IfOk result (λ text. text ≡ hour_table series system.now) }
{
    let mut out = Text::new(alloc);
    put_header(&mut out, system)?;
    for hour in 0..system.hours() {
        put_hour(&mut out, system, series, hour)?;
    }
    Ok(out)
}

// The header, which names the zones.
#[tactic(auto, unfolding(crate::specs::PlainTables::hour_header), using(decimal_text::proofs::Growing::text_steps))]
fn put_header(out: &mut Text, system: &System) -> Result<(), OutOfMemory>
    ensures { OnOk result (out.new ≡ out.old ++ record_text (hour_header system.now)) }
{
    out.push(b"hour")?;
    for zone in 0..system.zones() {
        put_name(out, system.zone_name(zone))?;
    }
    out.push(b"\n")
}

// The record of an hour.
#[tactic(auto, unfolding(crate::specs::PlainTables::hour_row), using(decimal_text::proofs::Growing::text_steps))]
fn put_hour(out: &mut Text, system: &System, series: Series, hour: u32) -> Result<(), OutOfMemory>
    requires { hour < hour_count system.now }
    ensures { OnOk result (out.new ≡ out.old ++ record_text (hour_row series system.now hour)) }
{
    put_whole(out, u128::from(hour))?;
    for zone in 0..system.zones() {
        put_number(out, amount(system, series, hour, zone))?;
    }
    out.push(b"\n")
}

// A zone's amount in an hour, in MW.
fn amount(system: &System, series: Series, hour: u32, zone: u8) -> u32
    requires hour { hour < hour_count system.now }
    requires zone { zone < zone_count system.now }
    ensures { result ≡ slice_index (series_amounts series (hour_at system.now hour)) zone }
{
    match series {
        Series::Load => system.load(hour, zone),
        Series::Variable => system.variable(hour, zone),
    }
}
