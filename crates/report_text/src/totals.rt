//! The text of totals.
ghost use Rattle.std.specs.Prelude.{◌≡◌, ◌<◌, ◌≤◌, ◌++◌, length, OnOk, OnErr};
ghost use Rattle.std.specs.List.{flat_map, range_with_len};
ghost use Rattle.ra_base.specs.declared.limits.TheConstants.{MOST_SAMPLES};
ghost use Rattle.system_model.specs.System.{zone_count};
ghost use Rattle.sample_totals.specs.Estimates.{AreSums};
ghost use Rattle.report_text.specs.TotalsText.{error_text, sums_text, zone_line, cut_line, sum_lines, totals_text};

use crate::names::{put_name, put_zone_set};
use decimal_text::{put_fixed, put_whole};
use ra_base::{OutOfMemory, Text};
use sample_totals::{CutRow, Part, Sums, Totals, error, mean};
use system_model::System;

/// Appends the text of a study's totals: the number of samples, and where there is one, for the hours,
/// days and events of shortfall and the unserved energy in MWh, over all zones and by zone, the sum
/// over the samples, the mean and the standard error of the mean in units with three places, and a line
/// for each cut. Without memory the text stays as it was.
#[tactic(auto, unfolding(crate::specs::TotalsText::totals_text))]
pub fn put_totals(out: &mut Text, system: &System, totals: &Totals) -> Result<(), OutOfMemory>
    requires zones { length totals.now.zones ≡ zone_count system.now }
    ensures ok { OnOk result (out.new ≡ out.old ++ totals_text system.now.zone_names totals.now) }
    ensures err { OnErr result (out.new ≡ out.old) }
{
    let mut text = out.fresh();
    text.push(b"samples ")?;
    put_whole(&mut text, u128::from(totals.samples()))?;
    text.push(b"\n")?;
    if totals.samples() > 0 {
        put_sum_lines(&mut text, system, totals)?;
    }
    out.append(text)
}

// The lines of the sums. Where memory isn't found the text is given up by the caller.
#[tactic(auto, unfolding(crate::specs::TotalsText::sum_lines))]
fn put_sum_lines(out: &mut Text, system: &System, totals: &Totals) -> Result<(), OutOfMemory>
    requires zones { length totals.now.zones ≡ zone_count system.now }
    requires some { 0 < totals.now.samples }
    ensures { OnOk result (out.new ≡ out.old ++ sum_lines system.now.zone_names totals.now) }
{
    let samples = totals.samples();
    out.push(b"hours")?;
    put_sums(out, totals.part(Part::Hours), samples)?;
    out.push(b"days")?;
    put_sums(out, totals.part(Part::Days), samples)?;
    out.push(b"events")?;
    put_sums(out, totals.part(Part::Events), samples)?;
    out.push(b"unserved")?;
    put_sums(out, totals.part(Part::Unserved), samples)?;
    put_zones(out, system, totals)?;
    put_cuts(out, system, totals.cuts())
}

#[tactic(auto, using(decimal_text::proofs::Growing::text_steps))]
fn put_zones(out: &mut Text, system: &System, totals: &Totals) -> Result<(), OutOfMemory>
    requires zones { length totals.now.zones ≡ zone_count system.now }
    requires some { 0 < totals.now.samples }
    ensures { OnOk result (out.new ≡ out.old
        ++ flat_map (zone_line system.now.zone_names totals.now) (range_with_len 0 (zone_count system.now))) }
{
    for zone in 0..system.zones() {
        put_zone(out, system, totals, zone)?;
    }
    Ok(())
}

#[tactic(auto, unfolding(crate::specs::TotalsText::zone_line))]
fn put_zone(out: &mut Text, system: &System, totals: &Totals, zone: u8) -> Result<(), OutOfMemory>
    requires zone { zone < zone_count system.now }
    requires zones { length totals.now.zones ≡ zone_count system.now }
    requires some { 0 < totals.now.samples }
    ensures { OnOk result (out.new ≡ out.old ++ zone_line system.now.zone_names totals.now zone) }
{
    out.push(b"zone ")?;
    put_name(out, system.zone_name(zone))?;
    put_sums(out, totals.zone(zone), totals.samples())
}

#[tactic(auto, using(decimal_text::proofs::Growing::text_steps))]
fn put_cuts(out: &mut Text, system: &System, cuts: &[CutRow]) -> Result<(), OutOfMemory>
    ensures { OnOk result (out.new ≡ out.old ++ flat_map (cut_line system.now.zone_names) cuts.now) }
{
    for row in cuts {
        put_cut(out, system, *row)?;
    }
    Ok(())
}

#[tactic(auto, unfolding(crate::specs::TotalsText::cut_line))]
fn put_cut(out: &mut Text, system: &System, row: CutRow) -> Result<(), OutOfMemory>
    ensures { OnOk result (out.new ≡ out.old ++ cut_line system.now.zone_names row) }
{
    out.push(b"cut ")?;
    put_zone_set(out, system, row.mask)?;
    out.push(b" hours ")?;
    put_whole(out, u128::from(row.hours))?;
    out.push(b" unserved ")?;
    put_whole(out, u128::from(row.unserved))?;
    out.push(b"\n")
}

// The rest of a line: the sum over the samples, their mean and its error.
#[tactic(auto, unfolding(crate::specs::TotalsText::sums_text))]
fn put_sums(out: &mut Text, sums: Sums, samples: u32) -> Result<(), OutOfMemory>
    requires some { 0 < samples }
    requires few { samples ≤ MOST_SAMPLES }
    requires sums { AreSums sums samples }
    ensures { OnOk result (out.new ≡ out.old ++ sums_text sums samples) }
{
    out.push(b" sum ")?;
    put_whole(out, sums.total)?;
    out.push(b" mean ")?;
    put_fixed(out, mean(sums, samples), 3)?;
    out.push(b" error ")?;
    put_error(out, error(sums, samples))?;
    out.push(b"\n")
}

fn put_error(out: &mut Text, error: Option<u128>) -> Result<(), OutOfMemory>
    ensures { OnOk result (out.new ≡ out.old ++ error_text error) }
{
    match error {
        Some(error) => put_fixed(out, error, 3),
        None => out.push(b"-"),
    }
}
