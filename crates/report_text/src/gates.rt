//! The line of a gate, and the text of an interim report.
ghost use Rattle.std.specs.Prelude.{◌≡◌, ◌++◌, length, OnOk, OnErr};
ghost use Rattle.std.specs.List.{flat_map};
ghost use Rattle.system_model.specs.System.{zone_count};
ghost use Rattle.report_text.specs.GateText.{yes_text, gate_line, run_text, ranges_text, ranges_line, interim_text};

use crate::counted::put_counted;
use crate::totals::put_totals;
use campaign_core::{Gate, Run, Runs};
use ra_base::{OutOfMemory, Text};
use sample_totals::Totals;
use system_model::System;

/// Appends the line that tells how far a campaign has come. Without memory the text stays as it was.
pub fn put_gate(out: &mut Text, gate: Gate) -> Result<(), OutOfMemory>
    ensures ok { OnOk result (out.new ≡ out.old ++ gate_line gate) }
    ensures err { OnErr result (out.new ≡ out.old) }
{
    let mut text = out.fresh();
    put_gate_line(&mut text, gate)?;
    out.append(text)
}

/// Appends an interim report: the line of the gate, the runs of the samples that were deposited, and the text
/// of their totals. Without memory the text stays as it was.
#[tactic(auto, unfolding(crate::specs::GateText::interim_text))]
pub fn put_interim(
    out: &mut Text,
    system: &System,
    gate: Gate,
    runs: &Runs,
    totals: &Totals,
) -> Result<(), OutOfMemory>
    requires zones { length totals.now.zones ≡ zone_count system.now }
    ensures ok { OnOk result (out.new
        ≡ out.old ++ interim_text system.now.zone_names gate runs.now totals.now) }
    ensures err { OnErr result (out.new ≡ out.old) }
{
    let mut text = out.fresh();
    put_gate_line(&mut text, gate)?;
    put_ranges(&mut text, runs)?;
    put_totals(&mut text, system, totals)?;
    out.append(text)
}

// The line of a gate, where the text is given up by the caller if memory isn't found.
#[tactic(auto, unfolding(crate::specs::GateText::gate_line))]
fn put_gate_line(out: &mut Text, gate: Gate) -> Result<(), OutOfMemory>
    ensures { OnOk result (out.new ≡ out.old ++ gate_line gate) }
{
    put_counted(out, b"gate next ", u64::from(gate.next))?;
    put_counted(out, b" target ", u64::from(gate.target))?;
    out.push(b" sealed ")?;
    out.push(yes_or_no(gate.sealed))?;
    out.push(b" cancelled ")?;
    out.push(yes_or_no(gate.cancelled))?;
    out.push(b"\n")
}

fn yes_or_no(is: bool) -> &'static [u8]
    ensures { result.now ≡ yes_text is }
{
    if is { b"yes" } else { b"no" }
}

// The line of the runs.
#[tactic(auto, unfolding(crate::specs::GateText::ranges_line))]
fn put_ranges(out: &mut Text, runs: &Runs) -> Result<(), OutOfMemory>
    ensures { OnOk result (out.new ≡ out.old ++ ranges_line runs.now) }
{
    out.push(b"ranges")?;
    if runs.is_empty() {
        out.push(b" none")?;
    } else {
        put_runs(out, runs)?;
    }
    out.push(b"\n")
}

// Each run, with a space in front.
#[tactic(auto, using(decimal_text::proofs::Growing::text_steps))]
fn put_runs(out: &mut Text, runs: &Runs) -> Result<(), OutOfMemory>
    ensures { OnOk result (out.new ≡ out.old ++ flat_map run_text runs.now) }
{
    for at in 0..runs.len() {
        put_run(out, runs.get(at))?;
    }
    Ok(())
}

fn put_run(out: &mut Text, run: Run) -> Result<(), OutOfMemory>
    ensures { OnOk result (out.new ≡ out.old ++ run_text run) }
{
    put_counted(out, b" ", u64::from(run.first))?;
    put_counted(out, b"..", u64::from(run.last))
}
