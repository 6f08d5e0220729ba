//! The line that tells how large a system is.
ghost use Rattle.std.specs.Prelude.{◌≡◌, ◌++◌, OnOk, OnErr};
ghost use Rattle.system_model.specs.System.{pooled_capacity};
ghost use Rattle.report_text.specs.CheckText.{network_text, further_text, peak_text, check_line};

use crate::counted::put_counted;
use ra_base::{OutOfMemory, Text};
use system_model::System;

/// Appends the line that tells how large a system is: how many zones, units, interfaces, lines, storages and
/// hours it has, its pooled unit capacity in MW, and the greatest need in MW with its first hour. Without
/// memory the text stays as it was.
pub fn put_check(
    out: &mut Text,
    system: &System,
    peak_mw: u32,
    peak_hour: u32,
) -> Result<(), OutOfMemory>
    ensures ok { OnOk result (out.new ≡ out.old ++ check_line system.now peak_mw peak_hour) }
    ensures err { OnErr result (out.new ≡ out.old) }
{
    let mut text = out.fresh();
    put_network(&mut text, system)?;
    put_further(&mut text, system)?;
    put_peak(&mut text, system, peak_mw, peak_hour)?;
    text.push(b"\n")?;
    out.append(text)
}

// How many zones, units and interfaces there are.
#[tactic(auto, unfolding(crate::specs::CheckText::network_text))]
fn put_network(out: &mut Text, system: &System) -> Result<(), OutOfMemory>
    ensures { OnOk result (out.new ≡ out.old ++ network_text system.now) }
{
    put_counted(out, b"zones ", u64::from(system.zones()))?;
    put_counted(out, b" units ", u64::from(system.units()))?;
    put_counted(out, b" interfaces ", u64::from(system.interfaces()))
}

// How many lines, storages and hours there are.
#[tactic(auto, unfolding(crate::specs::CheckText::further_text))]
fn put_further(out: &mut Text, system: &System) -> Result<(), OutOfMemory>
    ensures { OnOk result (out.new ≡ out.old ++ further_text system.now) }
{
    put_counted(out, b" lines ", u64::from(system.lines()))?;
    put_counted(out, b" storages ", u64::from(system.storages()))?;
    put_counted(out, b" hours ", u64::from(system.hours()))
}

// The pooled unit capacity, and the greatest need with its first hour.
#[tactic(auto, unfolding(crate::specs::CheckText::peak_text))]
fn put_peak(
    out: &mut Text,
    system: &System,
    peak_mw: u32,
    peak_hour: u32,
) -> Result<(), OutOfMemory>
    ensures { OnOk result (out.new ≡ out.old ++ peak_text system.now peak_mw peak_hour) }
{
    put_counted(out, b" capacity ", pooled_capacity_of(system))?;
    put_counted(out, b" peak ", u64::from(peak_mw))?;
    put_counted(out, b" hour ", u64::from(peak_hour))
}

// The capacity of all units together, in MW.
fn pooled_capacity_of(system: &System) -> u64
    ensures { result ≡ pooled_capacity system.now.units }
{
    let mut pooled = 0;
    for at in 0..system.units() {
        pooled += u64::from(system.unit(at).capacity);
    }
    pooled
}
