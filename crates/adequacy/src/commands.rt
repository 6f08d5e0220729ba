//! What each command answers: the bytes of its text for a system.
ghost use Rattle.std.specs.Prelude.{◌≡◌, ◌<◌, ◌≤◌, [], IfOk, None, true, false};
ghost use Rattle.ra_base.specs.declared.limits.TheConstants.{MOST_POOLED_MW};
ghost use Rattle.analytic_index.specs.Pool.{IsNewUnit};
ghost use Rattle.adequacy.specs.declared.words.request.Request.{Request};
ghost use Rattle.adequacy.specs.Commands.{IsAnswer, check_text, waits};
ghost use Rattle.adequacy.specs.LineParts.{LineParts};
ghost use Rattle.adequacy.specs.Requests.{IsRequestOf};
ghost use Rattle.adequacy.specs.Traces.{trace_of};

use crate::words::{CreditTerms, Request};
use analytic_index::Analysis;
use capacity_credit::{Steps, credit};
use index_text::{put_bracket, put_index, put_table};
use load_model::NetLoad;
use ra_base::{OutOfMemory, Text};
use report_text::put_check;
use std::alloc::Global;
use std::marker::Brand;
use std::sync::ledger::{Blank, Ledger};
use system_model::System;

/// The bytes that answer a request for a system, other than a trace.
pub(crate) fn make_answer(
    alloc: Global,
    system: &System,
    request: Request,
) -> Result<Text, OutOfMemory>
    requires waits { waits request ≡ false }
    requires other { trace_of request ≡ None }
    requires terms { (line : LineParts) × IsRequestOf line request }
    ensures { IfOk result (IsAnswer request [] system.now) }
{
    match request {
        Request::Check => make_check_text(alloc, system),
        Request::Table => make_table_text(alloc, system),
        Request::Index => make_index_text(alloc, system),
        Request::Credit(terms) => { make_credit_text::<Brand>(alloc, Blank::new(1), system, terms) }
        Request::Trace(_) | Request::Study(_) => unreachable!(),
        Request::Trial { .. } | Request::Console(_) => unreachable!(),
    }
}

/// The line of a check.
pub(crate) fn make_check_text(alloc: Global, system: &System) -> Result<Text, OutOfMemory>
    ensures { IfOk result (λ text. text ≡ check_text system.now) }
{
    let peak = NetLoad::new(alloc, system)?.peak();
    let mut text = Text::new(alloc);
    put_check(&mut text, system, peak.mw, peak.hour)?;
    Ok(text)
}

// The capacity outage table of all units, whose ends enclose the exact probabilities.
fn make_table_text(alloc: Global, system: &System) -> Result<Text, OutOfMemory>
    ensures { IfOk result (IsAnswer Request.Table [] system.now) }
{
    let analysis = Analysis::new(alloc, system, None)?;
    let mut text = Text::new(alloc);
    put_table(&mut text, analysis.table())?;
    Ok(text)
}

// The indices of all units over all hours, whose ends enclose the exact ones.
fn make_index_text(alloc: Global, system: &System) -> Result<Text, OutOfMemory>
    ensures { IfOk result (IsAnswer Request.Index [] system.now) }
{
    let analysis = Analysis::new(alloc, system, None)?;
    let mut text = Text::new(alloc);
    put_index(&mut text, &analysis)?;
    Ok(text)
}

// The bracket of a new unit's worth. Its steps are counted on the blank's ledger, and nobody reads the count.
fn make_credit_text<L: Ledger>(
    alloc: Global,
    blank: Blank,
    system: &System,
    terms: CreditTerms,
) -> Result<Text, OutOfMemory>
    requires name { blank.name ≡ L.name }
    requires parts { blank.parts ≡ L.parts }
    requires some { 0 < blank.parts }
    requires unit { IsNewUnit terms.unit }
    requires most { terms.most ≤ MOST_POOLED_MW }
    ensures { IfOk result (IsAnswer (Request.Credit terms) [] system.now) }
{
    let mut steps = Steps::<L>::open(blank);
    let bracket = credit(
        alloc,
        system,
        &terms.unit,
        terms.kind,
        terms.measure,
        terms.most,
        &mut steps,
    )?;
    let mut text = Text::new(alloc);
    put_bracket(&mut text, terms.kind, terms.measure, &bracket)?;
    Ok(text)
}
