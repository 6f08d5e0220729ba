//! What a console line is answered, and the text of it.
ghost use Rattle.std.specs.Prelude.{◌≡◌, ◌++◌, [], ◌∷◌, IfOk, OnOk, OnErr};
ghost use Rattle.campaign.specs.Passes.{pass_of, work_of, IsOf};
ghost use Rattle.campaign_console.specs.declared.requests.Request.{Request};
ghost use Rattle.campaign_console.specs.LineTexts.{answer_text, HasZones};
ghost use Rattle.campaign_console.specs.Asks.{Adds, Replied};
ghost use Rattle.campaign_console.specs.LineCalls.{IsAskable};
ghost use Rattle.decimal_text.specs.DecimalText.{whole_text};

use crate::requests::Request;
use campaign::{Campaign, Extend, Pass};
use campaign_core::{Gate, Runs};
use decimal_text::put_whole;
use ra_base::{OutOfMemory, Text};
use report_text::{put_gate, put_interim};
use sample_run::SampleWork;
use sample_totals::Totals;
use std::alloc::Global;
use std::sync::Wait;
use system_model::System;

/// What a line is answered.
#[derive(Drop)]
pub enum Answer {
    /// How far the campaign has come.
    Progress(Gate),
    /// What was deposited so far.
    Report {
        gate: Gate,
        runs: Runs,
        totals: Totals,
    },
    /// The new target, in samples.
    Target(u32),
    /// No extension: the campaign is cancelled.
    RefusedCancelled,
    /// No extension: the campaign is sealed.
    RefusedSealed,
    /// No extension: with it the target, in samples, would be too great.
    RefusedTooMany(u32),
    Sealed,
    Cancelled,
    /// The line is too long.
    Long,
    /// The line asks for nothing that is known.
    Unknown,
}

/// Makes the call that a request asks for, if it asks for one. Without memory no call was made, and a report
/// was asked for. It may wait for the pass that has the book.
pub(crate) fn ask<'a, R: Wait>(
    rt: &R,
    alloc: Global,
    campaign: &Campaign<SampleWork<'a>>,
    pass: &mut Pass<SampleWork<'a>>,
    request: Request,
) -> Result<Answer, OutOfMemory>
    requires pass { IsOf campaign.now pass.old }
    requires opening { (pass_of pass.old).number ≡ 0 }
    requires request { IsAskable request }
    ensures pass { IsOf campaign.now pass.new }
    ensures ok { IfOk result (λ answer.
        Replied (work_of campaign.now) request answer (pass_of pass.old) (pass_of pass.new)) }
    ensures zones { IfOk result (HasZones (work_of campaign.now).system) }
    ensures lacks { OnErr result (request ≡ Request.Report) }
    ensures none { OnErr result (Adds [] (pass_of pass.old) (pass_of pass.new)) }
{
    match request {
        Request::Progress => Ok(Answer::Progress(campaign.progress(pass))),
        Request::Report => report(rt, alloc, campaign, pass),
        Request::Extend { more } => Ok(extend(rt, campaign, pass, more)),
        Request::Seal => {
            campaign.seal(pass);
            Ok(Answer::Sealed)
        }
        Request::Cancel => {
            campaign.cancel(pass);
            Ok(Answer::Cancelled)
        }
        Request::Long => Ok(Answer::Long),
        Request::Unknown => Ok(Answer::Unknown),
    }
}

// Asks for what was deposited so far.
fn report<'a, R: Wait>(
    rt: &R,
    alloc: Global,
    campaign: &Campaign<SampleWork<'a>>,
    pass: &mut Pass<SampleWork<'a>>,
) -> Result<Answer, OutOfMemory>
    requires pass { IsOf campaign.now pass.old }
    requires opening { (pass_of pass.old).number ≡ 0 }
    ensures pass { IsOf campaign.now pass.new }
    ensures ok { IfOk result (λ answer.
        Replied (work_of campaign.now) Request.Report answer (pass_of pass.old) (pass_of pass.new)) }
    ensures zones { IfOk result (HasZones (work_of campaign.now).system) }
    ensures none { OnErr result (Adds [] (pass_of pass.old) (pass_of pass.new)) }
{
    let report = campaign.interim(rt, alloc, pass)?;
    Ok(Answer::Report {
        gate: report.gate,
        runs: report.runs,
        totals: report.sum,
    })
}

// Asks for samples behind the target, again where another call came between.
fn extend<'a, R: Wait>(
    rt: &R,
    campaign: &Campaign<SampleWork<'a>>,
    pass: &mut Pass<SampleWork<'a>>,
    more: u32,
) -> Answer
    requires pass { IsOf campaign.now pass.old }
    requires opening { (pass_of pass.old).number ≡ 0 }
    requires more { IsAskable (Request.Extend more) }
    ensures pass { IsOf campaign.now pass.new }
    ensures ok { Replied (work_of campaign.now) (Request.Extend more) result
        (pass_of pass.old) (pass_of pass.new) }
    ensures zones { HasZones (work_of campaign.now).system result }
{
    for _ in rt.forever() {
        match campaign.extend(pass, more) {
            Extend::Cancelled => return Answer::RefusedCancelled,
            Extend::Sealed => return Answer::RefusedSealed,
            Extend::TooMany { target } => return Answer::RefusedTooMany(target),
            Extend::Now { target } => return Answer::Target(target),
            Extend::Moved {
                before: _,
                after: _,
            } => {}
        }
    }
    unreachable!()
}

/// Appends the text of an answer. Without memory the text stays as it was.
#[tactic(auto, unfolding(crate::specs::LineTexts::answer_text))]
pub(crate) fn put_answer(
    out: &mut Text,
    system: &System,
    answer: &Answer,
) -> Result<(), OutOfMemory>
    requires { HasZones system.now answer.now }
    ensures { OnOk result (out.new ≡ out.old ++ answer_text system.now.zone_names answer.now) }
{
    match answer {
        Answer::Progress(gate) => put_gate(out, *gate),
        Answer::Report { gate, runs, totals } => put_interim(out, system, *gate, runs, totals),
        Answer::Target(target) => put_target(out, b"target ", *target),
        Answer::RefusedCancelled => out.push(b"refused cancelled\n"),
        Answer::RefusedSealed => out.push(b"refused sealed\n"),
        Answer::RefusedTooMany(target) => put_target(out, b"refused too many target ", *target),
        Answer::Sealed => out.push(b"sealed\n"),
        Answer::Cancelled => out.push(b"cancelled\n"),
        Answer::Long => out.push(b"refused long\n"),
        Answer::Unknown => out.push(b"refused unknown\n"),
    }
}

// A line of words and a target.
fn put_target(out: &mut Text, words: &[u8], target: u32) -> Result<(), OutOfMemory>
    ensures { OnOk result (out.new ≡ out.old ++ words.now ++ whole_text target ++ 10 ∷ []) }
{
    out.push(words)?;
    put_whole(out, u128::from(target))?;
    out.push(b"\n")
}
