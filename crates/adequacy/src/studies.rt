//! The answer to a study: its samples are simulated by workers, and the text of their totals is written.
ghost use Rattle.std.specs.Prelude.{◌≡◌, ◌++◌, ℕ, All, IfOk, List, length};
ghost use Rattle.adequacy.specs.Commands.{check_text};
ghost use Rattle.adequacy.specs.LineParts.{LineParts};
ghost use Rattle.adequacy.specs.Requests.{AreStudyTerms};
ghost use Rattle.adequacy.specs.StudyText.{IsStudyText, HasStudied, work_of};
ghost use Rattle.sample_run.specs.SampleWorks.{IsWorkOf};

use crate::commands::make_check_text;
use crate::words::StudyTerms;
use campaign_workers::study;
use ra_base::{OutOfMemory, Pause, Text};
use report_text::put_totals;
use sample_run::{Runner, SampleWork};
use sample_totals::Totals;
use std::alloc::Global;
use std::sync::Wait;
use std::thread::Threads;
use system_model::System;

/// The text of the totals over a study's samples: so many first, and as many more again and again until
/// they are enough or the most. It may wait for its workers.
pub(crate) fn make_study_text<T: Threads + Wait + Sync, P: Pause + Sync>(
    rt: &T,
    alloc: Global,
    system: &System,
    terms: StudyTerms,
    pause: &P,
) -> Result<Text, OutOfMemory>
    requires terms { (line : LineParts) × AreStudyTerms line terms }
    ensures { IfOk result (IsStudyText system.now terms) }
{
    let totals = study_totals(rt, alloc, system, terms, pause)?;
    let mut text = Text::new(alloc);
    put_totals(&mut text, system, &totals)?;
    Ok(text)
}

/// The text of a trial: the line of a check of its system, and then the text of a study of it. It may wait for
/// its workers.
pub(crate) fn make_trial_text<T: Threads + Wait + Sync, P: Pause + Sync>(
    rt: &T,
    alloc: Global,
    system: &System,
    terms: StudyTerms,
    pause: &P,
) -> Result<Text, OutOfMemory>
    requires terms { (line : LineParts) × AreStudyTerms line terms }
    ensures { IfOk result (λ text. (totals : List ℕ) × IsStudyText system.now terms totals
        × (text ≡ check_text system.now ++ totals)) }
{
    let mut text = make_check_text(alloc, system)?;
    let totals = study_totals(rt, alloc, system, terms, pause)?;
    put_totals(&mut text, system, &totals)?;
    Ok(text)
}

// The totals over a study's samples, simulated by so many workers.
fn study_totals<T: Threads + Wait + Sync, P: Pause + Sync>(
    rt: &T,
    alloc: Global,
    system: &System,
    terms: StudyTerms,
    pause: &P,
) -> Result<Totals, OutOfMemory>
    requires terms { (line : LineParts) × AreStudyTerms line terms }
    ensures { IfOk result (HasStudied system.now terms) }
{
    let runners = make_runners(alloc, system, terms)?;
    let work = SampleWork::new(system, terms.seed, terms.precision);
    study(
        rt,
        alloc,
        work,
        runners,
        terms.samples,
        terms.block,
        terms.most,
        pause,
    )
}

// A runner for each worker, which serves the study's work.
fn make_runners<'a>(
    alloc: Global,
    system: &'a System,
    terms: StudyTerms,
) -> Result<Vec<Runner<'a>>, OutOfMemory>
    ensures many { IfOk result (λ runners. length runners.items ≡ terms.workers) }
    ensures serve { IfOk result (λ runners.
        All (λ runner. IsWorkOf runner (work_of system.now terms)) runners.items) }
{
    let mut runners = Vec::new(alloc);
    for _ in 0..terms.workers {
        runners.push(Runner::new(alloc, system, terms.seed)?)?;
    }
    Ok(runners)
}
