//! The lines of a console, one after the other, each answered by a call on the campaign.
ghost use Rattle.std.specs.Prelude.{◌≡◌};
ghost use Rattle.campaign.specs.Passes.{pass_of, work_of, IsOf, Says};
ghost use Rattle.campaign_console.specs.LineEnds.{last_call, outside_of, LineRan, LinesRan, LinesCalled};
ghost use Rattle.campaign_core.specs.declared.call.Reply.{Reply};

use crate::answers::{ask, put_answer};
use crate::requests::request_of;
use campaign::{Campaign, Pass};
use ra_base::{Console, ConsoleError, Sink, Text};
use sample_run::SampleWork;
use std::alloc::Global;
use std::sync::Wait;
use system_model::System;

/// How the lines of a console ended.
#[derive(Clone, Copy, Debug, PartialEq, Eq)]
pub enum LinesEnd {
    /// All lines were read and answered.
    AllRead,
    /// A read failed.
    ReadFault,
    /// The write of an answer failed.
    WriteFault,
    /// Memory wasn't found.
    OutOfMemory,
}

/// Reads lines and answers each by a call of the opening pass, up to the end of the lines, a fault, or want
/// of memory. At the end of the lines it seals the campaign, and else it cancels it. It may wait for the pass
/// that has the book.
pub(crate) fn answer_lines<'a, R: Wait, C: Console, O: Sink>(
    rt: &R,
    alloc: Global,
    campaign: &Campaign<SampleWork<'a>>,
    pass: &mut Pass<SampleWork<'a>>,
    system: &System,
    lines: &mut C,
    out: &mut O,
) -> LinesEnd
    requires pass { IsOf campaign.now pass.old }
    requires opening { (pass_of pass.old).number ≡ 0 }
    requires system { (work_of campaign.now).system ≡ system.now }
    ensures pass { IsOf campaign.now pass.new }
    ensures lines { LinesCalled (work_of campaign.now) result
        (outside_of C.left C.answers C.faults O.held O.faults lines.old out.old)
        (outside_of C.left C.answers C.faults O.held O.faults lines.new out.new)
        (pass_of pass.old) (pass_of pass.new) }
{
    let end = read_lines(rt, alloc, campaign, pass, system, lines, out);
    mark_end(campaign, pass, end);
    end
}

// Seals the campaign where all lines were read, and else cancels it.
fn mark_end<'a>(campaign: &Campaign<SampleWork<'a>>, pass: &mut Pass<SampleWork<'a>>, end: LinesEnd)
    requires { IsOf campaign.now pass.old }
    ensures pass { IsOf campaign.now pass.new }
    ensures marked { Says (pass_of pass.old) (last_call end) Reply.Marked (pass_of pass.new) }
{
    match end {
        LinesEnd::AllRead => campaign.seal(pass),
        LinesEnd::ReadFault | LinesEnd::WriteFault | LinesEnd::OutOfMemory => campaign.cancel(pass),
    }
}

// Line after line up to an end.
fn read_lines<'a, R: Wait, C: Console, O: Sink>(
    rt: &R,
    alloc: Global,
    campaign: &Campaign<SampleWork<'a>>,
    pass: &mut Pass<SampleWork<'a>>,
    system: &System,
    lines: &mut C,
    out: &mut O,
) -> LinesEnd
    requires pass { IsOf campaign.now pass.old }
    requires opening { (pass_of pass.old).number ≡ 0 }
    requires system { (work_of campaign.now).system ≡ system.now }
    ensures pass { IsOf campaign.now pass.new }
    ensures lines { LinesRan (work_of campaign.now) (Some result)
        (outside_of C.left C.answers C.faults O.held O.faults lines.old out.old)
        (outside_of C.left C.answers C.faults O.held O.faults lines.new out.new)
        (pass_of pass.old) (pass_of pass.new) }
{
    for _ in rt.forever() {
        if let Some(end) = read_line(rt, alloc, campaign, pass, system, lines, out) {
            return end;
        }
    }
    unreachable!()
}

// The next line, if there is one, is answered. Why no more are read, if so.
fn read_line<'a, R: Wait, C: Console, O: Sink>(
    rt: &R,
    alloc: Global,
    campaign: &Campaign<SampleWork<'a>>,
    pass: &mut Pass<SampleWork<'a>>,
    system: &System,
    lines: &mut C,
    out: &mut O,
) -> Option<LinesEnd>
    requires pass { IsOf campaign.now pass.old }
    requires opening { (pass_of pass.old).number ≡ 0 }
    requires system { (work_of campaign.now).system ≡ system.now }
    ensures pass { IsOf campaign.now pass.new }
    ensures lines { LinesRan (work_of campaign.now) result
        (outside_of C.left C.answers C.faults O.held O.faults lines.old out.old)
        (outside_of C.left C.answers C.faults O.held O.faults lines.new out.new)
        (pass_of pass.old) (pass_of pass.new) }
{
    match lines.line(alloc) {
        Ok(Some(line)) => answer_line(rt, alloc, campaign, pass, system, &line, out),
        Ok(None) => Some(LinesEnd::AllRead),
        Err(ConsoleError::Fault) => Some(LinesEnd::ReadFault),
        Err(ConsoleError::OutOfMemory) => Some(LinesEnd::OutOfMemory),
    }
}

// One line is answered. Why no more are to be read, if so.
fn answer_line<'a, R: Wait, O: Sink>(
    rt: &R,
    alloc: Global,
    campaign: &Campaign<SampleWork<'a>>,
    pass: &mut Pass<SampleWork<'a>>,
    system: &System,
    line: &Text,
    out: &mut O,
) -> Option<LinesEnd>
    requires pass { IsOf campaign.now pass.old }
    requires opening { (pass_of pass.old).number ≡ 0 }
    requires system { (work_of campaign.now).system ≡ system.now }
    ensures pass { IsOf campaign.now pass.new }
    ensures line { LineRan (work_of campaign.now) line.now result (O.held out.old) (O.held out.new)
        (O.faults out.old) (O.faults out.new) (pass_of pass.old) (pass_of pass.new) }
{
    let Ok(answer) = ask(rt, alloc, campaign, pass, request_of(line.bytes())) else {
        return Some(LinesEnd::OutOfMemory);
    };
    let mut text = Text::new(alloc);
    if put_answer(&mut text, system, &answer).is_err() {
        return Some(LinesEnd::OutOfMemory);
    }
    match out.write(text.bytes()) {
        Ok(()) => None,
        Err(_fault) => Some(LinesEnd::WriteFault),
    }
}
