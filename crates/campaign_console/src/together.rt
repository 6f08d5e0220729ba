//! The lines are answered while workers run, each with a pass of its own.
ghost use Rattle.std.specs.Thread.{IsSend, IsSync};
ghost use Rattle.campaign_console.specs.LineEnds.{outside_of};
ghost use Rattle.campaign_console.specs.Together.{HasRoom};

use crate::lines::LinesEnd;
use crate::sharing::Sharing;
use campaign_workers::WorkEnd;
use ra_base::{Console, Sink};
use std::alloc::Global;
use std::sync::Wait;
use std::thread::{Threads, join_mut};

/// How the lines ended, and whether a worker found no memory.
#[derive(Clone, Copy, Debug)]
pub struct Ran {
    pub lines: LinesEnd,
    pub short: bool,
}

/// Answers lines while so many workers run, each with a pass that is split off and joined back. The lines are
/// answered in this thread, and first where no other can be made: at their end the workers come to theirs.
#[cycle(together)]
pub(crate) fn run_together<
    R: Threads + Wait + Sync,
    K: Drop + Send,
    M: Drop + Send,
    S: Sharing<K, M> + Sync,
    C: Console + Send,
    O: Sink + Send,
>(rt: &R, alloc: Global, shared: &S, pass: &mut K, workers: u8, lines: &mut C, out: &mut O) -> Ran
    requires pass { S.keeps shared.now pass.old }
    requires room { HasRoom (S.made pass.old) workers }
    ensures pass { S.keeps shared.now pass.new }
    ensures ran { S.ran shared.now workers result
        (outside_of C.left C.answers C.faults O.held O.faults lines.old out.old)
        (outside_of C.left C.answers C.faults O.held O.faults lines.new out.new) pass.old pass.new }
{
    if workers == 0 {
        let end = shared.answer(rt, alloc, pass, lines, out);
        return Ran {
            lines: end,
            short: false,
        };
    }
    let mut mine = shared.split(pass);
    let (end, ran) = run_one_more(rt, alloc, shared, pass, &mut mine, workers - 1, lines, out);
    shared.take_in(pass, mine);
    Ran {
        lines: ran.lines,
        short: ran.short | end.is_short(),
    }
}

// One worker runs beside the others and the lines.
#[cycle(together)]
fn run_one_more<
    R: Threads + Wait + Sync,
    K: Drop + Send,
    M: Drop + Send,
    S: Sharing<K, M> + Sync,
    C: Console + Send,
    O: Sink + Send,
>(
    rt: &R,
    alloc: Global,
    shared: &S,
    pass: &mut K,
    mine: &mut M,
    others: u8,
    lines: &mut C,
    out: &mut O,
) -> (WorkEnd, Ran)
    requires pass { S.keeps shared.now pass.old }
    requires mine { S.owns shared.now mine.old }
    requires room { HasRoom (S.made pass.old) others }
    ensures pass { S.keeps shared.now pass.new }
    ensures mine { S.owns shared.now mine.new }
    ensures work { S.worked mine.old result.0 mine.new }
    ensures ran { S.ran shared.now others result.1
        (outside_of C.left C.answers C.faults O.held O.faults lines.old out.old)
        (outside_of C.left C.answers C.faults O.held O.faults lines.new out.new) pass.old pass.new }
{
    join_mut(
        rt,
        &mut || -> WorkEnd
            requires { IsSync R.row × IsSync S.row × IsSend M.row × S.owns shared.now mine.now }
            ensures mine { S.owns shared.entry.now mine.exit.now }
            ensures work { S.worked mine.entry.now result mine.exit.now }
        { shared.work(rt, alloc, mine) },
        &mut || -> Ran
            requires { IsSync R.row × IsSync S.row × IsSend K.row × IsSend M.row × IsSend C.row × IsSend O.row
                × S.keeps shared.now pass.now × HasRoom (S.made pass.now) others }
            ensures pass { S.keeps shared.entry.now pass.exit.now }
            ensures ran { S.ran shared.entry.now others result
                (outside_of C.left C.answers C.faults O.held O.faults lines.entry.now out.entry.now)
                (outside_of C.left C.answers C.faults O.held O.faults lines.exit.now out.exit.now)
                pass.entry.now pass.exit.now }
        { run_together(rt, alloc, shared, pass, others, lines, out) },
    )
}
