ghost use Rattle.std.specs.Prelude.{◌≡◌, ◌↔◌, ◌+◌, ◌-◌, ◌<◌, ◌≤◌, ◌^◌, ◌++◌, [], ◌∷◌, Some, Contains, IsErrOf, OnOk, OnErr, true, length};
ghost use Rattle.ra_base.specs.Causes.{Counts, one_more};
ghost use Rattle.ra_base.specs.ConsoleLines.{LinesTold, IsShort, TakesLine, cut_line, is_line_fault};
ghost use Rattle.ra_base.specs.declared.limits.TheConstants.{MOST_LINE_BYTES};
ghost use Rattle.ra_base.specs.MemoryConsole.{lines_of, failing_of, calls_of, faults_of, answers_of};
ghost use Rattle.ra_base.specs.declared.console.ConsoleError.{ConsoleError};

use crate::limits::MOST_LINE_BYTES;
use crate::{Console, ConsoleError, LineLog, LineNote, OutOfMemory, Text};
use std::alloc::Global;

/// Lines in memory, which tell what is left of them. Calls of `line` are numbered from 1, and those
/// whose number was given to `fail` count a fault.
#[derive(Drop)]
pub struct MemoryConsole {
    alloc: Global,
    // The next one first.
    lines: Vec<Text>,
    failing: Vec<u64>,
    calls: u64,
    faults: u64,
    log: LineLog,
}

impl MemoryConsole {
    /// A console without lines. It takes no memory.
    pub fn new(alloc: Global) -> MemoryConsole
        ensures lines { lines_of result ≡ [] }
        ensures failing { failing_of result ≡ [] }
        ensures calls { calls_of result ≡ 0 }
        ensures faults { faults_of result ≡ 0 }
        ensures answers { answers_of result ≡ [] }
    {
        MemoryConsole {
            alloc,
            lines: Vec::new(alloc),
            failing: Vec::new(alloc),
            calls: 0,
            faults: 0,
            log: LineLog::new(),
        }
    }

    /// Adds a last line, which has no line feed. Without memory the console stays as it was.
    pub fn push(&mut self, line: &[u8]) -> Result<(), OutOfMemory>
        requires { Contains line.now 10 → ⊥ }
        ensures ok { OnOk result (lines_of self.new ≡ lines_of self.old ++ line.now ∷ []) }
        ensures err { OnErr result (lines_of self.new ≡ lines_of self.old) }
        ensures failing { failing_of self.new ≡ failing_of self.old }
        ensures calls { calls_of self.new ≡ calls_of self.old }
        ensures faults { faults_of self.new ≡ faults_of self.old }
        ensures answers { answers_of self.new ≡ answers_of self.old }
    {
        let mut text = Text::new(self.alloc);
        text.push(line)?;
        match self.lines.push(text) {
            Ok(()) => Ok(()),
            Err(_) => Err(OutOfMemory),
        }
    }

    /// Has the call of that number count a fault. Without memory the console stays as it was.
    pub fn fail(&mut self, call: u64) -> Result<(), OutOfMemory>
        requires first { 1 ≤ call }
        requires last { call < 2 ^ 64 - 1 }
        ensures ok { OnOk result (failing_of self.new ≡ failing_of self.old ++ call ∷ []) }
        ensures err { OnErr result (failing_of self.new ≡ failing_of self.old) }
        ensures lines { lines_of self.new ≡ lines_of self.old }
        ensures calls { calls_of self.new ≡ calls_of self.old }
        ensures faults { faults_of self.new ≡ faults_of self.old }
        ensures answers { answers_of self.new ≡ answers_of self.old }
    {
        match self.failing.push(call) {
            Ok(()) => Ok(()),
            Err(_) => Err(OutOfMemory),
        }
    }
}

impl Console for MemoryConsole {
    ghost left = { λ c. Some (lines_of c) };

    ghost answers = { answers_of };

    ghost faults = { faults_of };

    fn line(&mut self, alloc: Global) -> Result<Option<Text>, ConsoleError>
        ensures left { LinesTold (Some (lines_of self.old)) (Some (lines_of self.new)) result }
        ensures short { IsShort result }
        ensures answers { answers_of self.new ≡ answers_of self.old ++ result ∷ [] }
        ensures faults { Counts (is_line_fault result) (faults_of self.old) (faults_of self.new) }
        ensures calls { calls_of self.new ≡ one_more (calls_of self.old) }
        ensures failing { failing_of self.new ≡ failing_of self.old }
        ensures fails { IsErrOf result ConsoleError.Fault
            ↔ Contains (failing_of self.old) (calls_of self.new) }
    {
        self.calls = self.calls.saturating_add(1);
        let fails = is_listed(&self.failing, self.calls);
        let answer = next_line(alloc, fails, &mut self.lines);
        self.faults = faults_after(self.faults, &answer);
        self.log = self.log.and(&LineNote { answer: &answer });
        answer
    }
}

// Whether a call's number is in a list.
fn is_listed(numbers: &[u64], call: u64) -> bool
    ensures { (result ≡ true) ↔ Contains numbers.now call }
{
    numbers.contains(&call)
}

// What a call answers, by whether it is to fail.
fn next_line(
    alloc: Global,
    fails: bool,
    lines: &mut Vec<Text>,
) -> Result<Option<Text>, ConsoleError>
    ensures takes { TakesLine lines.old.items lines.new.items result }
    ensures short { IsShort result }
    ensures fails { IsErrOf result ConsoleError.Fault ↔ (fails ≡ true) }
{
    if fails {
        return Err(ConsoleError::Fault);
    }
    take_line(alloc, lines)
}

// Takes the first of the lines, cut where it is too long.
fn take_line(alloc: Global, lines: &mut Vec<Text>) -> Result<Option<Text>, ConsoleError>
    ensures takes { TakesLine lines.old.items lines.new.items result }
    ensures short { IsShort result }
    ensures sound { IsErrOf result ConsoleError.Fault → ⊥ }
{
    let Some(line) = lines.first() else {
        return Ok(None);
    };
    let mut text = Text::new(alloc);
    if text.push(cut(line.bytes())).is_err() {
        return Err(ConsoleError::OutOfMemory);
    }
    lines.remove(0);
    Ok(Some(text))
}

// A line as it comes.
fn cut(line: &[u8]) -> &[u8]
    ensures cut { result.now ≡ cut_line line.now }
    ensures short { length result.now ≤ MOST_LINE_BYTES + 1 }
{
    let most = MOST_LINE_BYTES as usize + 1;
    if line.len() <= most {
        return line;
    }
    &line[..most]
}

// How often a read failed, after a call with this answer.
fn faults_after(faults: u64, answer: &Result<Option<Text>, ConsoleError>) -> u64
    ensures counts { Counts (is_line_fault answer.now) faults result }
{
    match answer {
        Err(ConsoleError::Fault) => faults.saturating_add(1),
        Err(ConsoleError::OutOfMemory) | Ok(_) => faults,
    }
}
