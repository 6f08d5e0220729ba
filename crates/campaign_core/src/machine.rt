ghost use Rattle.std.specs.Prelude.{◌≡◌, ◌+◌, ◌≤◌, ◌∷◌, ◌++◌, [], List, ℕ, true, false, IfOk, OnErr, IsTrue, All, Some, map, slice_get};
ghost use Rattle.ra_base.specs.declared.limits.TheConstants.{MOST_SAMPLES, MOST_BLOCK};
ghost use Rattle.campaign_core.specs.declared.call.Entry.{Entry};
ghost use Rattle.campaign_core.specs.Ranges.{range, run, samples_of, has_range, is_same};
ghost use Rattle.campaign_core.specs.History.{entry, reply_of, claim_reply, extend_reply};
ghost use Rattle.campaign_core.specs.Machine.{StandsFor, IsAllowed, after};
ghost use Rattle.campaign_core.specs.Joining.{AreRunnable};

use crate::{Call, Gate, Reply, Run, Runs, SampleRange};
use ra_base::OutOfMemory;
use ra_base::limits::MOST_SAMPLES;
use std::alloc::Global;
use std::marker::Model;

/// The machine of a campaign, on one thread. Contracts see it as its opening target, its block, its gate, the
/// deposited ranges in order, and the ranges that are out, ascending.
#[derive(Drop)]
pub struct Core {
    opening: u32,
    block: u32,
    gate: Gate,
    deposited: Vec<SampleRange>,
    out: Vec<SampleRange>,
    alloc: Global,
}

impl Model for Core {
    ghost use Rattle.campaign_core.specs.Machine.{Machine};

    ghost Value = { Machine };

    ghost use Rattle.campaign_core.specs.Cores.{machine_of, IsWhole};

    ghost view = { machine_of };

    ghost invariant = { IsWhole };
}

impl Core {
    /// A campaign of `target` samples that gives out `block` of them at a time. It stands for the empty
    /// history.
    pub fn open(alloc: Global, target: u32, block: u32) -> Result<Core, OutOfMemory>
        requires target { (1 ≤ target) × (target ≤ MOST_SAMPLES) }
        requires block { (1 ≤ block) × (block ≤ MOST_BLOCK) }
        ensures limits { IfOk result (λ core. (core.opening ≡ target) × (core.block ≡ block)) }
        ensures stands { IfOk result (λ core. StandsFor core []) }
    {
        let gate = Gate {
            next: 0,
            target,
            sealed: false,
            cancelled: false,
        };
        Ok(Core {
            opening: target,
            block,
            gate,
            deposited: Vec::new(alloc),
            out: Vec::new(alloc),
            alloc,
        })
    }

    /// Replies to a call. Without memory the machine is as before, and the call has no entry.
    pub fn apply(&mut self, call: Call) -> Result<Reply, OutOfMemory>
        requires { IsAllowed self.old.out call }
        ensures reply { IfOk result (λ reply.
            reply ≡ reply_of self.old.block self.old.gate self.old.deposited call) }
        ensures after { IfOk result (λ reply. self.new ≡ after self.old call reply) }
        ensures stands { IfOk result (λ reply. (h : List Entry) (caller : ℕ)
            → StandsFor self.old h → StandsFor self.new (h ++ entry caller call reply ∷ [])) }
        ensures err { OnErr result (self.new ≡ self.old) }
    {
        let _block = &self.block;
        self.answer(call)
    }

    // Replies to a call.
    fn answer(&mut self, call: Call) -> Result<Reply, OutOfMemory>
        requires { IsAllowed self.old.out call }
        ensures reply { IfOk result (λ reply.
            reply ≡ reply_of self.old.block self.old.gate self.old.deposited call) }
        ensures after { IfOk result (λ reply. self.new ≡ after self.old call reply) }
        ensures err { OnErr result (self.new ≡ self.old) }
    {
        match call {
            Call::Claim => self.claim(),
            Call::Extend { more } => Ok(self.extend(more)),
            Call::Seal => Ok(self.seal()),
            Call::Cancel => Ok(self.cancel()),
            Call::Progress => Ok(self.progress()),
            Call::Deposit { first, count } => self.deposit(first, count),
            Call::Interim => self.interim(),
        }
    }

    fn claim(&mut self) -> Result<Reply, OutOfMemory>
        ensures reply { IfOk result (λ reply. reply ≡ claim_reply self.old.block self.old.gate) }
        ensures after { IfOk result (λ reply. self.new ≡ after self.old Call.Claim reply) }
        ensures err { OnErr result (self.new ≡ self.old) }
    {
        let gate = self.gate;
        if gate.cancelled {
            return Ok(Reply::Cancelled);
        }
        if gate.next == gate.target {
            return Ok(if gate.sealed {
                Reply::Drained
            } else {
                Reply::Idle
            });
        }
        let first = gate.next;
        let count = self.block.min(gate.target - first);
        self.out.push(SampleRange { first, count })?;
        self.gate.next = first + count;
        Ok(Reply::Range { first, count })
    }

    fn extend(&mut self, more: u32) -> Reply
        requires { more ≤ MOST_SAMPLES }
        ensures reply { result ≡ extend_reply self.old.gate more }
        ensures after { self.new ≡ after self.old (Call.Extend more) result }
    {
        let gate = self.gate;
        if gate.cancelled {
            return Reply::Cancelled;
        }
        if gate.sealed {
            return Reply::Sealed;
        }
        let target = gate.target + more;
        if target > MOST_SAMPLES {
            return Reply::TooMany {
                target: gate.target,
            };
        }
        self.gate.target = target;
        Reply::Now { target }
    }

    fn seal(&mut self) -> Reply
        ensures reply { result ≡ Reply.Marked }
        ensures after { self.new ≡ after self.old Call.Seal result }
    {
        self.gate.sealed = true;
        Reply::Marked
    }

    fn cancel(&mut self) -> Reply
        ensures reply { result ≡ Reply.Marked }
        ensures after { self.new ≡ after self.old Call.Cancel result }
    {
        self.gate.cancelled = true;
        Reply::Marked
    }

    fn progress(&mut self) -> Reply
        ensures reply { result ≡ Reply.Progress self.old.gate }
        ensures after { self.new ≡ after self.old Call.Progress result }
    {
        Reply::Progress(self.gate)
    }

    fn deposit(&mut self, first: u32, count: u32) -> Result<Reply, OutOfMemory>
        requires { IsTrue (has_range self.old.out (range first count)) }
        ensures reply { IfOk result (λ reply.
            reply ≡ reply_of self.old.block self.old.gate self.old.deposited (Call.Deposit first count)) }
        ensures after { IfOk result (λ reply. self.new ≡ after self.old (Call.Deposit first count) reply) }
        ensures err { OnErr result (self.new ≡ self.old) }
    {
        self.deposited.push(SampleRange { first, count })?;
        let place = place_of(self.out.as_slice(), first, count);
        self.out.remove(place);
        Ok(Reply::Deposited {
            number: self.deposited.len() as u32,
        })
    }

    fn interim(&mut self) -> Result<Reply, OutOfMemory>
        ensures reply { IfOk result (λ reply.
            reply ≡ reply_of self.old.block self.old.gate self.old.deposited Call.Interim) }
        ensures after { IfOk result (λ reply. self.new ≡ after self.old Call.Interim reply) }
        ensures err { OnErr result (self.new ≡ self.old) }
    {
        let list = as_runs(self.alloc, self.deposited.as_slice())?;
        Ok(Reply::Interim {
            gate: self.gate,
            runs: Runs::of(list),
        })
    }
}

// Whether a range is the one of these samples.
fn is_range(it: &SampleRange, first: u32, count: u32) -> bool
    ensures { result ≡ is_same it.now (range first count) }
{
    it.first == first && it.count == count
}

// Where a range stands among others.
fn place_of(ranges: &[SampleRange], first: u32, count: u32) -> usize
    requires { IsTrue (has_range ranges.now (range first count)) }
    ensures { slice_get ranges.now result ≡ Some (range first count) }
{
    for (i, it) in ranges.iter().enumerate() {
        if is_range(it, first, count) {
            return i;
        }
    }
    unreachable!()
}

// Ranges as runs.
fn as_runs(alloc: Global, ranges: &[SampleRange]) -> Result<Vec<Run>, OutOfMemory>
    requires { AreRunnable ranges.now }
    ensures ordered { IfOk result (λ list. All (λ r. r.first ≤ r.last) list.items) }
    ensures samples { IfOk result (λ list. map samples_of list.items ≡ ranges.now) }
{
    let mut list = Vec::new(alloc);
    for range in ranges {
        list.push(Run {
            first: range.first,
            last: range.first + range.count - 1,
        })?;
    }
    Ok(list)
}
