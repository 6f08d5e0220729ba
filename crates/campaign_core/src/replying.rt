ghost use Rattle.std.specs.Prelude.{◌≡◌, ◌≤◌, List, length, IfOk};
ghost use Rattle.ra_base.specs.declared.limits.TheConstants.{MOST_SAMPLES, MOST_BLOCK};
ghost use Rattle.campaign_core.specs.declared.call.Entry.{Entry};
ghost use Rattle.campaign_core.specs.History.{IsLegal};
ghost use Rattle.campaign_core.specs.Machine.{MayBeCalled, calls_in, replies_in};

use crate::{Call, Core, Reply};
use ra_base::OutOfMemory;
use std::alloc::Global;

/// The replies to a list of calls on a new campaign. With them the calls are a legal history, whoever
/// made them.
pub fn replies(
    alloc: Global,
    target: u32,
    block: u32,
    calls: &[Call],
) -> Result<Vec<Reply>, OutOfMemory>
    requires target { (1 ≤ target) × (target ≤ MOST_SAMPLES) }
    requires block { (1 ≤ block) × (block ≤ MOST_BLOCK) }
    requires calls { MayBeCalled target block calls.now }
    ensures each { IfOk result (λ replies. length replies.items ≡ length calls.now) }
    ensures legal { IfOk result (λ replies. (h : List Entry)
        → calls_in h ≡ calls.now → replies_in h ≡ replies.items → IsLegal target block h) }
{
    let mut core = Core::open(alloc, target, block)?;
    let mut replies = Vec::new(alloc);
    for call in calls {
        replies.push(core.apply(*call)?)?;
    }
    Ok(replies)
}
