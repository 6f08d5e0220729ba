use crate::{Gate, Runs};

/// A call on a campaign.
#[derive(Clone, Copy, Debug, PartialEq, Eq)]
pub enum Call {
    /// Asks for a range of samples to run.
    Claim,
    /// Raises the number of samples to run.
    Extend {
        /// By how many samples.
        more: u32,
    },
    /// No extension is to come any more.
    Seal,
    /// Nothing is to be given out any more.
    Cancel,
    /// Asks how far the campaign has come.
    Progress,
    /// Brings what the samples of a range that was given out came to.
    Deposit {
        first: u32,
        count: u32,
    },
    /// Asks for what was deposited so far.
    Interim,
}

/// What a campaign replies to a call.
#[derive(Debug, Drop)]
pub enum Reply {
    /// To a claim: these samples are given out.
    Range { first: u32, count: u32 },
    /// To a claim: all samples up to the target were given out, and an extension may come.
    Idle,
    /// To a claim: all samples up to the target were given out, and no extension comes.
    Drained,
    /// To a claim or an extension: the campaign is cancelled.
    Cancelled,
    /// To an extension: the new target.
    Now { target: u32 },
    /// To an extension: the campaign is sealed.
    Sealed,
    /// To an extension: the target would pass the most samples of a study. It stays.
    TooMany { target: u32 },
    /// To a seal or a cancel.
    Marked,
    /// How far the campaign has come.
    Progress(Gate),
    /// To a deposit: how many there are with this one.
    Deposited { number: u32 },
    /// How far the campaign has come, and the runs of the samples that were deposited.
    Interim { gate: Gate, runs: Runs },
}

/// One entry of a history: who called, the call and its reply. The code keeps no list of them.
#[derive(Debug, Drop)]
pub struct Entry {
    pub caller: u32,
    pub call: Call,
    pub reply: Reply,
}
