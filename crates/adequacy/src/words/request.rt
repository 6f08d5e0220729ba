//! What a line asks for, by its command, with the values of the command's options.
ghost use Rattle.std.specs.Prelude.{◌≡◌, true};
ghost use Rattle.adequacy.specs.CommandWords.{is_campaign, is_credit, is_study, is_trace};
ghost use Rattle.adequacy.specs.Requests.{AreConsoleTerms, AreCreditTerms, AreStudyTerms, AreTraceTerms, IsRequestOf};
ghost use Rattle.adequacy.specs.Requests.{console_terms, credit_terms, request_of, study_terms, trace_terms};

use super::{Command, Line};
use analytic_index::NewUnit;
use capacity_credit::{Kind, Measure};
use system_model::Rates;

/// The terms of a study or a trial.
#[derive(Clone, Copy, Debug, PartialEq, Eq)]
pub struct StudyTerms {
    /// How many samples are run, 1 to 1,000,000.
    pub samples: u32,
    /// The seed of all draws, at most 10^18.
    pub seed: u64,
    /// How many workers run them, 1 to 64.
    pub workers: u8,
    /// The samples of one block of work, 1 to 10,000.
    pub block: u32,
    /// The most samples, from the samples to 1,000,000.
    pub most: u32,
    /// How precise the study has to be, in thousandths of the mean, 1 to 1,000; `None` where it needn't.
    pub precision: Option<u16>,
}

/// The terms of a console.
#[derive(Clone, Copy, Debug, PartialEq, Eq)]
pub struct ConsoleTerms {
    /// How many samples the campaign opens with, 1 to 1,000,000.
    pub samples: u32,
    /// The seed of all draws, at most 10^18.
    pub seed: u64,
    /// How many workers run them, 1 to 64.
    pub workers: u8,
    /// The samples of one block of work, 1 to 10,000.
    pub block: u32,
}

/// The terms of a trace.
#[derive(Clone, Copy, Debug, PartialEq, Eq)]
pub struct TraceTerms {
    /// The number of the sample, at most 999,999.
    pub sample: u32,
    /// The seed of all draws, at most 10^18.
    pub seed: u64,
    /// The kind of the one recorder that writes, 1 to 4; `None` for all.
    pub recorder: Option<u8>,
}

/// The terms of a credit.
#[derive(Clone, Copy, Debug, PartialEq, Eq)]
pub struct CreditTerms {
    /// What the unit's worth is said in.
    pub kind: Kind,
    /// The index that is compared.
    pub measure: Measure,
    /// The unit.
    pub unit: NewUnit,
    /// The greatest candidate for its worth in MW, at most 200,000.
    pub most: u32,
}

/// What a line asks for.
#[derive(Clone, Copy, Debug, PartialEq, Eq)]
pub enum Request {
    /// How large the system is.
    Check,
    /// Its capacity outage table.
    Table,
    /// Its indices.
    Index,
    /// What a new unit is worth.
    Credit(CreditTerms),
    /// One sample hour by hour.
    Trace(TraceTerms),
    /// A study of the folder's system.
    Study(StudyTerms),
    /// A study of the system that is made from a number.
    Trial { number: u64, terms: StudyTerms },
    /// A campaign that reads lines while it runs.
    Console(ConsoleTerms),
}

impl Line {
    /// What the line asks for. It takes no memory.
    pub fn request(&self) -> Request
        ensures request { result ≡ request_of self.now }
        // Its terms are the values of the line's options, in their ranges.
        ensures terms { IsRequestOf self.now result }
    {
        match self.command {
            Command::Check => Request::Check,
            Command::Table => Request::Table,
            Command::Index => Request::Index,
            Command::Credit => Request::Credit(self.credit_terms()),
            Command::Trace => Request::Trace(self.trace_terms()),
            Command::Study => Request::Study(self.study_terms()),
            Command::Trial => Request::Trial {
                number: self.number,
                terms: self.study_terms(),
            },
            Command::Console => Request::Console(self.console_terms()),
        }
    }

    // The options that a study takes are there.
    fn study_terms(&self) -> StudyTerms
        requires { is_study self.now.command ≡ true }
        ensures terms { result ≡ study_terms self.now }
        ensures ranges { AreStudyTerms self.now result }
    {
        StudyTerms {
            samples: self.samples.unwrap_or(0),
            seed: self.seed.unwrap_or(0),
            workers: self.workers.unwrap_or(0),
            block: self.block.unwrap_or(0),
            most: self.most.unwrap_or(0),
            precision: self.precision,
        }
    }

    pub(crate) fn console_terms(&self) -> ConsoleTerms
        requires { is_campaign self.now.command ≡ true }
        ensures terms { result ≡ console_terms self.now }
        ensures ranges { AreConsoleTerms self.now result }
    {
        ConsoleTerms {
            samples: self.samples.unwrap_or(0),
            seed: self.seed.unwrap_or(0),
            workers: self.workers.unwrap_or(0),
            block: self.block.unwrap_or(0),
        }
    }

    fn trace_terms(&self) -> TraceTerms
        requires { is_trace self.now.command ≡ true }
        ensures terms { result ≡ trace_terms self.now }
        ensures ranges { AreTraceTerms self.now result }
    {
        TraceTerms {
            sample: self.sample.unwrap_or(0),
            seed: self.seed.unwrap_or(0),
            recorder: self.result,
        }
    }

    fn credit_terms(&self) -> CreditTerms
        requires { is_credit self.now.command ≡ true }
        ensures terms { result ≡ credit_terms self.now }
        ensures ranges { AreCreditTerms self.now result }
    {
        let rates = Rates {
            f: self.failure.unwrap_or(0),
            r: self.repair.unwrap_or(0),
        };
        CreditTerms {
            kind: self.kind.unwrap_or(Kind::Efc),
            measure: self.measure.unwrap_or(Measure::Lole),
            unit: NewUnit {
                capacity: self.capacity.unwrap_or(0),
                rates,
            },
            most: self.up_to.unwrap_or(0),
        }
    }
}
