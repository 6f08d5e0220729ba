ghost use Rattle.std.specs.Prelude.{◌≡◌, ◌+◌, ◌≤◌, ◌↔◌, All, IsTrue};
ghost use Rattle.system_model.specs.Rates.{AreRates};
ghost use Rattle.capacity_credit.specs.Measures.{HasEnds, LiesWholly, low_side, high_side, target_ends, candidate_ends};
ghost use Rattle.capacity_credit.specs.Bracket.{IsGreatest, IsLeast, StandsAt, IsDecided};
ghost use Rattle.capacity_credit.specs.Search.{ends, measured_in, SpendsFew};

use crate::questions::{Kind, Measure, Side};
use crate::steps::Steps;
use analytic_index::{Analysis, Index};
use fixed_interval::Enclosure;
use ra_base::limits::MOST_POOLED_MW;
use std::sync::ledger::Ledger;

/// A candidate with its index, or neither.
#[derive(Clone, Copy)]
pub(crate) struct Found {
    pub candidate: Option<u32>,
    pub index: Option<Enclosure>,
}

/// The index that candidates are compared with.
pub(crate) fn target_index<L: Ledger>(
    target: &Analysis,
    measure: Measure,
    steps: &mut Steps<L>,
) -> Enclosure
    ensures ends { HasEnds result (target_ends measure target.now) }
    ensures steps { steps.new ≡ steps.old + 1 }
{
    steps.tick(); // The target's own index is one of those that are evaluated.
    measured(target.index(), measure)
}

// The index of a candidate.
fn candidate_index<L: Ledger>(
    candidates: &Analysis,
    kind: Kind,
    measure: Measure,
    candidate: u32,
    steps: &mut Steps<L>,
) -> Enclosure
    requires { candidate ≤ MOST_POOLED_MW }
    ensures ends { HasEnds result (candidate_ends kind measure candidates.now candidate) }
    ensures steps { steps.new ≡ steps.old + 1 }
{
    steps.tick();
    match kind {
        Kind::Efc => measured(candidates.index_shifted(candidate, 0), measure),
        Kind::Elcc => measured(candidates.index_shifted(0, candidate), measure),
    }
}

// The one of two indices that is measured.
fn measured(index: Index, measure: Measure) -> Enclosure
    ensures low { result.low ≡ (measured_in measure index).low }
    ensures high { result.high ≡ (measured_in measure index).high }
{
    match measure {
        Measure::Lole => index.lole,
        Measure::Eue => index.eue,
    }
}

// Whether an enclosure lies wholly on a side of another.
fn lies_wholly(side: Side, here: Enclosure, there: Enclosure) -> bool
    ensures { IsTrue result ↔ LiesWholly side (ends here) (ends there) }
{
    match side {
        Side::Above => there.high < here.low,
        Side::Below => here.high < there.low,
    }
}

// On which side of the target the lower end of a bracket lies.
fn lower_side(kind: Kind) -> Side
    ensures { result ≡ low_side kind }
{
    match kind {
        Kind::Efc => Side::Above,
        Kind::Elcc => Side::Below,
    }
}

// And the higher end.
fn higher_side(kind: Kind) -> Side
    ensures { result ≡ high_side kind }
{
    match kind {
        Kind::Efc => Side::Below,
        Kind::Elcc => Side::Above,
    }
}

/// The greatest candidate that is decided on the lower side. Those up to a candidate that is are too, so
/// the range that is left is halved by each step.
pub(crate) fn greatest<L: Ledger>(
    candidates: &Analysis,
    kind: Kind,
    measure: Measure,
    target: Enclosure,
    most: u32,
    steps: &mut Steps<L>,
) -> Found
    requires rated { All (λ unit. AreRates unit.rates) candidates.now.units }
    requires most { most ≤ MOST_POOLED_MW }
    ensures greatest { IsGreatest (IsDecided (low_side kind) kind measure candidates.now
        (ends target)) most result.candidate }
    ensures stands { StandsAt (candidate_ends kind measure candidates.now) result.candidate result.index }
    ensures steps { SpendsFew most steps.old steps.new }
{
    let side = lower_side(kind);
    let mut found = Found {
        candidate: None,
        index: None,
    };
    let (mut first, mut end) = (0, most + 1);
    while first < end {
        let middle = first + (end - first) / 2;
        let index = candidate_index(candidates, kind, measure, middle, steps);
        if lies_wholly(side, index, target) {
            found = Found {
                candidate: Some(middle),
                index: Some(index),
            };
            first = middle + 1;
        } else {
            end = middle;
        }
    }
    found
}

/// The least candidate that is decided on the higher side. Those from a candidate that is on are too.
pub(crate) fn least<L: Ledger>(
    candidates: &Analysis,
    kind: Kind,
    measure: Measure,
    target: Enclosure,
    most: u32,
    steps: &mut Steps<L>,
) -> Found
    requires rated { All (λ unit. AreRates unit.rates) candidates.now.units }
    requires most { most ≤ MOST_POOLED_MW }
    ensures least { IsLeast (IsDecided (high_side kind) kind measure candidates.now
        (ends target)) most result.candidate }
    ensures stands { StandsAt (candidate_ends kind measure candidates.now) result.candidate result.index }
    ensures steps { SpendsFew most steps.old steps.new }
{
    let side = higher_side(kind);
    let mut found = Found {
        candidate: None,
        index: None,
    };
    let mut first = 0;
    let mut end = most + 1;
    while first < end {
        let middle = first + (end - first) / 2;
        let index = candidate_index(candidates, kind, measure, middle, steps);
        if lies_wholly(side, index, target) {
            found = Found {
                candidate: Some(middle),
                index: Some(index),
            };
            end = middle;
        } else {
            first = middle + 1;
        }
    }
    found
}
