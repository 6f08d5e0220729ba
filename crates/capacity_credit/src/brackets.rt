ghost use Rattle.std.specs.Prelude.{◌≡◌, ◌≤◌, All, IfOk};
ghost use Rattle.system_model.specs.Rates.{AreRates};
ghost use Rattle.analytic_index.specs.Pool.{IsNewUnit};
ghost use Rattle.capacity_credit.specs.Bracket.{IsBracket, IsBracketOf, IsCertified, RisesByFew};

use crate::questions::{Kind, Measure};
use crate::search::{greatest, least, target_index};
use crate::steps::Steps;
use analytic_index::{Analysis, NewUnit};
use fixed_interval::Enclosure;
use ra_base::OutOfMemory;
use ra_base::limits::MOST_POOLED_MW;
use std::alloc::Global;
use std::sync::ledger::Ledger;
use system_model::System;

/// A unit's worth in MW from both sides, as far as enclosures decide.
#[derive(Clone, Copy, Debug, PartialEq, Eq)]
pub struct Bracket {
    /// The greatest candidate that is certainly worth less than the unit, where there is one.
    pub low: Option<u32>,
    /// The least candidate that is certainly worth more, where there is one.
    pub high: Option<u32>,
    /// The index that candidates are compared with.
    pub target: Enclosure,
    /// The index of the candidate `low`.
    pub at_low: Option<Enclosure>,
    /// The index of the candidate `high`.
    pub at_high: Option<Enclosure>,
}

/// The bracket of a new unit's worth among the candidates from 0 to `most` MW. Each index that is
/// evaluated is one step.
pub fn credit<L: Ledger>(
    alloc: Global,
    system: &System,
    new_unit: &NewUnit,
    kind: Kind,
    measure: Measure,
    most: u32,
    steps: &mut Steps<L>,
) -> Result<Bracket, OutOfMemory>
    requires unit { IsNewUnit new_unit.now }
    requires most { most ≤ MOST_POOLED_MW }

    ensures bracket { IfOk result (IsBracket kind measure system.now new_unit.now most) }
    ensures certified { IfOk result (IsCertified kind measure system.now new_unit.now) }
    ensures steps { RisesByFew most steps.old steps.new }
{
    let base = Analysis::new(alloc, system, None)?;
    let with_unit = base.with_unit(alloc, system, *new_unit)?;
    match kind {
        Kind::Efc => Ok(bracket_of(&with_unit, &base, kind, measure, most, steps)),
        Kind::Elcc => Ok(bracket_of(&base, &with_unit, kind, measure, most, steps)),
    }
}

// The bracket of the candidates of one analysis round the index of another.
fn bracket_of<L: Ledger>(
    target: &Analysis,
    candidates: &Analysis,
    kind: Kind,
    measure: Measure,
    most: u32,
    steps: &mut Steps<L>,
) -> Bracket
    requires rated { All (λ unit. AreRates unit.rates) candidates.now.units }
    requires most { most ≤ MOST_POOLED_MW }
    ensures bracket { IsBracketOf kind measure target.now candidates.now most result }
    ensures steps { RisesByFew most steps.old steps.new }
{
    let index = target_index(target, measure, steps);
    let low = greatest(candidates, kind, measure, index, most, steps);
    let high = least(candidates, kind, measure, index, most, steps);
    Bracket {
        low: low.candidate,
        high: high.candidate,
        target: index,
        at_low: low.index,
        at_high: high.index,
    }
}
