ghost use Rattle.std.specs.Prelude.{◌≡◌, ◌+◌, ◌-◌, ◌<◌, ◌≤◌, ◌==◌, All, length, map, slice_get, take, drop, Some};
ghost use Rattle.campaign_core.specs.Ranges.{AreDisjoint, runs_of, samples_of};
ghost use Rattle.campaign_core.specs.Joining.{Ascends, IsJoined};

use crate::Run;
use std::marker::Model;

/// The maximal runs of some sample numbers, ascending.
#[derive(Debug, Drop)]
pub struct Runs {
    list: Vec<Run>,
}

impl Model for Runs {
    ghost use Rattle.std.specs.Prelude.{List};
    ghost use Rattle.campaign_core.specs.declared.run.Run.{Run};

    ghost Value = { List Run };

    ghost view = { λ runs. runs.list.items };
}

impl Runs {
    /// The runs that these ranges make, whatever their order. It takes no memory: the list is ordered in
    /// place, and ranges that touch are joined.
    pub fn of(mut list: Vec<Run>) -> Runs
        requires ordered { All (λ r. r.first ≤ r.last) list.items }
        requires disjoint { AreDisjoint (map samples_of list.items) }
        ensures { result ≡ runs_of (map samples_of list.items) }
    {
        list.sort_unstable_by_key(|run| run.first);
        let joined = join_touching(list.as_mut_slice());
        list.truncate(joined);
        Runs { list }
    }

    /// How many runs there are.
    pub fn len(&self) -> usize
        ensures { result ≡ length self.now }
    {
        self.list.len()
    }

    /// Whether there is none.
    pub fn is_empty(&self) -> bool
        ensures { result ≡ (length self.now == 0) }
    {
        self.list.is_empty()
    }

    /// A run by its place.
    pub fn get(&self, at: usize) -> Run
        requires { at < length self.now }
        ensures { slice_get self.now at ≡ Some result }
    {
        self.list[at]
    }
}

// Joins ascending runs that touch, in place, and answers how many are left in front.
fn join_touching(list: &mut [Run]) -> usize
    requires { Ascends 0 list.old }
    ensures front { result ≤ length list.new }
    ensures joined { IsJoined list.old (take result list.new) }
{
    let mut joined = 0;
    for i in 0..list.len() {
        let run = list[i];
        if joined > 0 && touches(list[joined - 1], run) {
            list[joined - 1].last = run.last;
        } else {
            list[joined] = run;
            joined += 1;
        }
    }
    joined
}

// Whether a run begins right behind another.
fn touches(left: Run, right: Run) -> bool
    requires { left.last < right.first }
    ensures { result ≡ (left.last + 1 == right.first) }
{
    let next = left.last + 1;
    next == right.first
}
