//! Rows of amounts, all in one list.
ghost use Rattle.std.specs.Prelude.{◌≡◌, ◌+◌, ◌<◌, ◌≤◌, ◌++◌, ◌∷◌, [], length, slice_index_or, vec_len, vec_capacity, OnOk};
ghost use Rattle.ra_base.specs.declared.limits.TheConstants.{MOST_HOURS};
ghost use Rattle.system_tables.specs.AmountRows.{HeldRows, no_rows};

use ra_base::{Amounts, OutOfMemory};
use std::alloc::Global;
use std::marker::Model;

/// Rows of as many amounts each, one behind another in one list, so that no row takes memory of its own.
#[derive(Drop)]
pub(crate) struct AmountRows {
    width: usize,
    count: u32,
    amounts: Vec<u32>,
}

impl Model for AmountRows {
    ghost use Rattle.std.specs.Prelude.{◌≡◌, ◌*◌, length};
    ghost use Rattle.system_tables.specs.AmountRows.{HeldRows, rows_of};

    ghost Value = { HeldRows };

    ghost view = { λ r. record { width = r.width; rows = rows_of r.width r.count r.amounts.items } };

    ghost invariant = { λ r. length r.amounts.items ≡ r.count * r.width };
}

impl AmountRows {
    /// No rows, of as many amounts as said. It takes no memory.
    #[tactic(auto, using(crate::proofs::AmountRowLaws::rows_of_none))]
    pub(crate) fn new(alloc: Global, width: usize) -> AmountRows
        ensures { result ≡ no_rows width }
    {
        AmountRows {
            width,
            count: 0,
            amounts: Vec::new(alloc),
        }
    }

    /// How many amounts each row has.
    pub(crate) fn width(&self) -> usize
        ensures { result ≡ self.now.width }
    {
        self.width
    }

    /// How many rows there are.
    pub(crate) fn len(&self) -> u32
        ensures { result ≡ length self.now.rows }
    {
        self.count
    }

    /// Adds a row behind those that are there.
    pub(crate) fn push(&mut self, row: &Amounts) -> Result<(), OutOfMemory>
        requires room { length self.old.rows < MOST_HOURS }
        requires width { length row.now ≡ self.old.width }
        ensures { OnOk result (self.new ≡ record self.old { rows = self.old.rows ++ row.now ∷ [] }) }
    {
        self.amounts.reserve(row.len())?;
        append(&mut self.amounts, row);
        self.count += 1;
        Ok(())
    }

    /// Copies a row to amounts of the same number.
    pub(crate) fn copy(&self, at: u32, row: &mut Amounts)
        requires at { at < length self.now.rows }
        requires width { length row.old ≡ self.now.width }
        ensures row { row.new ≡ slice_index_or self.now.rows at [] }
        ensures width { length row.new ≡ self.now.width }
    {
        let start = at as usize * self.width;
        for place in 0..self.width {
            row.set(place, self.amounts[start + place]);
        }
    }
}

// Adds amounts at the end of a list that has room for them.
fn append(list: &mut Vec<u32>, amounts: &Amounts)
    requires { vec_len list.old + length amounts.now ≤ vec_capacity list.old }
    ensures { list.new.items ≡ list.old.items ++ amounts.now }
{
    for at in 0..amounts.len() {
        list.push(amounts.get(at)).unwrap();
    }
}
