ghost use Rattle.std.specs.Prelude.{◌≡◌, ◌==◌, ◌<◌, IfOk, length, replicate, slice_set, slice_index};

use crate::OutOfMemory;
use std::alloc::Global;
use std::marker::Model;

/// A list of whole amounts of fixed length, as one for each zone or device.
#[derive(Drop)]
pub struct Amounts {
    values: Vec<u32>,
}

impl Model for Amounts {
    ghost use Rattle.std.specs.Prelude.{List, ℕ};

    ghost Value = { List ℕ };

    ghost view = { λ amounts. amounts.values.items };
}

impl Amounts {
    /// As many zeros as said.
    pub fn zeros(alloc: Global, len: usize) -> Result<Amounts, OutOfMemory>
        ensures { IfOk result (λ amounts. amounts ≡ replicate len 0) }
    {
        Ok(Amounts {
            values: vec![in alloc; 0; len]?,
        })
    }

    /// How many there are.
    pub fn len(&self) -> usize
        ensures { result ≡ length self.now }
    {
        self.values.len()
    }

    /// Whether there is none.
    pub fn is_empty(&self) -> bool
        ensures { result ≡ (length self.now == 0) }
    {
        self.values.is_empty()
    }

    /// The amount at a place.
    pub fn get(&self, at: usize) -> u32
        requires { at < length self.now }
        ensures { result ≡ slice_index self.now at }
    {
        self.values[at]
    }

    /// Puts an amount at a place; all others stay.
    pub fn set(&mut self, at: usize, value: u32)
        requires { at < length self.old }
        ensures { self.new ≡ slice_set self.old at value }
    {
        self.values[at] = value;
    }
}
