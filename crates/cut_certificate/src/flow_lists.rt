ghost use Rattle.std.specs.Prelude.{◌≡◌, ◌==◌, ◌<◌, IfOk, length, pos, replicate, slice_index_or, slice_set};

use ra_base::OutOfMemory;
use std::alloc::Global;
use std::marker::Model;

/// A list of signed flows of fixed length, one for each link, in MW. Forward flow is positive.
#[derive(Drop)]
pub struct Flows {
    values: Vec<i32>,
}

impl Model for Flows {
    ghost use Rattle.std.specs.Prelude.{List, ℤ};

    ghost Value = { List ℤ };

    ghost view = { λ flows. flows.values.items };
}

impl Flows {
    /// As many zeros as said.
    pub(crate) fn zeros(alloc: Global, len: usize) -> Result<Flows, OutOfMemory>
        ensures { IfOk result (λ flows. flows ≡ replicate len (pos 0)) }
    {
        Ok(Flows {
            values: vec![in alloc; 0; len]?,
        })
    }

    /// How many there are.
    #[inline]
    pub fn len(&self) -> usize
        ensures { result ≡ length self.now }
    {
        self.values.len()
    }

    /// Whether there is none.
    #[inline]
    pub fn is_empty(&self) -> bool
        ensures { result ≡ (length self.now == 0) }
    {
        self.values.is_empty()
    }

    /// The flow of a link.
    #[inline]
    pub fn get(&self, at: usize) -> i32
        requires { at < length self.now }
        ensures { result ≡ slice_index_or self.now at (pos 0) }
    {
        self.values[at]
    }

    /// Puts a flow at a link; all others stay.
    #[inline]
    pub fn set(&mut self, at: usize, value: i32)
        requires { at < length self.old }
        ensures { self.new ≡ slice_set self.old at value }
    {
        self.values[at] = value;
    }
}
