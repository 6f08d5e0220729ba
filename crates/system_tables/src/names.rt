//! The names of a table's rows.
ghost use Rattle.std.specs.Prelude.{◌≡◌, ◌<◌, [], ◌∷◌, ◌++◌, length, slice_index_or, Ok, true, false, IfSome, position};
ghost use Rattle.std.specs.Str.{bytes_eq};
ghost use Rattle.system_tables.specs.Names.{is_among};

use indexmap::IndexSet;
use ra_base::OutOfMemory;
use std::alloc::Global;
use std::marker::Model;

/// The names of a table's rows in their order, each found by one look-up.
#[derive(Drop)]
pub(crate) struct Names {
    alloc: Global,
    names: IndexSet<Vec<u8>>,
}

impl Model for Names {
    ghost use Rattle.std.specs.Prelude.{List, ℕ, map};

    ghost Value = { List (List ℕ) };

    ghost view = { λ n. map (λ name. name.items) n.names.keys };
}

impl Names {
    /// No names. It takes no memory.
    pub(crate) fn new(alloc: Global) -> Names
        ensures { result ≡ [] }
    {
        Names {
            alloc,
            names: IndexSet::new(alloc),
        }
    }

    /// How many there are.
    pub(crate) fn len(&self) -> usize
        ensures { result ≡ length self.now }
    {
        self.names.len()
    }

    /// The name at a place.
    pub(crate) fn name(&self, at: usize) -> &[u8]
        requires { at < length self.now }
        ensures { result.now ≡ slice_index_or self.now at [] }
    {
        self.names[at].as_slice()
    }

    /// The place of a name.
    pub(crate) fn place(&self, name: &[u8]) -> Option<usize>
        ensures value { result ≡ position (bytes_eq name.now) self.now }
        ensures within { IfSome result (λ at. at < length self.now) }
    {
        self.names.get_index_of(name)
    }

    /// Puts a name behind those that are there, unless it is there, and says whether it was new.
    pub(crate) fn add(&mut self, name: &[u8]) -> Result<bool, OutOfMemory>
        ensures new { result ≡ Ok true → is_among name.now self.old ≡ false }
        ensures added { result ≡ Ok true → self.new ≡ self.old ++ name.now ∷ [] }
        ensures there { result ≡ Ok false → is_among name.now self.old ≡ true }
    {
        let key = Vec::from_slice(self.alloc, name)?;
        let is_new = self.names.insert(key)?;
        Ok(is_new)
    }
}
