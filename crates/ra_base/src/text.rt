ghost use Rattle.std.specs.Prelude.{◌≡◌, ◌+◌, ◌^◌, ◌<◌, ◌++◌, [], length, OnOk, OnErr};

use crate::OutOfMemory;
use std::alloc::Global;
use std::marker::Model;

/// A list of bytes: a table, a name or a text that is written.
#[derive(Drop)]
pub struct Text {
    bytes: Vec<u8>,
}

impl Model for Text {
    ghost use Rattle.std.specs.Prelude.{List, ℕ};

    ghost Value = { List ℕ };

    ghost view = { λ text. text.bytes.items };
}

impl Text {
    /// The empty text. It takes no memory.
    pub fn new(alloc: Global) -> Text
        ensures { result ≡ [] }
    {
        Text {
            bytes: Vec::new(alloc),
        }
    }

    /// An empty text that will take its memory where this one does. It takes none itself.
    pub fn fresh(&self) -> Text
        ensures { result ≡ [] }
    {
        Text {
            bytes: Vec::new(*self.bytes.allocator()),
        }
    }

    /// Appends a piece. Without memory the text stays as it was.
    pub fn push(&mut self, piece: &[u8]) -> Result<(), OutOfMemory>
        ensures ok { OnOk result (self.new ≡ self.old ++ piece.now) }
        ensures err { OnErr result (self.new ≡ self.old) }
    {
        match self.bytes.extend_from_slice(piece) {
            Ok(()) => Ok(()),
            Err(_) => Err(OutOfMemory),
        }
    }

    /// Appends a whole text. Where this one is empty, it takes over the other's memory and copies nothing.
    /// Without memory the text stays as it was.
    pub fn append(&mut self, more: Text) -> Result<(), OutOfMemory>
        ensures ok { OnOk result (self.new ≡ self.old ++ more) }
        ensures err { OnErr result (self.new ≡ self.old) }
    {
        if self.bytes.is_empty() {
            *self = more;
            return Ok(());
        }
        self.push(&more.bytes)
    }

    /// Appends three pieces, or without memory none of them.
    pub fn push_three(
        &mut self,
        first: &[u8],
        second: &[u8],
        third: &[u8],
    ) -> Result<(), OutOfMemory>
        requires { length first.now + length second.now + length third.now < 2 ^ 32 }
        ensures ok { OnOk result (self.new ≡ self.old ++ first.now ++ second.now ++ third.now) }
        ensures err { OnErr result (self.new ≡ self.old) }
    {
        match self.bytes.reserve(first.len() + second.len() + third.len()) {
            Ok(()) => {
                self.bytes.extend_from_slice(first).unwrap();
                self.bytes.extend_from_slice(second).unwrap();
                self.bytes.extend_from_slice(third).unwrap();
                Ok(())
            }
            Err(_) => Err(OutOfMemory),
        }
    }

    /// Makes room for so many bytes more, after which pieces of that length together take no memory. The text
    /// stays as it was, also where memory wasn't found.
    pub fn reserve(&mut self, more: usize) -> Result<(), OutOfMemory>
        ensures { self.new ≡ self.old }
    {
        match self.bytes.reserve(more) {
            Ok(()) => Ok(()),
            Err(_) => Err(OutOfMemory),
        }
    }

    /// The bytes.
    pub fn bytes(&self) -> &[u8]
        ensures { result.now ≡ self.now }
    {
        &self.bytes
    }
}
