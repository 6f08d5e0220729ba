ghost use Rattle.std.specs.Prelude.{◌≡◌, ◌++◌, OnOk};
ghost use Rattle.index_text.specs.TableText.{ends_text};

use fixed_interval::{Enclosure, put_high, put_low};
use ra_base::{OutOfMemory, Text};

// Each of these functions writes into a text of its caller's own, which gives it up where memory runs out.

/// Both ends with their words.
#[tactic(auto, unfolding(crate::specs::TableText::ends_text))]
pub(crate) fn put_ends(out: &mut Text, a: Enclosure) -> Result<(), OutOfMemory>
    ensures { OnOk result (out.new ≡ out.old ++ ends_text a.low a.high) }
{
    out.push(b"low ")?;
    put_low(out, a)?;
    out.push(b" high ")?;
    put_high(out, a)
}
