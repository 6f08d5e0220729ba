ghost use Rattle.std.specs.Prelude.{◌≡◌, ◌++◌, OnOk};
ghost use Rattle.decimal_text.specs.DecimalText.{whole_text};

use decimal_text::put_whole;
use ra_base::{OutOfMemory, Text};

// A word and a number.
pub(crate) fn put_counted(out: &mut Text, word: &[u8], count: u64) -> Result<(), OutOfMemory>
    ensures { OnOk result (out.new ≡ out.old ++ word.now ++ whole_text count) }
{
    out.push(word)?;
    put_whole(out, u128::from(count))
}
