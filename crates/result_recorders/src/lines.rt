//! What the lines of recorders are made of.
ghost use Rattle.std.specs.Prelude.{◌≡◌, ◌++◌, [], ◌∷◌, sum, OnOk, OnErr, Ok, Err, if◌then◌else◌};
ghost use Rattle.ra_base.specs.declared.limits.TheConstants.{MOST_ZONES};
ghost use Rattle.decimal_text.specs.DecimalText.{whole_text};
ghost use Rattle.result_recorders.specs.Lines.{amounts_text, zones_in, joined_text};

use decimal_text::put_whole;
use ra_base::limits::MOST_ZONES;
use ra_base::{Amounts, OutOfMemory, Text};
use zone_network::has_zone;

/// A word and a number.
pub(crate) fn put_counted(out: &mut Text, word: &[u8], count: u128) -> Result<(), OutOfMemory>
    ensures { OnOk result (out.new ≡ out.old ++ word.now ++ whole_text count) }
{
    out.push(word)?;
    put_whole(out, count)
}

/// A word, and each number of a list with a space in front.
pub(crate) fn put_amounts(out: &mut Text, word: &[u8], amounts: &Amounts) -> Result<(), OutOfMemory>
    ensures { OnOk result (out.new ≡ out.old ++ word.now ++ amounts_text amounts.now) }
{
    out.push(word)?;
    for at in 0..amounts.len() {
        put_counted(out, b" ", u128::from(amounts.get(at)))?;
    }
    Ok(())
}

/// The numbers of a mask's zones, joined by `+`.
pub(crate) fn put_zones(out: &mut Text, mask: u32) -> Result<(), OutOfMemory>
    ensures { OnOk result (out.new ≡ out.old ++ joined_text (zones_in mask MOST_ZONES)) }
{
    let mut first = true;
    for zone in 0..MOST_ZONES {
        if has_zone(mask, zone) {
            put_joined(out, zone, first)?;
            first = false;
        }
    }
    Ok(())
}

// A number with a `+` in front, unless it is the first.
fn put_joined(out: &mut Text, zone: u8, first: bool) -> Result<(), OutOfMemory>
    ensures { OnOk result (out.new ≡ out.old ++ ((if first then [] else 43 ∷ []) ++ whole_text zone)) }
{
    if !first {
        out.push(b"+")?;
    }
    put_whole(out, u128::from(zone))
}

/// The sum of a list.
pub(crate) fn total_of(amounts: &Amounts) -> u128
    ensures { result ≡ sum amounts.now }
{
    let mut total = 0;
    for at in 0..amounts.len() {
        total += u128::from(amounts.get(at));
    }
    total
}
