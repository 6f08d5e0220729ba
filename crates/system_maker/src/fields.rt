//! Fields behind the first of a record, each with a comma in front.
ghost use Rattle.std.specs.Prelude.{◌≡◌, ◌≤◌, [], ◌∷◌, ◌++◌, OnOk};
ghost use Rattle.decimal_text.specs.DecimalText.{whole_text, fixed_text};
ghost use Rattle.system_maker.specs.PlainTables.{next_field, rate_text, share_text};

use decimal_text::{put_fixed, put_whole};
use ra_base::{OutOfMemory, Text};
use system_model::Rates;

/// A name.
pub(crate) fn put_name(out: &mut Text, name: &[u8]) -> Result<(), OutOfMemory>
    ensures { OnOk result (out.new ≡ out.old ++ next_field name.now) }
{
    out.push(b",")?;
    out.push(name)
}

/// A whole number.
pub(crate) fn put_number(out: &mut Text, value: u32) -> Result<(), OutOfMemory>
    ensures { OnOk result (out.new ≡ out.old ++ next_field (whole_text value)) }
{
    out.push(b",")?;
    put_whole(out, u128::from(value))
}

/// The limits of an interface or a line either way, in MW.
pub(crate) fn put_limits(out: &mut Text, forward: u32, backward: u32) -> Result<(), OutOfMemory>
    ensures { OnOk result (out.new ≡ out.old ++ next_field (whole_text forward)
        ++ next_field (whole_text backward)) }
{
    put_number(out, forward)?;
    put_number(out, backward)
}

/// An efficiency or a carryover in thousandths, with three places.
pub(crate) fn put_share(out: &mut Text, thousandths: u16) -> Result<(), OutOfMemory>
    ensures { OnOk result (out.new ≡ out.old ++ next_field (share_text thousandths)) }
{
    out.push(b",")?;
    put_fixed(out, u128::from(thousandths), 3)
}

/// A probability in billionths, with nine places.
pub(crate) fn put_rate(out: &mut Text, billionths: u32) -> Result<(), OutOfMemory>
    ensures { OnOk result (out.new ≡ out.old ++ next_field (rate_text billionths)) }
{
    out.push(b",")?;
    put_fixed(out, u128::from(billionths), 9)
}

/// Both rates, and the line's end.
pub(crate) fn put_rates(out: &mut Text, rates: Rates) -> Result<(), OutOfMemory>
    ensures { OnOk result (out.new ≡ out.old
        ++ next_field (rate_text rates.f) ++ next_field (rate_text rates.r) ++ 10 ∷ []) }
{
    put_rate(out, rates.f)?;
    put_rate(out, rates.r)?;
    out.push(b"\n")
}
