ghost use Rattle.std.specs.Prelude.{◌≡◌, ◌++◌, OnOk, OnErr};
ghost use Rattle.index_text.specs.CreditText.{kind_text, measure_text, decided_text, end_text, bracket_text};

use crate::ends::put_ends;
use capacity_credit::{Bracket, Kind, Measure};
use decimal_text::put_whole;
use fixed_interval::Enclosure;
use ra_base::{OutOfMemory, Text};

/// Appends the text of a bracket: what was asked, the index that candidates are compared with, and each
/// end in MW with its index, or `none` where no candidate is decided on that side. Without memory the
/// text stays as it was.
pub fn put_bracket(
    out: &mut Text,
    kind: Kind,
    measure: Measure,
    bracket: &Bracket,
) -> Result<(), OutOfMemory>
    ensures ok { OnOk result (out.new ≡ out.old ++ bracket_text kind measure bracket.now) }
    ensures err { OnErr result (out.new ≡ out.old) }
{
    let mut text = out.fresh();
    put_lines(&mut text, kind, measure, bracket)?;
    out.append(text)
}

#[tactic(auto, unfolding(crate::specs::CreditText::bracket_text))]
fn put_lines(
    out: &mut Text,
    kind: Kind,
    measure: Measure,
    bracket: &Bracket,
) -> Result<(), OutOfMemory>
    ensures { OnOk result (out.new ≡ out.old ++ bracket_text kind measure bracket.now) }
{
    out.push(b"credit ")?;
    put_kind(out, kind)?;
    out.push(b" ")?;
    put_measure(out, measure)?;
    out.push(b"\ntarget ")?;
    put_ends(out, bracket.target)?;
    out.push(b"\nlow")?;
    put_end(out, bracket.low, bracket.at_low)?;
    out.push(b"high")?;
    put_end(out, bracket.high, bracket.at_high)
}

fn put_kind(out: &mut Text, kind: Kind) -> Result<(), OutOfMemory>
    ensures { OnOk result (out.new ≡ out.old ++ kind_text kind) }
{
    match kind {
        Kind::Efc => out.push(b"efc"),
        Kind::Elcc => out.push(b"elcc"),
    }
}

fn put_measure(out: &mut Text, measure: Measure) -> Result<(), OutOfMemory>
    ensures { OnOk result (out.new ≡ out.old ++ measure_text measure) }
{
    match measure {
        Measure::Lole => out.push(b"lole"),
        Measure::Eue => out.push(b"eue"),
    }
}

// The rest of an end's line.
fn put_end(
    out: &mut Text,
    candidate: Option<u32>,
    index: Option<Enclosure>,
) -> Result<(), OutOfMemory>
    ensures { OnOk result (out.new ≡ out.old ++ end_text candidate index) }
{
    let Some(candidate) = candidate else {
        return out.push(b" none\n");
    };
    match index {
        Some(index) => put_decided(out, candidate, index),
        None => out.push(b" none\n"),
    }
}

#[tactic(auto, unfolding(crate::specs::CreditText::decided_text))]
fn put_decided(out: &mut Text, candidate: u32, index: Enclosure) -> Result<(), OutOfMemory>
    ensures { OnOk result (out.new ≡ out.old ++ decided_text candidate index.low index.high) }
{
    out.push(b" ")?;
    put_whole(out, u128::from(candidate))?;
    out.push(b" at ")?;
    put_ends(out, index)?;
    out.push(b"\n")
}
