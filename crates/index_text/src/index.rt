ghost use Rattle.std.specs.Prelude.{◌≡◌, ℕ, ◌<◌, ◌++◌, length, OnOk, OnErr};
ghost use Rattle.std.specs.List.{flat_map, range_with_len};
ghost use Rattle.load_model.specs.Need.{peak_of};
ghost use Rattle.index_text.specs.IndexText.{head_text, hour_line, hour_text, index_text};

use crate::ends::put_ends;
use analytic_index::Analysis;
use decimal_text::put_whole;
use fixed_interval::Enclosure;
use ra_base::{OutOfMemory, Text};

/// The bytes of an hour's line, but for hours of very much load.
const HOUR_BYTES: usize = 128;

/// Appends the text of the indices: the number of hours and the peak, the expected hours of lost load
/// (LOLE), the expected unserved energy in MWh (EUE), and for each hour its need in MW, the probability
/// that less is in service and the expected unserved MW. Without memory the text stays as it was.
#[tactic(auto, unfolding(crate::specs::IndexText::index_text))]
pub fn put_index(out: &mut Text, analysis: &Analysis) -> Result<(), OutOfMemory>
    ensures ok { OnOk result (out.new ≡ out.old ++ index_text analysis.now) }
    ensures err { OnErr result (out.new ≡ out.old) }
{
    let mut text = out.fresh();
    // Room for all lines at once, since a text that grows is copied each time.
    text.reserve(analysis.loads().hours() as usize * HOUR_BYTES)?;
    put_head(&mut text, analysis)?;
    put_hours(&mut text, analysis)?;
    out.append(text)
}

// What stands before the hours.
#[tactic(auto, unfolding(crate::specs::IndexText::head_text))]
fn put_head(out: &mut Text, analysis: &Analysis) -> Result<(), OutOfMemory>
    ensures { OnOk result (out.new ≡ out.old ++ head_text analysis.now) }
{
    let loads = analysis.loads();
    let peak = loads.peak();
    let index = analysis.index();
    out.push(b"hours ")?;
    put_whole(out, u128::from(loads.hours()))?;
    out.push(b" peak ")?;
    put_whole(out, u128::from(peak.mw))?;
    out.push(b" hour ")?;
    put_whole(out, u128::from(peak.hour))?;
    out.push(b"\nlole ")?;
    put_ends(out, index.lole)?;
    out.push(b"\neue ")?;
    put_ends(out, index.eue)?;
    out.push(b"\n")
}

#[tactic(auto, using(decimal_text::proofs::Growing::text_steps))]
fn put_hours(out: &mut Text, analysis: &Analysis) -> Result<(), OutOfMemory>
    ensures { OnOk result (out.new ≡ out.old ++
        flat_map (hour_text analysis.now) (range_with_len 0 (length analysis.now.hours))) }
{
    for hour in 0..analysis.loads().hours() {
        put_hour(out, analysis, hour)?;
    }
    Ok(())
}

fn put_hour(out: &mut Text, analysis: &Analysis, hour: u32) -> Result<(), OutOfMemory>
    requires { hour < length analysis.now.hours }
    ensures { OnOk result (out.new ≡ out.old ++ hour_text analysis.now hour) }
{
    let need = analysis.loads().need(hour);
    let index = analysis.hourly(hour);
    put_line(out, hour, need, index.lole, index.eue)
}

#[tactic(auto, unfolding(crate::specs::IndexText::hour_line))]
fn put_line(
    out: &mut Text,
    hour: u32,
    need: u32,
    lolp: Enclosure,
    unserved: Enclosure,
) -> Result<(), OutOfMemory>
    ensures { OnOk result (out.new ≡ out.old
        ++ hour_line hour need lolp.low lolp.high unserved.low unserved.high) }
{
    out.push(b"hour ")?;
    put_whole(out, u128::from(hour))?;
    out.push(b" need ")?;
    put_whole(out, u128::from(need))?;
    out.push(b" lolp ")?;
    put_ends(out, lolp)?;
    out.push(b" unserved ")?;
    put_ends(out, unserved)?;
    out.push(b"\n")
}
