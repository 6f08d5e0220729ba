ghost use Rattle.std.specs.Prelude.{◌≡◌, ℕ, ◌+◌, ◌<◌, ◌≤◌, ◌++◌, OnOk, OnErr};
ghost use Rattle.std.specs.List.{flat_map, range_with_len};
ghost use Rattle.fixed_interval.specs.Rounding.{floor_div, ceil_div};
ghost use Rattle.outage_table.specs.States.{total_capacity};
ghost use Rattle.outage_table.specs.Grid.{grid};
ghost use Rattle.index_text.specs.TableText.{outage_text, outage_line, table_text};

use crate::ends::put_ends;
use decimal_text::put_whole;
use fixed_interval::Enclosure;
use outage_table::OutageTable;
use ra_base::limits::MOST_TABLE_MW;
use ra_base::{OutOfMemory, Text};

/// Appends the text of an outage table: the number of units and their capacity, and a line with the
/// enclosed probability of so much or more for each MW of outage where the next MW has another one.
/// Without memory the text stays as it was.
#[tactic(auto, unfolding(crate::specs::TableText::table_text))]
pub fn put_table(out: &mut Text, table: &OutageTable) -> Result<(), OutOfMemory>
    ensures ok { OnOk result (out.new ≡ out.old ++ table_text table.now) }
    ensures err { OnErr result (out.new ≡ out.old) }
{
    let mut text = out.fresh();
    text.push(b"units ")?;
    put_whole(&mut text, u128::from(table.units()))?;
    text.push(b" total ")?;
    put_whole(&mut text, u128::from(table.total()))?;
    text.push(b"\n")?;
    put_outages(&mut text, table)?;
    out.append(text)
}

#[tactic(auto, using(decimal_text::proofs::Growing::text_steps))]
fn put_outages(out: &mut Text, table: &OutageTable) -> Result<(), OutOfMemory>
    ensures { OnOk result (out.new ≡ out.old ++
        flat_map (outage_text table.now) (range_with_len 0 (total_capacity table.now + 1))) }
{
    for x in 0..table.total() + 1 {
        put_outage(out, table, x)?;
    }
    Ok(())
}

// The line of an outage, unless the next MW has the same entry.
fn put_outage(out: &mut Text, table: &OutageTable, x: u32) -> Result<(), OutOfMemory>
    requires { x ≤ MOST_TABLE_MW }
    ensures { OnOk result (out.new ≡ out.old ++ outage_text table.now x) }
{
    let entry = table.at_least(x);
    let next = table.at_least(x + 1);
    if entry.low == next.low && entry.high == next.high {
        return Ok(());
    }
    put_line(out, x, entry)
}

#[tactic(auto, unfolding(crate::specs::TableText::outage_line))]
fn put_line(out: &mut Text, x: u32, entry: Enclosure) -> Result<(), OutOfMemory>
    ensures { OnOk result (out.new ≡ out.old ++ outage_line x entry.low entry.high) }
{
    out.push(b"outage ")?;
    put_whole(out, u128::from(x))?;
    out.push(b" ")?;
    put_ends(out, entry)?;
    out.push(b"\n")
}
