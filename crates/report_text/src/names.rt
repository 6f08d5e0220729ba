//! Names of zones, and of the zones of a set.
ghost use Rattle.std.specs.Prelude.{◌≡◌, ◌++◌, [], ◌∷◌, OnOk, if◌then◌else◌};
ghost use Rattle.system_model.specs.System.{zone_count};
ghost use Rattle.report_text.specs.TotalsText.{name_text, shown_byte, zones_in, zones_text};

use ra_base::{OutOfMemory, Text};
use system_model::System;
use zone_network::has_zone;

// The names of the zones of a mask, joined by `+`.
pub(crate) fn put_zone_set(out: &mut Text, system: &System, mask: u32) -> Result<(), OutOfMemory>
    ensures { OnOk result (out.new ≡ out.old
        ++ zones_text system.now.zone_names (zones_in mask (zone_count system.now))) }
{
    let mut first = true;
    for zone in 0..system.zones() {
        if has_zone(mask, zone) {
            put_joined(out, system.zone_name(zone), first)?;
            first = false;
        }
    }
    Ok(())
}

// A name with a `+` in front, unless it is the first.
fn put_joined(out: &mut Text, name: &[u8], first: bool) -> Result<(), OutOfMemory>
    ensures { OnOk result (out.new ≡ out.old ++ ((if first then [] else 43 ∷ []) ++ name_text name.now)) }
{
    if !first {
        out.push(b"+")?;
    }
    put_name(out, name)
}

// A name with `?` in place of control bytes.
pub(crate) fn put_name(out: &mut Text, name: &[u8]) -> Result<(), OutOfMemory>
    ensures { OnOk result (out.new ≡ out.old ++ name_text name.now) }
{
    for byte in name {
        out.push(&[shown(*byte)])?;
    }
    Ok(())
}

fn shown(byte: u8) -> u8
    ensures { result ≡ shown_byte byte }
{
    if byte < 32 || byte == 127 { b'?' } else { byte }
}
