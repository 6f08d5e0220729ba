//! The hours of a made system.
ghost use Rattle.std.specs.Prelude.{◌≡◌, ◌<◌, ◌≤◌, [], ◌∷◌, length, OnOk};
ghost use Rattle.system_model.specs.System.{SystemParts, amounts_of, zone_count, hour_count};
ghost use Rattle.system_maker.specs.MadeSystem.{made_load, made_variable, made_hour, made_hours};

use crate::components::ZONES;
use ra_base::{Amounts, OutOfMemory};
use std::alloc::Global;
use system_model::Draft;

const HOURS: u32 = 8_784;

/// Adds the hours.
#[tactic(auto, using(crate::proofs::MadeLaws::hour_steps))]
pub(crate) fn add_hours(alloc: Global, variant: u32, draft: &mut Draft) -> Result<(), OutOfMemory>
    requires zones { zone_count draft.old ≡ 3 }
    requires none { draft.old.hours ≡ [] }
    requires variant { variant < 1000 }
    ensures { OnOk result (draft.new ≡ record draft.old { hours = made_hours variant 8784 }) }
{
    let mut load = Amounts::zeros(alloc, ZONES as usize)?;
    let mut variable = Amounts::zeros(alloc, ZONES as usize)?;
    for hour in 0..HOURS {
        let mw = load_of(variant, hour);
        set_all(&mut load, mw, mw, mw);
        set_all(&mut variable, 0, variable_of(variant, hour), 0);
        draft.push_hour(&load, &variable)?;
    }
    Ok(())
}

// The load of each zone in an hour, in MW.
fn load_of(variant: u32, hour: u32) -> u32
    requires variant { variant < 1000 }
    requires hour { hour < 8784 }
    ensures load { result ≡ made_load variant hour }
    ensures most { result ≤ 2140 }
{
    let of_day = hour % 24;
    let day = hour / 24;
    1_600 + 40 * of_day.min(24 - of_day) + 10 * ((day + variant) % 7)
}

// The variable generation of the second zone in an hour, in MW.
fn variable_of(variant: u32, hour: u32) -> u32
    requires variant { variant < 1000 }
    requires hour { hour < 8784 }
    ensures variable { result ≡ made_variable variant hour }
    ensures most { result ≤ 190 }
{
    10 * ((7 * hour + variant) % 20)
}

// The amounts of the three zones.
fn set_all(amounts: &mut Amounts, first: u32, second: u32, third: u32)
    requires { length amounts.old ≡ 3 }
    ensures { amounts.new ≡ first ∷ second ∷ third ∷ [] }
{
    amounts.set(0, first);
    amounts.set(1, second);
    amounts.set(2, third);
}
