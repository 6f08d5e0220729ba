//! Names of made parts.
ghost use Rattle.std.specs.Prelude.{◌≡◌, IfOk};
ghost use Rattle.system_model.specs.System.{IsName};
ghost use Rattle.system_maker.specs.MadeSystem.{made_name};

use decimal_text::put_whole;
use ra_base::{OutOfMemory, Text};
use std::alloc::Global;

/// A letter and the place of a part among those of its kind.
#[tactic(auto, using(crate::proofs::MadeLaws::name_fits))]
pub(crate) fn numbered(alloc: Global, letter: u8, at: u32) -> Result<Text, OutOfMemory>
    ensures value { IfOk result (λ name. name ≡ made_name letter at) }
    ensures name { IfOk result IsName }
{
    let mut name = Text::new(alloc);
    name.push(&[letter])?;
    put_whole(&mut name, u128::from(at))?;
    Ok(name)
}
