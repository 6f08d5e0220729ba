//! The form of the words for `clap`.
ghost use Rattle.std.specs.Prelude.{◌≡◌, IfOk, fold};
ghost use Rattle.clap.specs.Words.{app_of};
ghost use Rattle.adequacy.specs.Words.{form, with_option, with_positional};

use super::options::OPTION_NAMES;
use clap::{Arg, Command};
use std::alloc::{AllocError, Global};

// The form: a command, its place, and the options of the table.
#[tactic(auto, unfolding(crate::specs::Words::form))]
pub(crate) fn form<'a>(alloc: Global) -> Result<Command<'a>, AllocError>
    ensures { IfOk result (λ command. app_of command ≡ form) }
{
    let bare = Command::new(alloc, "adequacy")
        .no_binary_name(true)
        .disable_help_flag(true);
    let command = with_positional(alloc, bare, "command")?;
    let command = with_positional(alloc, command, "place")?;
    with_options(alloc, command, &OPTION_NAMES)
}

// The command with more options.
fn with_options<'a>(
    alloc: Global,
    mut command: Command<'a>,
    names: &[&'a str],
) -> Result<Command<'a>, AllocError>
    ensures { IfOk result (λ more. app_of more
        ≡ fold (λ form name. with_option form name.now) (app_of command.entry) names.now) }
{
    for name in names {
        command = with_option(alloc, command, name)?;
    }
    Ok(command)
}

// The command with one more positional.
fn with_positional<'a>(
    alloc: Global,
    command: Command<'a>,
    name: &'a str,
) -> Result<Command<'a>, AllocError>
    ensures { IfOk result (λ more. app_of more ≡ with_positional (app_of command.entry) name.entry.now) }
{
    command.arg(Arg::new(alloc, name).required(true))
}

// The command with one more option.
fn with_option<'a>(
    alloc: Global,
    command: Command<'a>,
    name: &'a str,
) -> Result<Command<'a>, AllocError>
    ensures { IfOk result (λ more. app_of more ≡ with_option (app_of command.entry) name.entry.now) }
{
    command.arg(Arg::new(alloc, name).long(name))
}
