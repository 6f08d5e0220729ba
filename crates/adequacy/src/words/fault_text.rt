//! The lines of faults in the words.
ghost use Rattle.std.specs.Prelude.{◌≡◌, ◌<◌, ◌++◌, OnOk, OnErr, length};
ghost use Rattle.adequacy.specs.WordFaultText.{option_line, option_text, word_fault_text};

use super::WordFault;
use super::options::OPTION_NAMES;
use ra_base::{OutOfMemory, Text};

/// Appends the line of a fault in the words. Without memory the text stays as it was.
pub fn put_word_fault(out: &mut Text, fault: WordFault) -> Result<(), OutOfMemory>
    ensures ok { OnOk result (out.new ≡ out.old ++ word_fault_text fault) }
    ensures err { OnErr result (out.new ≡ out.old) }
{
    match fault {
        WordFault::Usage => out.push(b"words: usage\n"),
        WordFault::NoCommand => out.push(b"words: no such command\n"),
        WordFault::BadNumber => out.push(b"words: bad number\n"),
        WordFault::NotFor { option, command } => {
            let mut text = out.fresh();
            put_option(&mut text, option, b" is not for ")?;
            text.push(command.name())?;
            text.push(b"\n")?;
            out.push(text.bytes())
        }
        WordFault::Missing { option } => put_option(out, option, b" is missing\n"),
        WordFault::Bad { option } => put_option(out, option, b" is bad\n"),
        WordFault::MostBelowSamples => out.push(b"words: --most is below --samples\n"),
    }
}

// Appends what an option is. Without memory the text stays as it was.
fn put_option(out: &mut Text, option: u8, what: &[u8]) -> Result<(), OutOfMemory>
    requires { length what.now < 100 }
    ensures ok { OnOk result (out.new ≡ out.old ++ option_line option what.now) }
    ensures err { OnErr result (out.new ≡ out.old) }
{
    out.push_three(b"words: --", option_name(option).as_bytes(), what)
}

// The name of an option, by its place in the table; empty past the last.
fn option_name(option: u8) -> &'static str
    ensures name { result.now ≡ option_text option }
    ensures short { length result.now < 100 }
{
    match OPTION_NAMES.get(usize::from(option)) {
        Some(name) => *name,
        None => "",
    }
}
