//! The commands of the program.
ghost use Rattle.std.specs.Prelude.{◌≡◌};
ghost use Rattle.adequacy.specs.CommandWords.{command_named, command_text, is_campaign, is_console, is_trial};

/// What the program is asked to do.
#[derive(Clone, Copy, Debug, PartialEq, Eq)]
pub enum Command {
    /// To tell how large a folder's system is.
    Check,
    /// To give its capacity outage table.
    Table,
    /// To give its expected hours of lost load and its expected unserved energy.
    Index,
    /// To bracket what a new unit is worth.
    Credit,
    /// To show one sample hour by hour.
    Trace,
    /// To simulate samples of a folder's system.
    Study,
    /// To simulate samples of a system that is made from a number.
    Trial,
    /// To simulate samples of a folder's system while lines are read.
    Console,
}

impl Command {
    // The command of a name.
    pub(crate) fn named(name: &str) -> Option<Command>
        ensures { result ≡ command_named name.now }
    {
        match name {
            "check" => Some(Command::Check),
            "table" => Some(Command::Table),
            "index" => Some(Command::Index),
            "credit" => Some(Command::Credit),
            "trace" => Some(Command::Trace),
            "study" => Some(Command::Study),
            "trial" => Some(Command::Trial),
            "console" => Some(Command::Console),
            _ => None,
        }
    }

    // The name of the command.
    pub(crate) fn name(self) -> &'static [u8]
        ensures { result.now ≡ command_text self }
    {
        match self {
            Command::Check => b"check",
            Command::Table => b"table",
            Command::Index => b"index",
            Command::Credit => b"credit",
            Command::Trace => b"trace",
            Command::Study => b"study",
            Command::Trial => b"trial",
            Command::Console => b"console",
        }
    }

    // Whether the command answers lines while its campaign runs.
    pub(crate) fn is_console(self) -> bool
        ensures { result ≡ is_console self }
    {
        matches!(self, Command::Console)
    }

    // Whether the command's system is made from a number.
    pub(crate) fn is_trial(self) -> bool
        ensures { result ≡ is_trial self }
    {
        matches!(self, Command::Trial)
    }

    // Whether the command runs a campaign of samples.
    pub(crate) fn is_campaign(self) -> bool
        ensures { result ≡ is_campaign self }
    {
        match self {
            Command::Study | Command::Trial | Command::Console => true,
            _ => false,
        }
    }
}
