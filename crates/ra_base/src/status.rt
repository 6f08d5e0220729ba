ghost use Rattle.std.specs.Prelude.{◌≡◌};
ghost use Rattle.ra_base.specs.Outside.{status_code};

/// How a run of the program ended.
#[derive(Clone, Copy, Debug, PartialEq, Eq)]
pub enum Status {
    /// The answer was written whole.
    Done,
    /// The words ask for nothing that the program does.
    Words,
    /// A table is missing, too long or faulty.
    Table,
    /// A read failed.
    ReadFault,
    /// A write of the answer failed.
    WriteFault,
    /// Memory wasn't found.
    OutOfMemory,
    /// The console cancelled the campaign.
    Cancelled,
    /// A recorder refused an hour.
    RecorderRefused,
}

impl Status {
    /// The exit status that the program ends with.
    pub fn code(self) -> u8
        ensures { result ≡ status_code self }
    {
        match self {
            Status::Done => 0,
            Status::Words => 2,
            Status::Table => 3,
            Status::ReadFault => 4,
            Status::WriteFault => 5,
            Status::OutOfMemory => 6,
            Status::Cancelled => 7,
            Status::RecorderRefused => 8,
        }
    }
}
