/// How far a campaign has come: the first sample that isn't given out yet, the number of samples to run, and
/// whether it is sealed and cancelled.
#[derive(Clone, Copy, Debug, PartialEq, Eq)]
pub struct Gate {
    /// The samples below it were given out.
    pub next: u32,
    /// The samples below it are to be run.
    pub target: u32,
    /// No extension comes any more.
    pub sealed: bool,
    /// Nothing is given out any more.
    pub cancelled: bool,
}
