/// What a worker calls before it simulates a share of the samples, so that tests can hold it there.
pub trait Pause {
    /// Returns when the worker may go on with the samples `first` to `first + count - 1`.
    fn before(&self, first: u32, count: u32);
}

/// The pause that holds nobody.
#[derive(Clone, Copy, Debug)]
pub struct NoPause;

impl Pause for NoPause {
    fn before(&self, _first: u32, _count: u32) {}
}
