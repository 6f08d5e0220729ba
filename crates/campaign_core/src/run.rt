/// Samples in a row, by the first one and how many there are.
#[derive(Clone, Copy, Debug, PartialEq, Eq)]
pub struct SampleRange {
    pub first: u32,
    pub count: u32,
}

/// Samples in a row, by the first and the last one.
#[derive(Clone, Copy, Debug, PartialEq, Eq)]
pub struct Run {
    pub first: u32,
    pub last: u32,
}
