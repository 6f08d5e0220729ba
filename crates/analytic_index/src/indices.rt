use fixed_interval::Enclosure;

/// What is expected over some hours, each in units of 2^-60.
#[derive(Clone, Copy, Debug, PartialEq, Eq)]
pub struct Index {
    /// The expected number of hours in which less is in service than is needed (LOLE).
    pub lole: Enclosure,
    /// The expected energy that isn't served, in MWh (EUE).
    pub eue: Enclosure,
}
