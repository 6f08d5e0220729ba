/// What a unit's worth is said in.
#[derive(Clone, Copy, Debug, PartialEq, Eq)]
pub enum Kind {
    /// Firm capacity: the system with the unit against the system with needs that are lower (EFC).
    Efc,
    /// Carried load: the system with the unit and needs that are higher against the system (ELCC).
    Elcc,
}

/// The index that is compared.
#[derive(Clone, Copy, Debug, PartialEq, Eq)]
pub enum Measure {
    /// The expected hours of lost load.
    Lole,
    /// The expected unserved energy.
    Eue,
}

/// On which side of another an enclosure lies without meeting it.
#[derive(Clone, Copy, Debug, PartialEq, Eq)]
pub(crate) enum Side {
    /// Its low end is greater than the other's high end.
    Above,
    /// Its high end is less than the other's low end.
    Below,
}
