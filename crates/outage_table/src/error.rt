use std::alloc::{AllocError, AllocFailed};

/// Why a unit wasn't added.
#[derive(Clone, Copy, Debug, PartialEq, Eq)]
pub enum AddError {
    /// The capacity of all units would pass 400,000 MW; `total` is what it would be.
    TooLarge {
        /// The capacity with the new unit, in MW.
        total: u64,
    },
    /// Memory wasn't found.
    OutOfMemory,
}

impl From<AllocError> for AddError {
    ghost use Rattle.std.specs.Prelude.{◌≡◌};
    ghost use Rattle.outage_table.specs.declared.error.AddError.{AddError};
    ghost use Rattle.outage_table.specs.declared.error.AddError.TheVariants.{OutOfMemory};

    ghost from_gives = { λ _ e. e ≡ OutOfMemory };

    fn from(_: AllocError) -> Self {
        AddError::OutOfMemory
    }
}

impl<T: Drop> From<AllocFailed<T>> for AddError {
    ghost use Rattle.std.specs.Prelude.{◌≡◌};
    ghost use Rattle.outage_table.specs.declared.error.AddError.{AddError};
    ghost use Rattle.outage_table.specs.declared.error.AddError.TheVariants.{OutOfMemory};

    ghost from_gives = { λ _ e. e ≡ OutOfMemory };

    fn from(_: AllocFailed<T>) -> Self {
        AddError::OutOfMemory
    }
}
