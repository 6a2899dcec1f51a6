use std::alloc::{AllocError, AllocFailed};

/// The reasons for which words make no update, or an update was not merged. They are looked for in the order 2, 3, 1.
#[derive(Clone, Copy, Debug, PartialEq, Eq)]
pub enum InfFault {
    /// Memory ran out.
    Memory = 1,
    /// A word begins with no name of a field.
    BadName = 2,
    /// The names are too many: there are more than 40.
    TooMany = 3,
}

impl From<AllocError> for InfFault {
    ghost use Rattle.std.specs.Prelude.{◌≡◌};
    ghost use Rattle.inf_fields.specs.declared.fault.InfFault.TheVariants.{Memory};

    ghost from_gives = { λ _ fault. fault ≡ Memory };

    fn from(_: AllocError) -> InfFault {
        InfFault::Memory
    }
}

impl<T: Drop> From<AllocFailed<T>> for InfFault {
    ghost use Rattle.std.specs.Prelude.{◌≡◌};
    ghost use Rattle.inf_fields.specs.declared.fault.InfFault.TheVariants.{Memory};

    ghost from_gives = { λ _ fault. fault ≡ Memory };

    fn from(_: AllocFailed<T>) -> InfFault {
        InfFault::Memory
    }
}
