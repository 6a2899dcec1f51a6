use std::alloc::AllocError;

/// The reasons for which the words of a SUP change nothing. The tests are made in the order 2, 3, 1.
#[derive(Clone, Copy, Debug, PartialEq, Eq)]
pub enum SupFault {
    /// Memory ran out.
    Memory = 1,
    /// A word is not `AD` or `RM` and a feature's name.
    Bad = 2,
    /// The features are too many: more than 64 are left.
    TooMany = 3,
}

impl From<AllocError> for SupFault {
    ghost use Rattle.std.specs.Prelude.{◌≡◌};
    ghost use Rattle.login_state.specs.declared.fault.SupFault.TheVariants.{Memory};

    ghost from_gives = { λ _ fault. fault ≡ Memory };

    fn from(_: AllocError) -> SupFault {
        SupFault::Memory
    }
}
