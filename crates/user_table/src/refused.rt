ghost use Rattle.std.specs.Prelude.{◌≡◌};
ghost use Rattle.user_table.specs.declared.refused.TableRefused.TheVariants.{Memory};

use std::alloc::AllocError;

/// The reasons for which a table does not take a user or an update. The tests are made in the order 2, 3, 1.
#[derive(Clone, Copy, Debug, PartialEq, Eq)]
pub enum TableRefused {
    /// Memory ran out.
    Memory = 1,
    /// The nick is taken by another user.
    NickTaken = 2,
    /// The client identifier is taken by another user.
    CidTaken = 3,
}

impl From<AllocError> for TableRefused {
    ghost from_gives = { λ _ refused. refused ≡ Memory };

    fn from(_: AllocError) -> TableRefused {
        TableRefused::Memory
    }
}
