use outboxes::OutboxRefused;
use std::alloc::{AllocError, AllocFailed};

/// The cause for which no hub was opened.
#[derive(Clone, Copy, Debug, PartialEq, Eq)]
pub enum OpenRefused {
    /// Memory ran out.
    Memory = 1,
}

/// The cause for which a connection was not admitted, looked for in the order 2, 3, 1. The hub is as before.
#[derive(Clone, Copy, Debug, PartialEq, Eq)]
pub enum JoinRefused {
    /// Memory ran out.
    Memory = 1,
    /// The hub is full: as many connections are open as it admits.
    Full = 2,
    /// The joins are spent: as many were accepted as can be counted.
    JoinsSpent = 3,
}

impl From<AllocError> for OpenRefused {
    fn from(_: AllocError) -> OpenRefused {
        OpenRefused::Memory
    }
}

impl From<AllocError> for JoinRefused {
    ghost use Rattle.std.specs.Prelude.{◌≡◌};
    ghost use Rattle.hub_core.specs.declared.refused.JoinRefused.TheVariants.{Memory};

    ghost from_gives = { λ _ refused. refused ≡ Memory };

    fn from(_: AllocError) -> JoinRefused {
        JoinRefused::Memory
    }
}

impl From<OutboxRefused> for OpenRefused {
    fn from(_: OutboxRefused) -> OpenRefused {
        OpenRefused::Memory
    }
}

impl From<OutboxRefused> for JoinRefused {
    ghost use Rattle.std.specs.Prelude.{◌≡◌};
    ghost use Rattle.hub_core.specs.declared.refused.JoinRefused.TheVariants.{Memory};

    ghost from_gives = { λ _ refused. refused ≡ Memory };

    fn from(_: OutboxRefused) -> JoinRefused {
        JoinRefused::Memory
    }
}

impl<T: Drop> From<AllocFailed<T>> for JoinRefused {
    ghost use Rattle.std.specs.Prelude.{◌≡◌};
    ghost use Rattle.hub_core.specs.declared.refused.JoinRefused.TheVariants.{Memory};

    ghost from_gives = { λ _ refused. refused ≡ Memory };

    fn from(_: AllocFailed<T>) -> JoinRefused {
        JoinRefused::Memory
    }
}
