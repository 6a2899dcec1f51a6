use std::alloc::AllocError;

/// The cause for which settings make no setup, looked for in the order 2, 3, 4, 5, 1.
#[derive(Clone, Copy, Debug, PartialEq, Eq)]
pub enum SetupRefused {
    /// Memory ran out, before a fault that comes later was looked for.
    Memory = 1,
    /// A limit is passed: there are over 32 accounts or over 64 menu entries, or not 1 to 900 connections are to be
    /// admitted.
    Limit = 2,
    /// The hub's name is empty.
    Name = 3,
    /// The nick of an account is none, its password is empty, or two accounts have nicks of one normal form C.
    Account = 4,
    /// The name of a menu entry is empty, or its context is not 1 to 15.
    Command = 5,
}

/// The cause for which a list makes no accounts or no menu, looked for in the order 2, 3, 1.
#[derive(Clone, Copy, Debug, PartialEq, Eq)]
pub enum ListRefused {
    /// Memory ran out, before a fault that comes later was looked for.
    Memory = 1,
    /// There are too many entries.
    Limit = 2,
    /// An entry is not as it has to be.
    Entry = 3,
}

impl From<AllocError> for SetupRefused {
    ghost use Rattle.std.specs.Prelude.{◌≡◌};
    ghost use Rattle.hub_setup.specs.declared.refused.SetupRefused.TheVariants.{Memory};

    ghost from_gives = { λ _ refused. refused ≡ Memory };

    fn from(_: AllocError) -> SetupRefused {
        SetupRefused::Memory
    }
}

impl From<AllocError> for ListRefused {
    ghost use Rattle.std.specs.Prelude.{◌≡◌};
    ghost use Rattle.hub_setup.specs.declared.refused.ListRefused.TheVariants.{Memory};

    ghost from_gives = { λ _ refused. refused ≡ Memory };

    fn from(_: AllocError) -> ListRefused {
        ListRefused::Memory
    }
}
