use adc_line::FrameFault;
use hub_core::{LineRefused, OpenRefused, TakeRefused};
use std::alloc::AllocError;
use thiserror::Error;

/// The cause for which a run ended before its input and its connection did.
#[derive(Debug, Drop, Error, PartialEq, Eq)]
pub enum RunFault {
    /// Memory ran out.
    #[error("memory ran out")]
    Memory = 1,
    /// A read failed.
    #[error("the input could not be read")]
    Read = 2,
    /// A write or a flush failed, or a write took no byte of some.
    #[error("the output could not be written")]
    Write = 3,
    /// A line has more than 65,536 bytes.
    #[error("a line of the input is too long")]
    TooLong = 4,
    /// The input was read 1,048,576 times.
    #[error("the input was read too often")]
    Turns = 5,
}

impl From<AllocError> for RunFault {
    ghost use Rattle.std.specs.Prelude.{◌≡◌};
    ghost use Rattle.hub_stdio.specs.declared.fault.RunFault.TheVariants.{Memory};

    ghost from_gives = { λ _ fault. fault ≡ Memory };

    fn from(_: AllocError) -> RunFault {
        RunFault::Memory
    }
}

impl From<OpenRefused> for RunFault {
    ghost use Rattle.std.specs.Prelude.{◌≡◌};
    ghost use Rattle.hub_stdio.specs.declared.fault.RunFault.TheVariants.{Memory};

    ghost from_gives = { λ _ fault. fault ≡ Memory };

    fn from(_: OpenRefused) -> RunFault {
        RunFault::Memory
    }
}

impl From<LineRefused> for RunFault {
    ghost use Rattle.std.specs.Prelude.{◌≡◌};
    ghost use Rattle.hub_stdio.specs.declared.fault.RunFault.TheVariants.{Memory};

    ghost from_gives = { λ _ fault. fault ≡ Memory };

    fn from(_: LineRefused) -> RunFault {
        RunFault::Memory
    }
}

impl From<TakeRefused> for RunFault {
    ghost use Rattle.std.specs.Prelude.{◌≡◌};
    ghost use Rattle.hub_stdio.specs.declared.fault.RunFault.TheVariants.{Memory};

    ghost from_gives = { λ _ fault. fault ≡ Memory };

    fn from(_: TakeRefused) -> RunFault {
        RunFault::Memory
    }
}

impl From<FrameFault> for RunFault {
    ghost use Rattle.std.specs.Prelude.{◌≡◌};
    ghost use Rattle.hub_stdio.specs.declared.fault.RunFault.TheVariants.{Memory};

    ghost from_gives = { λ _ fault. fault ≡ Memory };

    fn from(_: FrameFault) -> RunFault {
        RunFault::Memory
    }
}
