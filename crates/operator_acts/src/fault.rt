ghost use Rattle.std.specs.Prelude.{◌≡◌};

use adc_ids::NickFault;
use std::alloc::AllocError;

/// The reasons for which a text is no act. The tests are made in the order 2, 1.
#[derive(Clone, Copy, Debug, PartialEq, Eq)]
pub enum ActFault {
    /// Memory ran out.
    Memory = 1,
    /// The text has none of the forms of an act.
    Bad = 2,
}

impl From<NickFault> for ActFault {
    ghost use Rattle.operator_acts.specs.Gives.{fault_of};

    ghost from_gives = { λ fault made. made ≡ fault_of fault };

    fn from(fault: NickFault) -> ActFault {
        match fault {
            NickFault::Memory => ActFault::Memory,
            NickFault::Invalid => ActFault::Bad,
        }
    }
}

/// The reasons for which a ban was not taken up. The tests are made in the order 2, 1.
#[derive(Clone, Copy, Debug, PartialEq, Eq)]
pub enum BanRefused {
    /// Memory ran out.
    Memory = 1,
    /// The bans are full: as many client identifiers as there may be have one, and this is another one.
    Full = 2,
}
