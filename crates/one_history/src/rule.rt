ghost use Rattle.std.specs.Prelude.{ℕ, List};
ghost use Rattle.one_history.specs.Rule.{Kept, opener};

use crate::view::SeatView;
use atomic_table::TableRule;

/// A value that stands at a history: `E` is an entry of it, and `A` what all of it is about, such as
/// a setup. It has no method, and its members exist for the proofs alone.
pub trait Recorded<E, A> {
    /// The number of the caller who made an entry.
    ghost by: { E → ℕ };

    /// The histories that are legal. They are written newest first.
    ghost legal: { A → List E → Type 0 };

    /// The value is what this history makes of it.
    ghost stands: { A → Self → List E → Type 0 };
}

/// The entry that is made. The proof of a call picks it.
pub trait MadeEntry<E> {
    ghost entry: { E };
}

// The rule of the lock.
pub struct OneHistory;

impl<T: Recorded<E, A>, E, A> TableRule<Option<T>, SeatView<E, A>, A> for OneHistory {
    ghost holds = { Kept T.by T.legal T.stands };

    ghost first = { opener };
}
