ghost use Rattle.std.specs.Prelude.{◌≡◌, true, false, IfOk, IfErr};
ghost use Rattle.server_tasks.specs.Cries.{once_more};

use crate::slots::{Receipt, SlotEvent};
use futures::spin::GaveUp;

/// How often a task cried, and whether somebody was left to be woken. It is counted by the words of the cries alone.
#[derive(Clone, Copy)]
pub(crate) struct Cries {
    // It begins anew after 2^64.
    count: u64,
    has_more: bool,
}

impl Cries {
    /// Makes the count of a task that has not cried.
    pub(crate) fn none() -> Cries
        ensures { result ≡ record { count = 0; has_more = false } }
    {
        Cries {
            count: 0,
            has_more: false,
        }
    }

    /// Counts a cry by its word, with what it answered, or one that gave up. Answers whether somebody may be left.
    pub(crate) fn count(&mut self, cried: Result<(Receipt, bool), GaveUp>) -> bool
        requires { IfOk cried (λ cried. cried.0 ≡ SlotEvent.Cried cried.1) }
        ensures counted { self.new.count ≡ once_more self.old.count }
        ensures more { IfOk cried (λ cried. self.new.has_more ≡ cried.1) }
        ensures unsure { IfErr cried (λ _. self.new.has_more ≡ true) }
        ensures told { result ≡ self.new.has_more }
    {
        self.count = self.count.wrapping_add(1);
        self.has_more = match cried {
            Ok((_, has_more)) => has_more,
            Err(_) => true,
        };
        self.has_more
    }
}
