//! What takes are counted as.
ghost use Rattle.std.specs.Prelude.{◌≡◌, IfOk};

use super::Wakers;
use crate::amount::Amount;
use crate::broadcasts::Broadcasts;
use crate::slots::{Receipt, SlotEvent};
use futures::spin::{GaveUp, lock_or_give_up};

impl Wakers {
    /// Counts what was taken for the session of this slot, after which more may be left or none is, and gives the word of it. Before the
    /// hub was asked for it, `said` had been said to everybody; what was said since may be left. Where that is much, the session is
    /// woken to take again.
    pub fn note_taken(
        &self,
        slot: usize,
        said: Broadcasts,
        taken: Amount,
        has_more: bool,
    ) -> Result<Receipt, GaveUp>
        ensures word { IfOk result (λ receipt. receipt ≡ SlotEvent.Took slot said.amount taken has_more) }
    {
        let noted = self.count_taken(slot, said.amount(), taken, has_more);
        if self.behind.look().is_none() {
            self.look();
        }
        noted
    }

    /// Counts what was taken for the session of this slot, and wakes it where much was said since.
    fn count_taken(
        &self,
        slot: usize,
        said: Amount,
        taken: Amount,
        has_more: bool,
    ) -> Result<Receipt, GaveUp>
        ensures word { IfOk result (λ receipt. receipt ≡ SlotEvent.Took slot said taken has_more) }
    {
        let mut slots = lock_or_give_up(&self.slots)?;
        let noted = slots.note_taken_by(slot, said, taken, has_more);
        if !has_more && slots.is_slot_behind(slot, self.broadcasts().amount()) {
            slots.wake_slot(slot);
        }
        Ok(noted)
    }
}
