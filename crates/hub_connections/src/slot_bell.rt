ghost use Rattle.std.specs.Prelude.{◌≡◌};

use adc_sessions::Bell;
use futures::spin::GaveUp;
use futures::task::Context;
use server_tasks::{Permission, Receipt, Throttle, Wakers};

/// The bell of a session: the waker of its slot.
#[derive(Drop)]
pub struct SlotBell<'a> {
    wakers: &'a Wakers,
    slot: usize,
    throttle: Throttle,
    // The receipt of the last look, the last permission to hand over a line, and the receipt of what was written last.
    looked: Option<Result<Receipt, GaveUp>>,
    permission: Option<Permission>,
    written: Option<Result<Receipt, GaveUp>>,
}

impl<'a> SlotBell<'a> {
    /// Makes the bell of the session of this slot.
    pub fn new(wakers: &'a Wakers, slot: usize) -> SlotBell<'a>
        ensures { result.slot ≡ slot }
    {
        SlotBell {
            wakers,
            slot,
            throttle: Throttle::new(),
            looked: None,
            permission: None,
            written: None,
        }
    }
}

impl Bell for SlotBell<'_> {
    ghost use Rattle.std.specs.Prelude.{◌≡◌};
    ghost use Rattle.hub_connections.specs.Wakes.{HearsBy};

    // It is always that of the same slot, and has asked about that slot.
    ghost hears = { λ a call b. (b.slot ≡ a.slot) × HearsBy call b.slot b.looked b.permission b.written };

    fn ring(&self) {
        let _ = self.wakers.wake_slot(self.slot);
    }

    fn wait(&mut self, cx: &mut Context<'_>) -> bool {
        let _ = self.wakers.end_line(self.slot, &mut self.throttle);
        let (receipt, was_woken) = self.wakers.was_woken(self.slot, cx);
        self.looked = Some(receipt);
        was_woken
    }

    fn may_hand(&mut self, bytes: usize) -> bool {
        let (permission, may_hand) = self
            .wakers
            .may_send(self.slot, bytes as u64, &mut self.throttle);
        self.permission = Some(permission);
        may_hand
    }

    fn wrote(&mut self, bytes: usize, was_full: bool) {
        if was_full {
            self.written = Some(self.wakers.count_written(self.slot, bytes as u64));
        }
    }
}
