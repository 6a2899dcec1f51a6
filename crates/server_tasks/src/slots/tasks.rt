//! What the accept task and the ticker do to the slots.
ghost use Rattle.std.specs.Prelude.{◌≡◌, ◌≢◌, ◌+◌, ◌-◌, ◌%◌, ◌^◌, ◌==◌, ◌⊎◌, ℕ, true, false, not, None, IsSomeAnd, IsTrue};
ghost use Rattle.futures.specs.Task.{IsArmed, Keeps, Wakes};
ghost use Rattle.server_tasks.specs.Bells.{is_among};
ghost use Rattle.server_tasks.specs.Named.{SameIndex};
ghost use Rattle.server_tasks.specs.Rung.{IsRung, IsAwake, IsDue, SameSlots, StaysOrIsWoken};

use super::{Receipt, SlotEvent, Slots};
use crate::amount::Amount;
use futures::task::{Context, Source};

impl Slots {
    /// Wakes the accept task, or everybody where there is none. The session of the slot `own` makes the call.
    pub(crate) fn call_for_help(&mut self, own: usize) -> Receipt
        ensures word { result ≡ SlotEvent.CalledForHelp own }
        ensures task { self.new.accept.waker ≡ None }
        ensures everybody { self.old.accept.is_gone ≡ true → (slot : ℕ) → slot ≢ own
            → IsRung self.new.bells slot × (IsAwake self.new.bells slot ⊎ IsDue self.new.bells slot) }
        ensures nobody { self.old.accept.is_gone ≡ false → self.new.bells ≡ self.old.bells }
        ensures index { SameIndex self.old self.new }
    {
        if !self.accept.call() {
            self.ring_everybody(own);
        }
        Receipt {
            deed: SlotEvent::CalledForHelp(own),
        }
    }

    /// Counts a tick, as `tick` does, and wakes those who give way. Answers whether somebody is behind.
    pub(crate) fn pass_tick(&mut self, said: Amount, second: u64, due: u64) -> (Receipt, bool)
        ensures word { result.0 ≡ SlotEvent.Ticked second due }
        ensures behind { result.1 ≡ self.new.sight.is_behind }
        ensures rung { (slot : ℕ) → IsTrue (is_among slot self.old.held.items) → IsRung self.new.bells slot }
        ensures woken { (slot : ℕ) → IsTrue (is_among slot self.old.held.items) → IsAwake self.new.bells slot }
        ensures ticks { self.new.ticks ≡ (self.old.ticks + 1) % 2 ^ 64 }
        ensures second { self.new.second ≡ second }
        ensures index { SameIndex self.old self.new }
    {
        self.tick(said, second, due);
        let is_behind = self.look(said);
        self.release_throttled();
        let receipt = Receipt {
            deed: SlotEvent::Ticked(second, due),
        };
        (receipt, is_behind)
    }

    /// Stops using the accept task as a helper, and gives the word of it.
    pub(crate) fn end_help(&mut self) -> Receipt
        ensures word { result ≡ SlotEvent.HelpEnded }
        ensures gone { self.new.accept.is_gone ≡ true }
        ensures woken { self.new.accept.waker ≡ None }
        ensures bells { self.new.bells ≡ self.old.bells }
        ensures index { SameIndex self.old self.new }
    {
        self.accept.leave();
        Receipt {
            deed: SlotEvent::HelpEnded,
        }
    }

    /// Answers whether a socket was closed since the listener began to rest, and gives the word of it. Where none was, the task is
    /// woken once one is.
    pub(crate) fn look_for_room(&mut self, cx: &mut Context<'_>, source: &Source) -> (Receipt, bool)
        ensures word { result.0 ≡ SlotEvent.LookedForRoom result.1 }
        ensures room { result.1 ≡ self.old.accept.has_room }
        ensures rests { result.1 ≡ false → (cx.new.lacks_waker ≡ true) ⊎ IsSomeAnd self.new.accept.waker (λ waker. Wakes waker cx.old) }
        ensures bells { self.new.bells ≡ self.old.bells }
        ensures registered { result.1 ≡ false → IsArmed cx.new }
        ensures kept { Keeps cx.old cx.new }
        ensures index { SameIndex self.old self.new }
    {
        let has_room = self.accept.wait_for_room(cx, source);
        let receipt = Receipt {
            deed: SlotEvent::LookedForRoom(has_room),
        };
        (receipt, has_room)
    }

    /// Cries once, and gives the word of it. Answers whether somebody is still due. Where nobody is, the task is woken once
    /// somebody will be.
    pub(crate) fn cry(&mut self, cx: &mut Context<'_>, source: &Source) -> (Receipt, bool)
        ensures word { result.0 ≡ SlotEvent.Cried result.1 }
        ensures each { (slot : ℕ) → StaysOrIsWoken self.old.bells self.new.bells slot }
        ensures woken { (slot : ℕ) → IsRung self.old.bells slot → IsAwake self.new.bells slot ⊎ IsDue self.new.bells slot }
        ensures due { self.new.bells.due ≡ self.old.bells.due - 32 }
        ensures more { result.1 ≡ not (self.new.bells.due == 0) }
        ensures rests { result.1 ≡ false → (cx.new.lacks_waker ≡ true) ⊎ IsSomeAnd self.new.bells.crier (λ waker. Wakes waker cx.old) }
        ensures slots { SameSlots self.old.bells self.new.bells }
        ensures registered { result.1 ≡ false → IsArmed cx.new }
        ensures kept { Keeps cx.old cx.new }
        ensures index { SameIndex self.old self.new }
    {
        let has_more = self.bells.cry_on(cx, source);
        let receipt = Receipt {
            deed: SlotEvent::Cried(has_more),
        };
        (receipt, has_more)
    }
}
