//! How those are woken who give way, and when the ticker rests.
ghost use Rattle.std.specs.Prelude.{◌≡◌, ◌==◌, ◌⊎◌, ℕ, true, false, not, Some, IsSomeAnd, length, IsTrue, slice_get};
ghost use Rattle.futures.specs.Task.{IsArmed, Keeps, Wakes};
ghost use Rattle.server_tasks.specs.Bells.{is_among};
ghost use Rattle.server_tasks.specs.Named.{SameIndex};
ghost use Rattle.server_tasks.specs.Rung.{IsRung, IsAwake, OthersStay, SameSlots};

use crate::amount::Amount;
use crate::slots::{Slot, Slots};
use futures::task::{Context, Poll, Source};

impl Slots {
    /// Looks who is behind, and wakes those who give way where nobody is. Answers whether somebody is.
    pub(crate) fn look_and_let_go(&mut self, said: Amount) -> bool
        ensures behind { result ≡ self.new.sight.is_behind }
        ensures rung { result ≡ false → (slot : ℕ) → IsTrue (is_among slot self.old.held.items) → IsRung self.new.bells slot }
        ensures woken { result ≡ false → (slot : ℕ) → IsTrue (is_among slot self.old.held.items) → IsAwake self.new.bells slot }
        ensures nobody { result ≡ true → self.new.bells ≡ self.old.bells }
        ensures index { SameIndex self.old self.new }
    {
        let is_behind = self.look(said);
        if !is_behind {
            self.release_throttled();
        }
        is_behind
    }

    /// Wakes those who give way.
    pub(crate) fn release_throttled(&mut self)
        ensures rung { (slot : ℕ) → IsTrue (is_among slot self.old.held.items) → IsRung self.new.bells slot }
        ensures woken { (slot : ℕ) → IsTrue (is_among slot self.old.held.items) → IsAwake self.new.bells slot }
        ensures others { (slot : ℕ) → is_among slot self.old.held.items ≡ false
            → slice_get self.new.bells.bells.items slot ≡ slice_get self.old.bells.bells.items slot }
        ensures rings { self.new.bells.rings ≡ self.old.bells.rings }
        ensures sight { self.new.sight ≡ self.old.sight }
        ensures ticks { self.new.ticks ≡ self.old.ticks }
        ensures second { self.new.second ≡ self.old.second }
        ensures slots { SameSlots self.old.bells self.new.bells }
        ensures index { SameIndex self.old self.new }
    {
        while let Some(place) = self.held.pop() {
            self.release(place);
        }
    }

    /// Wakes the session of a slot, which gave way.
    fn release(&mut self, place: usize)
        ensures unflagged { (now : Slot) → slice_get self.new.slots.items place ≡ Some now → now.is_held ≡ false }
        ensures sight { self.new.sight ≡ self.old.sight }
        ensures ticks { self.new.ticks ≡ self.old.ticks }
        ensures second { self.new.second ≡ self.old.second }
        ensures rung { IsRung self.new.bells place }
        ensures woken { IsAwake self.new.bells place }
        ensures others { OthersStay self.old.bells self.new.bells place }
        ensures held { self.new.held ≡ self.old.held }
        ensures index { SameIndex self.old self.new }
    {
        self.wake_slot(place);
        if let Some(slot) = self.slots.get_mut(place) {
            slot.is_held = false;
        }
    }

    /// Answers whether somebody gives way. Where nobody does, the ticker is woken once somebody will.
    pub(crate) fn has_throttled(&mut self, cx: &mut Context<'_>, source: &Source) -> bool
        ensures some { result ≡ not (length self.old.held.items == 0) }
        ensures rests { result ≡ false → (cx.new.lacks_waker ≡ true) ⊎ IsSomeAnd self.new.ticker (λ waker. Wakes waker cx.old) }
        ensures held { self.new.held ≡ self.old.held }
        ensures registered { result ≡ false → IsArmed cx.new }
        ensures kept { Keeps cx.old cx.new }
        ensures bells { self.new.bells ≡ self.old.bells }
        ensures index { SameIndex self.old self.new }
    {
        if !self.held.is_empty() {
            return true;
        }
        let _: Poll<()> = cx.register(source, &mut self.ticker);
        false
    }
}
