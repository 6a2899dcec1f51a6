//! Who may hand over a line while somebody is behind, and who gives way.
ghost use Rattle.std.specs.Prelude.{◌≡◌, ◌+◌, ◌-◌, ◌<◌, ◌&&◌, true, false, None, Some, IsTrue, length, nat_lt, slice_get};
ghost use Rattle.server_tasks.specs.Amounts.{capped};
ghost use Rattle.server_tasks.specs.Becomes.{OneBecomes};
ghost use Rattle.server_tasks.specs.Bells.{is_among};
ghost use Rattle.server_tasks.specs.GivingWay.{way_by, admitted, throttled, given_at, line_begun, line_over, way_at};
ghost use Rattle.server_tasks.specs.Named.{SameIndex};

use crate::amount::Amount;
use crate::sender::{LITTLE, SHORT, Throttle};
use crate::sight::Sight;
use crate::slots::{Slot, Slots};

impl Slots {
    /// Answers whether the session of this slot may hand over so many bytes now. Where it may not, since somebody is behind, it
    /// is woken once nobody is, and at the next tick.
    pub(crate) fn lets_send(
        &mut self,
        slot: usize,
        bytes: u64,
        said: Amount,
        throttle: &mut Throttle,
    ) -> bool
        ensures told { result ≡ false → self.new.ticker ≡ None }
        ensures behind { result ≡ false → self.new.sight.is_behind ≡ true }
        ensures on_the_way { throttle.new.is_on_the_way ≡ (result && nat_lt 4_096 bytes) }
        ensures flagged { result ≡ false → (was : Slot) → slice_get self.new.slots.items slot ≡ Some was → was.is_held ≡ true }
        ensures bells { self.new.bells ≡ self.old.bells }
        ensures index { SameIndex self.old self.new }
    {
        self.end_line(slot);
        throttle.is_on_the_way = false;
        let is_long = bytes > SHORT;
        if is_long {
            self.look(said);
        }
        if !self.admits(slot, bytes, throttle) && !self.goes_unheld(slot) {
            return false;
        }
        if is_long {
            self.begin_line(slot, bytes);
            throttle.is_on_the_way = true;
        }
        true
    }

    /// Answers whether the session of this slot is to hand over so many bytes now.
    ///
    /// Who gave much of late waits for each client that is far behind and reads, and for others a while. Who says little gives
    /// way only where an outbox is nearly full, a while.
    fn admits(&mut self, slot: usize, bytes: u64, throttle: &mut Throttle) -> bool
        ensures answer { result ≡ admitted (way_at self.old slot bytes) throttle.old self.old.ticks self.old.sight bytes }
        ensures throttle { throttle.new ≡ throttled (way_at self.old slot bytes) self.old.ticks throttle.old }
        ensures idle { throttle.new.is_on_the_way ≡ throttle.old.is_on_the_way }
        ensures slots { self.new ≡ record self.old { sight = self.new.sight } }
        ensures bells { self.new.bells ≡ self.old.bells }
        ensures index { SameIndex self.old self.new }
        ensures held { self.new.held ≡ self.old.held }
    {
        match self.way(slot, bytes) {
            Way::Open => {
                throttle.open();
                true
            }
            Way::Shut => false,
            Way::Free => true,
            Way::InTurn => throttle.spend(self.ticks) && self.sight.spend(bytes),
        }
    }

    /// Tells how the session of this slot may hand over so many bytes now.
    fn way(&self, slot: usize, bytes: u64) -> Way
        ensures { result ≡ way_at self.now slot bytes }
    {
        let coming = self.on_the_way.saturating_add(bytes);
        let gives_much = self.given_by(slot).saturating_add(bytes) > LITTLE;
        way_of(&self.sight, coming, gives_much)
    }

    /// Gives what the session of this slot gave of late.
    fn given_by(&self, slot: usize) -> u64
        ensures { result ≡ given_at self.now.slots.items slot self.now.second }
    {
        match self.slots.get(slot) {
            Some(slot) => slot.given.of_late(self.second),
            None => 0,
        }
    }

    /// Puts the session of this slot among those who give way. Answers whether there is no room to remember it.
    fn goes_unheld(&mut self, slot: usize) -> bool
        ensures told { result ≡ false → self.new.ticker ≡ None }
        ensures there { (was : Slot) → result ≡ false → slice_get self.old.slots.items slot ≡ Some was → was.is_held ≡ false
            → IsTrue (is_among slot self.new.held.items) }
        ensures flagged { result ≡ false → (now : Slot) → slice_get self.new.slots.items slot ≡ Some now → now.is_held ≡ true }
        ensures behind { self.new.sight.is_behind ≡ true }
        ensures bells { self.new.bells ≡ self.old.bells }
        ensures index { SameIndex self.old self.new }
    {
        self.sight.is_behind = true;
        let place = slot;
        let Some(slot) = self.slots.get_mut(place) else {
            return true;
        };
        if slot.is_held {
            self.ticker = None;
            return false;
        }
        if self.held.push(place).is_err() {
            return true;
        }
        slot.is_held = true;
        self.ticker = None;
        false
    }

    /// Counts a long line of the session of this slot among those on the way.
    fn begin_line(&mut self, slot: usize, bytes: u64)
        ensures begun { OneBecomes (line_begun bytes) slot self.old.slots.items self.new.slots.items }
        ensures counted { slot < length self.old.slots.items → self.new.on_the_way ≡ capped (self.old.on_the_way + bytes) }
        ensures bells { self.new.bells ≡ self.old.bells }
        ensures index { SameIndex self.old self.new }
    {
        if let Some(slot) = self.slots.get_mut(slot) {
            slot.on_the_way = bytes;
            self.on_the_way = self.on_the_way.saturating_add(bytes);
        }
    }

    /// Notes that the last long line of the session of this slot was said, or will not be.
    pub(crate) fn end_line(&mut self, slot: usize)
        ensures over { OneBecomes line_over slot self.old.slots.items self.new.slots.items }
        ensures counted { (was : Slot) → slice_get self.old.slots.items slot ≡ Some was → self.new.on_the_way ≡ self.old.on_the_way - was.on_the_way }
        ensures bells { self.new.bells ≡ self.old.bells }
        ensures index { SameIndex self.old self.new }
    {
        if let Some(slot) = self.slots.get_mut(slot) {
            self.on_the_way = self.on_the_way.saturating_sub(slot.on_the_way);
            slot.on_the_way = 0;
        }
    }
}

/// How a session may hand over a line.
pub(crate) enum Way {
    /// Nobody is behind, and the sender begins anew.
    Open,
    /// It gives way as long as this lasts.
    Shut,
    /// It says little, and nobody's outbox is nearly full.
    Free,
    /// It gives way for a while, and then hands over some lines.
    InTurn,
}

/// Tells how a session may hand over a line, where so many bytes are coming with it, and where it gives much or does not.
fn way_of(sight: &Sight, coming: u64, gives_much: bool) -> Way
    ensures { result ≡ way_by sight.now coming gives_much }
{
    if !sight.would_be_behind(coming) {
        return Way::Open;
    }
    if gives_much && sight.one_reads {
        return Way::Shut;
    }
    if !gives_much && !sight.would_be_full(coming) {
        return Way::Free;
    }
    Way::InTurn
}
