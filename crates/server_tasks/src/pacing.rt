//! What waits for the clients of the slots, and what is seen of it.
ghost use Rattle.std.specs.Prelude.{◌≡◌, ◌+◌, ◌%◌, ◌^◌, Some, slice_get};
ghost use Rattle.server_tasks.specs.Becomes.{EachBecomes, OneBecomes};
ghost use Rattle.server_tasks.specs.Clients.{gave, took, wrote, with_line_for, ticked_slot, is_behind_at, client_is_behind, seen_with, IsSightOf};
ghost use Rattle.server_tasks.specs.Named.{SameIndex};

use crate::amount::Amount;
use crate::sight::Sight;
use crate::slots::{Slot, Slots};

impl Slot {
    /// Answers whether the slot has a client that is far behind.
    fn is_behind(&self, said: Amount) -> bool
        ensures { result ≡ client_is_behind self.now.backlog said }
    {
        match &self.backlog {
            Some(backlog) => backlog.is_behind(said),
            None => false,
        }
    }

    /// Counts a line of so many bytes for its client.
    fn give(&mut self, bytes: u64)
        ensures { self.new ≡ with_line_for bytes self.old }
    {
        if let Some(backlog) = &mut self.backlog {
            backlog.give(bytes);
        }
    }

    /// Counts what was taken for its client.
    fn note_taken(&mut self, said: Amount, taken: Amount, has_more: bool)
        ensures { self.new ≡ took said taken has_more self.old }
    {
        if let Some(backlog) = &mut self.backlog {
            backlog.note_taken(said, taken, has_more);
        }
    }

    /// Counts bytes that its client read.
    fn count_written(&mut self, bytes: u64)
        ensures { self.new ≡ wrote bytes self.old }
    {
        if let Some(backlog) = &mut self.backlog {
            backlog.count_written(bytes);
        }
    }

    /// Counts a tick, for which as many were due, where its client is far behind.
    fn tick(&mut self, said: Amount, due: u64)
        ensures { self.new ≡ ticked_slot said due self.old }
    {
        if let Some(backlog) = &mut self.backlog {
            backlog.tick(said, due);
        }
    }

    /// Adds its client to what is seen, where that is waited for.
    fn show(&self, said: Amount, sight: &mut Sight)
        ensures { sight.new ≡ seen_with self.now.backlog said sight.old }
    {
        if let Some(backlog) = &self.backlog
            && backlog.is_waited_for()
        {
            sight.add(backlog.waiting(said), backlog.reads());
        }
    }
}

impl Slots {
    /// Counts a line of so many bytes for the client of a slot. Answers whether it is behind.
    pub(crate) fn count_line(&mut self, place: usize, bytes: u64, said: Amount) -> bool
        ensures behind { result ≡ is_behind_at self.new.slots.items place said }
        ensures given { OneBecomes (with_line_for bytes) place self.old.slots.items self.new.slots.items }
        ensures seen { (was : Slot) → slice_get self.old.slots.items place ≡ Some was
            → self.new.sight ≡ seen_with (with_line_for bytes was).backlog said self.old.sight }
        ensures bells { self.new.bells ≡ self.old.bells }
        ensures index { SameIndex self.old self.new }
    {
        let Some(slot) = self.slots.get_mut(place) else {
            return false;
        };
        slot.give(bytes);
        slot.show(said, &mut self.sight);
        slot.is_behind(said)
    }

    /// Counts what the session of this slot gave in this second.
    pub(crate) fn count_given(&mut self, slot: usize, second: u64, bytes: u64)
        ensures given { OneBecomes (gave second bytes) slot self.old.slots.items self.new.slots.items }
        ensures second { self.new.second ≡ second }
        ensures bells { self.new.bells ≡ self.old.bells }
        ensures index { SameIndex self.old self.new }
    {
        self.second = second;
        if let Some(slot) = self.slots.get_mut(slot) {
            slot.given.count(second, bytes);
        }
    }

    /// Counts what was taken for the session of this slot.
    pub(crate) fn note_taken(&mut self, slot: usize, said: Amount, taken: Amount, has_more: bool)
        ensures taken { OneBecomes (took said taken has_more) slot self.old.slots.items self.new.slots.items }
        ensures bells { self.new.bells ≡ self.old.bells }
        ensures index { SameIndex self.old self.new }
    {
        if let Some(slot) = self.slots.get_mut(slot) {
            slot.note_taken(said, taken, has_more);
        }
    }

    /// Counts bytes that the socket of this slot took, which had been full.
    pub(crate) fn count_written(&mut self, slot: usize, bytes: u64)
        ensures written { OneBecomes (wrote bytes) slot self.old.slots.items self.new.slots.items }
        ensures bells { self.new.bells ≡ self.old.bells }
        ensures index { SameIndex self.old self.new }
    {
        if let Some(slot) = self.slots.get_mut(slot) {
            slot.count_written(bytes);
        }
    }

    /// Answers whether the client of this slot is far behind.
    pub(crate) fn is_slot_behind(&self, slot: usize, said: Amount) -> bool
        ensures { result ≡ is_behind_at self.now.slots.items slot said }
    {
        match self.slots.get(slot) {
            Some(slot) => slot.is_behind(said),
            None => false,
        }
    }

    /// Looks who is behind, and answers whether somebody is, so that senders give way.
    pub(crate) fn look(&mut self, said: Amount) -> bool
        ensures seen { IsSightOf self.new.sight said self.new.slots.items }
        ensures behind { result ≡ self.new.sight.is_behind }
        ensures ticks { self.new.ticks ≡ self.old.ticks }
        ensures second { self.new.second ≡ self.old.second }
        ensures bells { self.new.bells ≡ self.old.bells }
        ensures held { self.new.held ≡ self.old.held }
        ensures index { SameIndex self.old self.new }
    {
        let sight = self.sight_of(said);
        self.sight = sight;
        sight.is_behind
    }

    fn sight_of(&self, said: Amount) -> Sight
        ensures { IsSightOf result said self.now.slots.items }
    {
        let mut sight = Sight::CLEAR;
        for slot in &self.slots {
            slot.show(said, &mut sight);
        }
        sight
    }

    /// Answers whether somebody is behind, as was last seen.
    pub(crate) fn is_behind(&self) -> bool
        ensures { result ≡ self.now.sight.is_behind }
    {
        self.sight.is_behind
    }

    /// Counts a tick in this second, for which as many were due, for each client that is far behind.
    pub(crate) fn tick(&mut self, said: Amount, second: u64, due: u64)
        ensures clients { EachBecomes (ticked_slot said due) self.old.slots.items self.new.slots.items }
        ensures ticks { self.new.ticks ≡ (self.old.ticks + 1) % 2 ^ 64 }
        ensures second { self.new.second ≡ second }
        ensures held { self.new.held ≡ self.old.held }
        ensures bells { self.new.bells ≡ self.old.bells }
        ensures index { SameIndex self.old self.new }
    {
        self.ticks = self.ticks.wrapping_add(1);
        self.second = second;
        tick_all(&mut self.slots, said, due);
    }
}

/// Counts a tick, for which as many were due, for each client that is far behind.
fn tick_all(slots: &mut Vec<Slot>, said: Amount, due: u64)
    ensures { EachBecomes (ticked_slot said due) slots.old.items slots.new.items }
{
    for slot in slots.iter_mut() {
        slot.tick(said, due);
    }
}
