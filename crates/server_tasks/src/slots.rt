ghost use Rattle.std.specs.Prelude.{◌≡◌, ◌≢◌, ◌<◌, ◌+◌, ◌%◌, ◌^◌, ◌==◌, ◌⊎◌, ℕ, true, false, not, None, Some, IsSomeAnd, IfSome, is_some, length, IsTrue, slice_get};
ghost use Rattle.futures.specs.Task.{IsArmed, Keeps, Wakes};
ghost use Rattle.server_tasks.specs.Becomes.{OneBecomes};
ghost use Rattle.server_tasks.specs.Clients.{gave, IsGivenBy, newcomer_in, with_line_for, is_behind_at};
ghost use Rattle.server_tasks.specs.Senders.{weight_of};
ghost use Rattle.server_tasks.specs.Bells.{is_among};
ghost use Rattle.server_tasks.specs.Named.{IsSetAtName, IsNamed, OthersStayNamed, SameIndex, slot_at};
ghost use Rattle.server_tasks.specs.Rung.{IsRung, HasHeard, IsAwake, IsDue, Rests, OthersStay, SameSlots, StaysRung};

mod sending;
mod tasks;

use crate::accept_waker::AcceptWaker;
use crate::amount::Amount;
use crate::backlog::Backlog;
use crate::bells::Bells;
use crate::sender::{EACH_LINE, Given};
use crate::sight::Sight;
use adc_base32::Sid;
use futures::task::{Context, Poll, Source, Waker};
use std::alloc::{AllocError, Global};
use std::collections::BTreeMap;
use std::marker::Model;

/// The state of the session that has a slot, beside its bell.
#[derive(Drop)]
pub(crate) struct Slot {
    // The identifier by which it is woken alone. Nobody can mean it before it has one that others know.
    sid: Option<Sid>,
    // It is among those that give way.
    pub(crate) is_held: bool,
    // That of its client; nobody is waited for where the slot is free.
    pub(crate) backlog: Option<Backlog>,
    // What it gave of late to all, and to those who were far behind.
    pub(crate) given: Given,
    // The number of bytes of a long line of its own that is being said.
    pub(crate) on_the_way: u64,
}

/// The slots of all sessions, under the lock of `Wakers`.
#[derive(Drop)]
pub(crate) struct Slots {
    pub(crate) bells: Bells,
    pub(crate) slots: Vec<Slot>,
    // The slots by the identifiers of their sessions.
    pub(crate) places: BTreeMap<Sid, usize>,
    // There was no memory to put one there, so all slots are looked at.
    pub(crate) lacks_some: bool,
    // Those that give way.
    pub(crate) held: Vec<usize>,
    pub(crate) ticks: u64,
    // The second of the last call that told one.
    pub(crate) second: u64,
    pub(crate) sight: Sight,
    // The number of bytes of all long lines that are being said.
    pub(crate) on_the_way: u64,
    pub(crate) ticker: Option<Waker>,
    pub(crate) accept: AcceptWaker,
}

/// What was done to the slots.
#[derive(Clone, Copy)]
pub enum SlotEvent {
    /// The slot was given to another session: one with a client, or none.
    Cleared(usize, bool),
    /// The session of the slot is known by the identifier.
    Named(usize, Sid),
    /// The session with the identifier was woken for a line of so many bytes, which that of the slot gave it in this second.
    WokeOne(Sid, usize, u64, u64),
    /// Everybody was woken but the session of the slot, which gave them so much in this second.
    WokeEverybody(usize, Amount, u64),
    /// The session of the slot was woken.
    WokeSlot(usize),
    /// It was looked whether the session of the slot was woken: it was, or was not.
    Looked(usize, bool),
    /// It was asked whether the session of the slot may hand over so many bytes: it may, or may not.
    Asked(usize, u64, bool),
    /// The last line of the session of the slot is no longer on the way.
    LineEnded(usize),
    /// It was looked whether somebody is behind: somebody is, or nobody is.
    LookedBehind(bool),
    /// It was looked whether a socket was closed while the listener rests: one was, or none was.
    LookedForRoom(bool),
    /// The accept task was called for help, or everybody but the session of the slot.
    CalledForHelp(usize),
    /// The accept task is called for help no more.
    HelpEnded,
    /// A tick passed in this second, for which so many were due, and who gave way was woken.
    Ticked(u64, u64),
    /// The next of those were woken for whom everybody was woken: some are left, or none are.
    Cried(bool),
    /// So much was said to everybody before the session of the slot took so much, after which more may be left, or none is.
    Took(usize, Amount, Amount, bool),
    /// The socket of the slot, which had been full, took so many bytes.
    Wrote(usize, u64),
}

/// The word of what was done to the slots. Only they give it, under their lock, as they do it. Contracts see the deed.
#[derive(Drop)]
pub struct Receipt {
    deed: SlotEvent,
}

impl Model for Receipt {
    ghost use Rattle.server_tasks.specs.declared.slots.SlotEvent.{SlotEvent};

    ghost Value = { SlotEvent };

    ghost view = { λ receipt. receipt.deed };
}

/// Takes the identifier from the index, if this slot stands under it.
fn forget(places: &mut BTreeMap<Sid, usize>, sid: Option<Sid>, place: usize)
    ensures forgotten { IfSome sid (λ sid. slot_at places.new.entries sid ≢ Some place) }
    ensures others { (other : ℕ) (slot : ℕ) → slot ≢ place → slot_at places.old.entries other ≡ Some slot → slot_at places.new.entries other ≡ Some slot }
{
    let Some(sid) = sid else {
        return;
    };
    if let Some(found) = places.get(&sid).copied()
        && found == place
    {
        places.remove(&sid);
    }
}

impl Slots {
    /// Makes so many slots, with room for all that is ever kept of them.
    pub(crate) fn new(alloc: Global, count: usize) -> Result<Slots, AllocError> {
        let mut slots = Vec::with_capacity(alloc, count)?;
        for _slot in 0..count {
            slots.push(Slot {
                sid: None,
                is_held: false,
                backlog: None,
                given: Given::new(),
                on_the_way: 0,
            })?;
        }
        Ok(Slots {
            bells: Bells::new(alloc, count)?,
            slots,
            places: BTreeMap::new(alloc),
            lacks_some: false,
            held: Vec::with_capacity(alloc, count)?,
            ticks: 0,
            second: 0,
            sight: Sight::CLEAR,
            on_the_way: 0,
            ticker: None,
            accept: AcceptWaker::new(),
        })
    }

    /// Gives the slot to another session, of a client with this backlog, or to none.
    pub(crate) fn clear(&mut self, slot: usize, backlog: Option<Backlog>) -> Receipt
        ensures given { (was : Slot) → slice_get self.old.slots.items slot ≡ Some was
            → slice_get self.new.slots.items slot ≡ Some (newcomer_in was backlog) }
        ensures forgotten { (sid : ℕ) → IsNamed self.old slot sid → slot_at self.new.places.entries sid ≢ Some slot }
        ensures same { (other : ℕ) → other ≢ slot → slice_get self.new.slots.items other ≡ slice_get self.old.slots.items other }
        ensures word { result ≡ SlotEvent.Cleared slot (is_some backlog) }
        ensures heard { HasHeard self.new.bells slot }
        ensures woken { IsAwake self.new.bells slot }
        ensures others { OthersStay self.old.bells self.new.bells slot }
        ensures named { OthersStayNamed self.old self.new slot }
    {
        self.bells.reset(slot);
        self.end_line(slot);
        let place = slot;
        if let Some(slot) = self.slots.get_mut(place) {
            forget(&mut self.places, slot.sid, place);
            slot.sid = None;
            slot.backlog = backlog;
            slot.given = Given::new();
        }
        Receipt {
            deed: SlotEvent::Cleared(place, backlog.is_some()),
        }
    }

    /// Notes the identifier by which the session of this slot is known.
    pub(crate) fn name(&mut self, slot: usize, sid: Sid)
        ensures bells { self.new.bells ≡ self.old.bells }
        ensures named { slot < length self.old.slots.items
            → IsSetAtName sid (Some slot) self.old.places.entries self.new.places.entries ⊎ ((self.new.lacks_some ≡ true) × (self.new.places.entries ≡ self.old.places.entries)) }
        ensures known { slot < length self.old.slots.items → IsNamed self.new slot sid }
    {
        let place = slot;
        if let Some(slot) = self.slots.get_mut(place) {
            slot.sid = Some(sid);
            if self.places.insert(sid, place).is_err() {
                self.lacks_some = true;
            }
        }
    }

    /// Notes it as `name` does, and gives the word of it.
    pub(crate) fn name_by(&mut self, slot: usize, sid: Sid) -> Receipt
        ensures word { result ≡ SlotEvent.Named slot sid }
        ensures bells { self.new.bells ≡ self.old.bells }
        ensures named { slot < length self.old.slots.items
            → IsSetAtName sid (Some slot) self.old.places.entries self.new.places.entries ⊎ ((self.new.lacks_some ≡ true) × (self.new.places.entries ≡ self.old.places.entries)) }
        ensures known { slot < length self.old.slots.items → IsNamed self.new slot sid }
    {
        self.name(slot, sid);
        Receipt {
            deed: SlotEvent::Named(slot, sid),
        }
    }

    /// Wakes the session with this identifier, which was given a line of so many bytes. Answers whether it is behind.
    fn ring_one(&mut self, sid: Sid, own: usize, bytes: u64, said: Amount) -> bool
        ensures given { (place : ℕ) → slot_at self.old.places.entries sid ≡ Some place → place ≢ own
            → OneBecomes (with_line_for bytes) place self.old.slots.items self.new.slots.items }
        ensures behind { (place : ℕ) → slot_at self.old.places.entries sid ≡ Some place → place ≢ own
            → result ≡ is_behind_at self.new.slots.items place said }
        ensures rung { (place : ℕ) → slot_at self.old.places.entries sid ≡ Some place → place ≢ own → IsRung self.new.bells place }
        ensures woken { (place : ℕ) → slot_at self.old.places.entries sid ≡ Some place → place ≢ own → IsAwake self.new.bells place }
        ensures walked { slot_at self.old.places.entries sid ≡ None → self.old.lacks_some ≡ true → (place : ℕ) → IsNamed self.old place sid
            → (found : ℕ) × IsNamed self.old found sid × (found ≢ own → IsRung self.new.bells found) }
        ensures others { self.old.lacks_some ≡ false → (slot : ℕ) → slot_at self.old.places.entries sid ≢ Some slot
            → slice_get self.new.bells.bells.items slot ≡ slice_get self.old.bells.bells.items slot }
        ensures own { slice_get self.new.bells.bells.items own ≡ slice_get self.old.bells.bells.items own }
        ensures kept { (slot : ℕ) → IsRung self.old.bells slot → IsRung self.new.bells slot }
        ensures slots { SameSlots self.old.bells self.new.bells }
        ensures index { SameIndex self.old self.new }
    {
        match self.place(sid) {
            Some(place) if place != own => self.wake_for_line(place, bytes, said),
            _ => false,
        }
    }

    /// Wakes it, and gives the word of it. Where it is behind, the line counts for the session of the slot `own` in this second.
    pub(crate) fn wake_one(
        &mut self,
        sid: Sid,
        own: usize,
        bytes: u64,
        second: u64,
        said: Amount,
    ) -> (Receipt, bool)
        ensures word { result.0 ≡ SlotEvent.WokeOne sid own bytes second }
        ensures second { result.1 ≡ true → self.new.second ≡ second }
        ensures given { result.1 ≡ true → (place : ℕ) → slot_at self.old.places.entries sid ≡ Some place → place ≢ own
            → IsGivenBy own second bytes place self.old.slots.items self.new.slots.items }
        ensures rung { (place : ℕ) → slot_at self.old.places.entries sid ≡ Some place → place ≢ own → IsRung self.new.bells place }
        ensures woken { (place : ℕ) → slot_at self.old.places.entries sid ≡ Some place → place ≢ own → IsAwake self.new.bells place }
        ensures walked { slot_at self.old.places.entries sid ≡ None → self.old.lacks_some ≡ true → (place : ℕ) → IsNamed self.old place sid
            → (found : ℕ) × IsNamed self.old found sid × (found ≢ own → IsRung self.new.bells found) }
        ensures others { self.old.lacks_some ≡ false → (slot : ℕ) → slot_at self.old.places.entries sid ≢ Some slot
            → slice_get self.new.bells.bells.items slot ≡ slice_get self.old.bells.bells.items slot }
        ensures own { slice_get self.new.bells.bells.items own ≡ slice_get self.old.bells.bells.items own }
        ensures kept { (slot : ℕ) → IsRung self.old.bells slot → IsRung self.new.bells slot }
        ensures slots { SameSlots self.old.bells self.new.bells }
        ensures index { SameIndex self.old self.new }
    {
        let is_behind = self.ring_one(sid, own, bytes, said);
        if is_behind {
            self.count_given(own, second, bytes.saturating_add(EACH_LINE));
        }
        let receipt = Receipt {
            deed: SlotEvent::WokeOne(sid, own, bytes, second),
        };
        (receipt, is_behind)
    }

    /// Finds the slot of the session with this identifier.
    fn place(&self, sid: Sid) -> Option<usize>
        ensures found { (place : ℕ) → slot_at self.now.places.entries sid ≡ Some place → result ≡ Some place }
        ensures walked { slot_at self.now.places.entries sid ≡ None → self.now.lacks_some ≡ true
            → (place : ℕ) → IsNamed self.now place sid → IsSomeAnd result (λ found. IsNamed self.now found sid) }
        ensures complete { self.now.lacks_some ≡ false → result ≡ slot_at self.now.places.entries sid }
    {
        match self.places.get(&sid) {
            Some(place) => Some(*place),
            None if self.lacks_some => self.slots.iter().position(|slot| slot.sid == Some(sid)),
            None => None,
        }
    }

    /// Wakes the session of a slot, which was given a line of so many bytes. Answers whether it is behind.
    fn wake_for_line(&mut self, place: usize, bytes: u64, said: Amount) -> bool
        ensures behind { result ≡ is_behind_at self.new.slots.items place said }
        ensures given { OneBecomes (with_line_for bytes) place self.old.slots.items self.new.slots.items }
        ensures rung { IsRung self.new.bells place }
        ensures woken { IsAwake self.new.bells place }
        ensures others { OthersStay self.old.bells self.new.bells place }
        ensures index { SameIndex self.old self.new }
    {
        self.bells.ring(place);
        self.count_line(place, bytes, said)
    }

    /// Wakes everybody but the session of this slot.
    fn ring_everybody(&mut self, own: usize)
        ensures accept { self.new.accept ≡ self.old.accept }
        ensures clients { self.new.slots ≡ self.old.slots }
        ensures second { self.new.second ≡ self.old.second }
        ensures rung { (slot : ℕ) → slot ≢ own → IsRung self.new.bells slot }
        ensures woken { (slot : ℕ) → slot ≢ own → IsAwake self.new.bells slot ⊎ IsDue self.new.bells slot }
        ensures crier { 0 < self.new.bells.due → self.new.bells.crier ≡ None }
        ensures own { StaysRung self.old.bells self.new.bells own }
        ensures slots { SameSlots self.old.bells self.new.bells }
        ensures index { SameIndex self.old self.new }
    {
        self.bells.ring_everybody(own);
    }

    /// Wakes them, and gives the word of it. What they were given counts for the session of the slot `own` in this second.
    pub(crate) fn wake_everybody(&mut self, own: usize, given: Amount, second: u64) -> Receipt
        ensures word { result ≡ SlotEvent.WokeEverybody own given second }
        ensures given { OneBecomes (gave second (weight_of given)) own self.old.slots.items self.new.slots.items }
        ensures second { self.new.second ≡ second }
        ensures rung { (slot : ℕ) → slot ≢ own → IsRung self.new.bells slot }
        ensures woken { (slot : ℕ) → slot ≢ own → IsAwake self.new.bells slot ⊎ IsDue self.new.bells slot }
        ensures crier { 0 < self.new.bells.due → self.new.bells.crier ≡ None }
        ensures own { StaysRung self.old.bells self.new.bells own }
        ensures slots { SameSlots self.old.bells self.new.bells }
        ensures index { SameIndex self.old self.new }
    {
        let weight = given.lines.saturating_mul(EACH_LINE);
        self.count_given(own, second, given.bytes.saturating_add(weight));
        self.ring_everybody(own);
        Receipt {
            deed: SlotEvent::WokeEverybody(own, given, second),
        }
    }

    /// Wakes the session of one slot.
    pub(crate) fn wake_slot(&mut self, slot: usize) -> Receipt
        ensures word { result ≡ SlotEvent.WokeSlot slot }
        ensures clients { self.new.slots ≡ self.old.slots }
        ensures rung { IsRung self.new.bells slot }
        ensures woken { IsAwake self.new.bells slot }
        ensures others { OthersStay self.old.bells self.new.bells slot }
        ensures held { self.new.held ≡ self.old.held }
        ensures sight { self.new.sight ≡ self.old.sight }
        ensures ticks { self.new.ticks ≡ self.old.ticks }
        ensures second { self.new.second ≡ self.old.second }
        ensures index { SameIndex self.old self.new }
    {
        self.bells.ring(slot);
        Receipt {
            deed: SlotEvent::WokeSlot(slot),
        }
    }

    /// Answers whether this slot was woken since the last `true`, and gives the word of it. Where it was not, the next wake wakes
    /// the task.
    pub(crate) fn was_woken(
        &mut self,
        slot: usize,
        cx: &mut Context<'_>,
        source: &Source,
    ) -> (Receipt, bool)
        ensures word { result.0 ≡ SlotEvent.Looked slot result.1 }
        ensures seen { result.1 ≡ false → HasHeard self.old.bells slot }
        ensures heard { HasHeard self.new.bells slot }
        ensures rests { result.1 ≡ false → Rests self.new.bells slot cx.old cx.new }
        ensures others { OthersStay self.old.bells self.new.bells slot }
        ensures registered { result.1 ≡ false → IsArmed cx.new }
        ensures kept { Keeps cx.old cx.new }
        ensures index { SameIndex self.old self.new }
    {
        let was_woken = self.bells.was_rung(slot, cx, source);
        let receipt = Receipt {
            deed: SlotEvent::Looked(slot, was_woken),
        };
        (receipt, was_woken)
    }
}
