ghost use Rattle.std.specs.Prelude.{◌≡◌, ◌<◌, ◌≤◌, ◌-◌, ℕ, true, Some, None, length, IsTrue, slice_get, take};
ghost use Rattle.server_tasks.specs.Becomes.{OneBecomes};
ghost use Rattle.server_tasks.specs.Bells.{AreBells, AreDue, is_among, is_unheard, passed_over, woken_if_rung};

use futures::task::{Context, Poll, Source, Waker};
use std::alloc::{AllocError, Global};
use std::collections::VecDeque;

/// The number of sessions that are woken at once for a ring of everybody.
const PORTION: usize = 32;

/// The bell of a slot, by which its session is woken.
#[derive(Drop)]
pub(crate) struct BellState {
    // The number of rings of everybody that it has heard.
    heard: u64,
    is_called: bool,
    // Where it is dropped, the task is woken: so it is set to `None` to wake.
    waker: Option<Waker>,
    // It is among those that wait.
    waits: bool,
}

/// Puts the slot among the others, if it is not there. Answers whether it is there.
fn put_among(slots: &mut VecDeque<usize>, slot: usize, is_there: bool) -> bool
    requires { is_there ≡ true → IsTrue (is_among slot slots.old.items) }
    ensures there { result ≡ true → IsTrue (is_among slot slots.new.items) }
    ensures others { (other : ℕ) → IsTrue (is_among other slots.old.items) → IsTrue (is_among other slots.new.items) }
    ensures first { (n : ℕ) → n ≤ length slots.old.items → take n slots.new.items ≡ take n slots.old.items }
    ensures length { length slots.old.items ≤ length slots.new.items }
{
    is_there || slots.push_back(slot).is_ok()
}

impl BellState {
    /// Leaves a ring of everybody out, the last of `rings`.
    fn pass_over(&mut self, rings: u64)
        requires { 0 < rings }
        ensures { self.new ≡ passed_over rings self.old }
    {
        if self.heard == rings - 1 {
            self.heard = rings;
        }
    }

    /// Wakes the session, unless it has heard all of `rings`. Answers whether it has not.
    fn wake_if_rung(&mut self, rings: u64) -> bool
        ensures rung { result ≡ is_unheard rings self.old }
        ensures woken { self.new ≡ woken_if_rung rings self.old }
    {
        let is_rung = self.is_called || self.heard != rings;
        if is_rung {
            self.waits = false;
            self.waker = None;
        }
        is_rung
    }
}

/// Leaves a ring of everybody out at the bell of a slot, the last of `rings`.
fn pass_over(bells: &mut Vec<BellState>, slot: usize, rings: u64)
    requires { 0 < rings }
    ensures { OneBecomes (passed_over rings) slot bells.old.items bells.new.items }
{
    if let Some(bell) = bells.get_mut(slot) {
        bell.pass_over(rings);
    }
}

/// Wakes who waits at the bell of a slot, unless it has heard all of `rings`. Answers whether it has not.
fn wake_if_rung(bells: &mut Vec<BellState>, slot: usize, rings: u64) -> bool
    ensures woken { OneBecomes (woken_if_rung rings) slot bells.old.items bells.new.items }
    ensures rung { (was : BellState) → slice_get bells.old.items slot ≡ Some was → result ≡ is_unheard rings was }
{
    match bells.get_mut(slot) {
        Some(bell) => bell.wake_if_rung(rings),
        None => true,
    }
}

/// The bells of all slots.
#[derive(Drop)]
pub(crate) struct Bells {
    bells: Vec<BellState>,
    // The slots that have left a waker, and maybe some that were rung since.
    waiting: VecDeque<usize>,
    // The number of rings that were of everybody.
    rings: u64,
    // So many of the first that wait are due: everybody was rung for, and they were not woken yet.
    due: usize,
    // That of the task that wakes those who are due. Where it is dropped, the task is woken.
    crier: Option<Waker>,
    ghost are_bells: { AreBells bells.items waiting.items rings },
    ghost are_due: { AreDue bells.items waiting.items due rings },
    ghost within: { due ≤ length waiting.items },
    ghost crier_wakes: { 0 < due → crier ≡ None },
}

impl Bells {
    ghost use Rattle.std.specs.Prelude.{◌≢◌, ◌⊎◌, ◌==◌, ◌+◌, ◌^◌, false, not, IsSomeAnd};
    ghost use Rattle.futures.specs.Task.{IsArmed, Keeps, Wakes};
    ghost use Rattle.server_tasks.specs.Rung.{IsRung, HasHeard, IsAwake, IsDue, Rests, OthersStay, SameSlots, StaysRung, StaysOrIsWoken};

    /// Makes so many bells, with room for all that is ever kept of them.
    pub(crate) fn new(alloc: Global, count: usize) -> Result<Bells, AllocError> {
        let mut bells = Vec::with_capacity(alloc, count)?;
        for _slot in 0..count {
            bells.push(BellState {
                heard: 0,
                is_called: false,
                waker: None,
                waits: false,
            })?;
        }
        Ok(Bells {
            bells,
            waiting: VecDeque::with_capacity(alloc, count)?,
            rings: 0,
            due: 0,
            crier: None,
        })
    }

    /// Gives the bell of a slot to another session, which has heard all rings.
    pub(crate) fn reset(&mut self, slot: usize)
        ensures heard { HasHeard self.new slot }
        ensures woken { IsAwake self.new slot }
        ensures others { OthersStay self.old self.new slot }
    {
        let rings = self.rings;
        if let Some(bell) = self.bells.get_mut(slot) {
            bell.heard = rings;
            bell.is_called = false;
            bell.waker = None;
        }
    }

    /// Rings for the session of one slot.
    pub(crate) fn ring(&mut self, slot: usize)
        ensures rung { IsRung self.new slot }
        ensures woken { IsAwake self.new slot }
        ensures others { OthersStay self.old self.new slot }
    {
        if let Some(bell) = self.bells.get_mut(slot) {
            bell.is_called = true;
            bell.waker = None;
        }
    }

    /// Rings for everybody but the session of the slot `own`. A portion of those who wait is woken, and the others are due: the
    /// crier is woken, which cries until nobody is.
    pub(crate) fn ring_everybody(&mut self, own: usize)
        ensures rung { (slot : ℕ) → slot ≢ own → IsRung self.new slot }
        ensures woken { (slot : ℕ) → slot ≢ own → IsAwake self.new slot ⊎ IsDue self.new slot }
        ensures due { self.old.rings + 1 < 2 ^ 64 → self.new.due ≡ length self.old.waiting.items - 32 }
        ensures crier { 0 < self.new.due → self.new.crier ≡ None }
        ensures own { StaysRung self.old self.new own }
        ensures slots { SameSlots self.old self.new }
    {
        let Some(rings) = self.rings.checked_add(1) else {
            self.ring_each(own);
            return;
        };
        // Where somebody is still due afterwards, it is dropped, and so the crier woken.
        let crier = self.crier.take();
        self.count_ring(rings, own);
        if !self.cry() {
            self.crier = crier;
        }
    }

    /// Counts a ring of everybody but the session of the slot `own`, the last of `rings`: all who wait are due.
    fn count_ring(&mut self, rings: u64, own: usize)
        requires next { rings ≡ self.old.rings + 1 }
        requires crier { self.old.crier ≡ None }
        ensures rung { (slot : ℕ) → slot ≢ own → IsRung self.new slot }
        ensures due { self.new.due ≡ length self.old.waiting.items }
        ensures own { StaysRung self.old self.new own }
        ensures slots { SameSlots self.old self.new }
    {
        pass_over(&mut self.bells, own, rings);
        self.rings = rings;
        self.due = self.waiting.len();
    }

    /// Wakes the next portion of those who are due. Answers whether somebody is still due.
    fn cry(&mut self) -> bool
        ensures each { (slot : ℕ) → StaysOrIsWoken self.old self.new slot }
        ensures woken { (slot : ℕ) → IsRung self.old slot → IsAwake self.new slot ⊎ IsDue self.new slot }
        ensures due { self.new.due ≡ self.old.due - 32 }
        ensures more { result ≡ not (self.new.due == 0) }
        ensures rings { self.new.rings ≡ self.old.rings }
        ensures slots { SameSlots self.old self.new }
    {
        for _portion in 0..self.due.min(PORTION) {
            self.cry_first();
        }
        self.due > 0
    }

    /// Wakes the first of those who are due. If it has heard all rings, it goes on to wait behind the others.
    fn cry_first(&mut self)
        requires { 0 < self.old.due }
        ensures each { (slot : ℕ) → StaysOrIsWoken self.old self.new slot }
        ensures due { self.new.due ≡ self.old.due - 1 }
        ensures rings { self.new.rings ≡ self.old.rings }
        ensures slots { SameSlots self.old self.new }
    {
        self.due -= 1;
        if wake_if_rung(&mut self.bells, self.waiting[0], self.rings) {
            self.waiting.pop_front();
        } else {
            self.waiting.rotate_left(1);
        }
    }

    /// Cries once. Answers whether somebody is still due. Where nobody is, the task is woken once somebody will be.
    pub(crate) fn cry_on(&mut self, cx: &mut Context<'_>, source: &Source) -> bool
        ensures each { (slot : ℕ) → StaysOrIsWoken self.old self.new slot }
        ensures woken { (slot : ℕ) → IsRung self.old slot → IsAwake self.new slot ⊎ IsDue self.new slot }
        ensures due { self.new.due ≡ self.old.due - 32 }
        ensures more { result ≡ not (self.new.due == 0) }
        ensures rests { result ≡ false → (cx.new.lacks_waker ≡ true) ⊎ IsSomeAnd self.new.crier (λ waker. Wakes waker cx.old) }
        ensures rings { self.new.rings ≡ self.old.rings }
        ensures slots { SameSlots self.old self.new }
        ensures registered { result ≡ false → IsArmed cx.new }
        ensures kept { Keeps cx.old cx.new }
    {
        if self.cry() {
            return true;
        }
        let _: Poll<()> = cx.register(source, &mut self.crier);
        false
    }

    /// Rings for one after the other but the session of the slot `own`, where there is no number left for a ring of everybody.
    fn ring_each(&mut self, own: usize)
        ensures rung { (slot : ℕ) → slot ≢ own → IsRung self.new slot }
        ensures woken { (slot : ℕ) → slot ≢ own → IsAwake self.new slot }
        ensures own { StaysRung self.old self.new own }
        ensures slots { SameSlots self.old self.new }
    {
        for slot in 0..self.bells.len() {
            if slot != own {
                self.ring(slot);
            }
        }
    }

    /// Answers whether this slot was rung since the last `true`. Where it was not, the next ring wakes the task.
    pub(crate) fn was_rung(&mut self, slot: usize, cx: &mut Context<'_>, source: &Source) -> bool
        ensures seen { result ≡ false → HasHeard self.old slot }
        ensures heard { HasHeard self.new slot }
        ensures rests { result ≡ false → Rests self.new slot cx.old cx.new }
        ensures others { OthersStay self.old self.new slot }
        ensures registered { result ≡ false → IsArmed cx.new }
        ensures kept { Keeps cx.old cx.new }
    {
        let Some(bell) = self.bells.get_mut(slot) else {
            let _: Poll<()> = cx.yield_now();
            return false;
        };
        if bell.is_called || bell.heard != self.rings {
            bell.is_called = false;
            bell.heard = self.rings;
            return true;
        }
        // With no room to be found again, the session looks for itself.
        if !put_among(&mut self.waiting, slot, bell.waits) {
            return true;
        }
        bell.waits = true;
        let _: Poll<()> = cx.register(source, &mut bell.waker);
        false
    }
}
