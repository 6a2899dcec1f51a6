ghost use Rattle.std.specs.Prelude.{◌≡◌, ◌&&◌, true, false, nat_lt, IsSome, IfSome, IfOk, IfErr};
ghost use Rattle.futures.specs.Task.{IsArmed, Keeps};
ghost use Rattle.server_tasks.specs.GivingWay.{IsAnswered};

mod taking;

use crate::amount::Amount;
use crate::backlog::Backlog;
use crate::behind::Behind;
use crate::broadcasts::Broadcasts;
use crate::permission::Permission;
use crate::sender::{BURST, BURST_BYTES, SHORT, Throttle};
use crate::slots::{Receipt, SlotEvent, Slots};
use adc_base32::Sid;
use futures::spin::{GaveUp, lock, lock_or_give_up};
use futures::task::{Context, Poll, Source};
use std::alloc::{AllocError, Global};
use std::sync::Mutex;
use std::sync::atomic::{AtomicU64, Ordering};

/// The wakers of all sessions, one a slot. Whom a call concerned is woken, and nobody else.
///
/// One more waker is the accept task's. Where a call may be long, it wakes that task: so another thread comes to look for
/// what the sockets have, while the one of the call does not.
///
/// Also counted, roughly, is what waits for each client, and what each sender gives: senders give way while a client that reads
/// is far behind. No promise of a session rests on it. A slot that there is not is never woken, and holds up nobody.
#[derive(Drop)]
pub struct Wakers {
    source: Source,
    // The number of slots.
    count: usize,
    slots: Mutex<Slots>,
    // The number of lines that were said to everybody, and that of their bytes.
    said: AtomicU64,
    said_bytes: AtomicU64,
    behind: Behind,
}

impl Wakers {
    /// Makes the wakers of `count` slots. Refused only where memory runs out.
    pub fn new(alloc: Global, count: usize) -> Result<Wakers, AllocError>
        ensures { IfOk result (λ wakers. wakers.count ≡ count) }
    {
        Ok(Wakers {
            source: Source::new(),
            count,
            slots: Mutex::new(Slots::new(alloc, count)?),
            said: AtomicU64::new(0),
            said_bytes: AtomicU64::new(0),
            behind: Behind::nobody(),
        })
    }

    /// Gives the number of slots.
    pub fn count(&self) -> usize
        ensures { result ≡ self.now.count }
    {
        self.count
    }

    /// Gives the slot to a session, and gives the word of it.
    pub fn occupy(&self, slot: usize) -> Result<Receipt, GaveUp>
        ensures { IfOk result (λ receipt. receipt ≡ SlotEvent.Cleared slot true) }
    {
        self.clear(slot, true)
    }

    /// Gives the slot to a session that has come, or to none, and gives the word of it.
    fn clear(&self, slot: usize, is_taken: bool) -> Result<Receipt, GaveUp>
        ensures { IfOk result (λ receipt. receipt ≡ SlotEvent.Cleared slot is_taken) }
    {
        let mut slots = lock_or_give_up(&self.slots)?;
        let newcomer = if is_taken {
            Some(Backlog::of_newcomer(self.broadcasts()))
        } else {
            None
        };
        Ok(slots.clear(slot, newcomer))
    }

    /// Notes the session identifier by which the session of this slot is known, and gives the word of it.
    pub fn name(&self, slot: usize, sid: Sid) -> Result<Receipt, GaveUp>
        ensures { IfOk result (λ receipt. receipt ≡ SlotEvent.Named slot sid) }
    {
        let mut slots = lock_or_give_up(&self.slots)?;
        Ok(slots.name_by(slot, sid))
    }

    /// Takes the slot from its session, which is over, and gives the word of it.
    pub fn vacate(&self, slot: usize) -> Result<Receipt, GaveUp>
        ensures { IfOk result (λ receipt. receipt ≡ SlotEvent.Cleared slot false) }
    {
        let vacated = self.clear(slot, false);
        if self.behind.look().is_none() {
            self.look();
        }
        vacated
    }

    /// Wakes the session with this identifier, which was given a line of so many bytes by the session of the slot `own` in this
    /// second, and gives the word of it. A session is not woken by its own call: it takes what waits after each of them.
    pub fn wake_one(&self, sid: Sid, own: usize, bytes: u64, second: u64) -> Result<Receipt, GaveUp>
        ensures { IfOk result (λ receipt. receipt ≡ SlotEvent.WokeOne sid own bytes second) }
    {
        let mut slots = lock_or_give_up(&self.slots)?;
        let said = self.broadcasts().amount();
        let (receipt, is_behind) = slots.wake_one(sid, own, bytes, second, said);
        if is_behind {
            self.behind.note(true);
        }
        Ok(receipt)
    }

    /// Wakes two sessions, each of which was given a line of so many bytes, and gives the words of it.
    pub fn wake_two(
        &self,
        one: Sid,
        other: Sid,
        own: usize,
        bytes: u64,
        second: u64,
    ) -> Result<(Receipt, Receipt), GaveUp>
        ensures one { IfOk result (λ receipts. receipts.0 ≡ SlotEvent.WokeOne one own bytes second) }
        ensures other { IfOk result (λ receipts. receipts.1 ≡ SlotEvent.WokeOne other own bytes second) }
    {
        let first = self.wake_one(one, own, bytes, second)?;
        let then = self.wake_one(other, own, bytes, second)?;
        Ok((first, then))
    }

    /// Wakes all sessions but that of the slot `own`, which gave them lines of so many bytes in this second, and gives the word
    /// of it. 256 bytes more count for each line.
    pub fn wake_everybody(&self, own: usize, given: Amount, second: u64) -> Result<Receipt, GaveUp>
        ensures { IfOk result (λ receipt. receipt ≡ SlotEvent.WokeEverybody own given second) }
    {
        let mut slots = lock_or_give_up(&self.slots)?;
        Ok(slots.wake_everybody(own, given, second))
    }

    /// Wakes the session of one slot, and gives the word of it.
    pub fn wake_slot(&self, slot: usize) -> Result<Receipt, GaveUp>
        ensures { IfOk result (λ receipt. receipt ≡ SlotEvent.WokeSlot slot) }
    {
        let mut slots = lock_or_give_up(&self.slots)?;
        Ok(slots.wake_slot(slot))
    }

    /// Answers whether this slot was woken since the last `true`, with the word of it. Where it was not, the next wake wakes the
    /// task.
    pub fn was_woken(&self, slot: usize, cx: &mut Context<'_>) -> (Result<Receipt, GaveUp>, bool)
        ensures word { IfOk result.0 (λ receipt. receipt ≡ SlotEvent.Looked slot result.1) }
        ensures unseen { IfErr result.0 (λ _. result.1 ≡ false) }
        ensures registered { result.1 ≡ false → IsArmed cx.new }
        ensures kept { Keeps cx.old cx.new }
    {
        match lock_or_give_up(&self.slots) {
            Ok(mut slots) => {
                let (receipt, was_woken) = slots.was_woken(slot, cx, &self.source);
                (Ok(receipt), was_woken)
            }
            Err(given_up) => {
                let _: Poll<()> = cx.yield_now();
                (Err(given_up), false)
            }
        }
    }

    /// Counts a line of so many bytes that was said to everybody. Now and then it is looked who is behind.
    pub fn count_broadcast(&self, bytes: u64) {
        let lines = self.said.fetch_add(1, Ordering::SeqCst);
        let before = self.said_bytes.fetch_add(bytes, Ordering::SeqCst);
        let after = before.wrapping_add(bytes);
        if lines % BURST == 0 || before / BURST_BYTES != after / BURST_BYTES {
            self.look();
        }
    }

    /// Gives what was said to everybody so far.
    pub fn broadcasts(&self) -> Broadcasts {
        Broadcasts {
            amount: Amount {
                lines: self.said.load(Ordering::SeqCst),
                bytes: self.said_bytes.load(Ordering::SeqCst),
            },
        }
    }

    /// Counts bytes that the socket of this slot took, which had been full, and gives the word of it.
    pub fn count_written(&self, slot: usize, bytes: u64) -> Result<Receipt, GaveUp>
        ensures { IfOk result (λ receipt. receipt ≡ SlotEvent.Wrote slot bytes) }
    {
        match lock_or_give_up(&self.slots) {
            Ok(mut slots) => Ok(slots.count_written_by(slot, bytes)),
            Err(given_up) => Err(given_up),
        }
    }

    /// Answers whether somebody is behind, as was last seen, with the word of it.
    pub fn is_behind(&self) -> (Result<Receipt, GaveUp>, bool)
        ensures word { IfOk result.0 (λ receipt. receipt ≡ SlotEvent.LookedBehind result.1) }
        ensures unseen { IfErr result.0 (λ _. result.1 ≡ false) }
    {
        match lock_or_give_up(&self.slots) {
            Ok(slots) => {
                let (receipt, is_behind) = slots.look_behind();
                (Ok(receipt), is_behind)
            }
            Err(given_up) => (Err(given_up), false),
        }
    }

    /// Answers whether the session of this slot may hand over lines of so many bytes now, with the word of it. Where it may not,
    /// since somebody is behind, it is woken once nobody is, and at the next tick. Whatever it may hand over is to be done, and
    /// counted, before it asks again.
    pub fn may_send(&self, slot: usize, bytes: u64, throttle: &mut Throttle) -> (Permission, bool)
        ensures answered { IsAnswered result.0 slot bytes throttle.old.is_on_the_way result.1 }
        ensures on_the_way { throttle.new.is_on_the_way ≡ (result.1 && nat_lt 4_096 bytes) }
    {
        if bytes <= SHORT
            && !throttle.is_on_the_way
            && let Some(nobody) = self.behind.look()
        {
            throttle.open();
            return (Permission::Unasked(nobody), true);
        }
        match lock_or_give_up(&self.slots) {
            Ok(mut slots) => {
                let said = self.broadcasts().amount();
                let (receipt, may_send) = slots.may_send(slot, bytes, said, throttle);
                self.behind.note(slots.is_behind());
                (Permission::Asked(receipt), may_send)
            }
            Err(given_up) => {
                throttle.is_on_the_way = bytes > SHORT;
                (Permission::Lost(given_up), true)
            }
        }
    }

    /// Notes that the last line of the session of this slot was said, if it was a long one, and gives the word of it.
    pub fn end_line(&self, slot: usize, throttle: &mut Throttle) -> Option<Result<Receipt, GaveUp>>
        ensures asked { throttle.old.is_on_the_way ≡ true → IsSome result }
        ensures word { IfSome result (λ ended. IfOk ended (λ receipt. receipt ≡ SlotEvent.LineEnded slot)) }
        ensures over { throttle.new ≡ record throttle.old { is_on_the_way = false } }
    {
        if !throttle.is_on_the_way {
            return None;
        }
        throttle.is_on_the_way = false;
        match lock_or_give_up(&self.slots) {
            Ok(mut slots) => Some(Ok(slots.end_line_by(slot))),
            Err(given_up) => Some(Err(given_up)),
        }
    }

    /// Looks who is behind, and wakes those who gave way where nobody is.
    fn look(&self) {
        if let Some(mut slots) = lock(&self.slots) {
            let is_behind = slots.look_and_let_go(self.broadcasts().amount());
            self.behind.note(is_behind);
        }
    }

    /// Counts a tick in this second, for which as many were due as 5 ms have passed: those who give way ask again, and those for
    /// whom they do are waited for once more.
    pub fn tick(&self, second: u64, due: u64) {
        let _ = self.tick_by(second, due);
    }

    /// Counts it, and gives the word of it.
    pub(crate) fn tick_by(&self, second: u64, due: u64) -> Result<Receipt, GaveUp>
        ensures { IfOk result (λ receipt. receipt ≡ SlotEvent.Ticked second due) }
    {
        let mut slots = lock_or_give_up(&self.slots)?;
        let (receipt, is_behind) = slots.pass_tick(self.broadcasts().amount(), second, due);
        self.behind.note(is_behind);
        Ok(receipt)
    }

    /// Wakes the next of those for whom everybody was woken, 32 at once, and gives the word of it. Answers whether some are left.
    /// Where none are, the task is woken once some will be.
    pub(crate) fn cry(&self, cx: &mut Context<'_>) -> Result<(Receipt, bool), GaveUp>
        ensures word { IfOk result (λ cried. cried.0 ≡ SlotEvent.Cried cried.1) }
        ensures registered { IfOk result (λ cried. cried.1 ≡ false → IsArmed cx.new) }
        ensures kept { Keeps cx.old cx.new }
    {
        let mut slots = lock_or_give_up(&self.slots)?;
        Ok(slots.cry(cx, &self.source))
    }

    /// Answers whether somebody gives way. Where nobody does, the task is woken once somebody will.
    pub(crate) fn has_throttled(&self, cx: &mut Context<'_>) -> bool
        ensures registered { result ≡ false → IsArmed cx.new }
        ensures kept { Keeps cx.old cx.new }
    {
        match lock(&self.slots) {
            Some(mut slots) => slots.has_throttled(cx, &self.source),
            None => {
                let _: Poll<()> = cx.yield_now();
                false
            }
        }
    }

    /// Keeps the waker of the accept task, which is woken where help is called.
    pub fn wait_to_help(&self, cx: &mut Context<'_>)
        ensures registered { IsArmed cx.new }
        ensures kept { Keeps cx.old cx.new }
    {
        match lock(&self.slots) {
            Some(mut slots) => slots.accept.wait(cx, &self.source),
            None => {
                let _: Poll<()> = cx.yield_now();
            }
        }
    }

    /// Stops using the accept task as a helper, once it has ended.
    pub fn end_help(&self) {
        let _ = self.end_help_by();
    }

    /// Stops using it, and gives the word of it.
    pub(crate) fn end_help_by(&self) -> Result<Receipt, GaveUp>
        ensures { IfOk result (λ receipt. receipt ≡ SlotEvent.HelpEnded) }
    {
        let mut slots = lock_or_give_up(&self.slots)?;
        Ok(slots.end_help())
    }

    /// Wakes the accept task, or everybody where there is none, and gives the word of it. The session of the slot `own` makes the
    /// call.
    pub fn call_for_help(&self, own: usize) -> Result<Receipt, GaveUp>
        ensures { IfOk result (λ receipt. receipt ≡ SlotEvent.CalledForHelp own) }
    {
        let mut slots = lock_or_give_up(&self.slots)?;
        Ok(slots.call_for_help(own))
    }

    /// Notes that the listener begins to rest.
    pub fn rest(&self) {
        if let Some(mut slots) = lock(&self.slots) {
            slots.accept.rest();
        }
    }

    /// Notes that a socket was closed, so that another may be had. A listener that rests is woken.
    pub fn make_room(&self) {
        if let Some(mut slots) = lock(&self.slots) {
            slots.accept.make_room();
        }
    }

    /// Answers whether a socket was closed since the listener began to rest, with the word of it. Where none was, the task is woken
    /// once one is.
    pub fn wait_for_room(&self, cx: &mut Context<'_>) -> (Result<Receipt, GaveUp>, bool)
        ensures word { IfOk result.0 (λ receipt. receipt ≡ SlotEvent.LookedForRoom result.1) }
        ensures unseen { IfErr result.0 (λ _. result.1 ≡ false) }
        ensures registered { result.1 ≡ false → IsArmed cx.new }
        ensures kept { Keeps cx.old cx.new }
    {
        match lock_or_give_up(&self.slots) {
            Ok(mut slots) => {
                let (receipt, has_room) = slots.look_for_room(cx, &self.source);
                (Ok(receipt), has_room)
            }
            Err(given_up) => {
                let _: Poll<()> = cx.yield_now();
                (Err(given_up), false)
            }
        }
    }
}
