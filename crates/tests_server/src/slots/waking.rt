// Tests of who is woken, and who gives way.
use crate::machine::*;
use adc_base32::Sid;
use adc_sessions::Bell;
use hub_connections::SlotBell;
use server_tasks::{Amount, BURST, FAR_BEHIND, LITTLE, PATIENCE, Wakers};

/// The number of sessions.
const COUNT: usize = 4;

/// The number of bytes of each line, where nothing else is said.
const LINE: u64 = 60;

/// The second in which all is said.
const SECOND: u64 = 1_000;

/// The number of ticks after which a client that has just come has read nothing for too long.
const CREDIT: u64 = 1_200;

fn sid(rt: &impl Abort, number: u32) -> Sid {
    Sid::from_u32(number).expect(rt, "a number of a session identifier")
}

/// The tasks of sessions, all of which wait.
#[derive(Drop)]
struct Waiters {
    wakers: Wakers,
    tasks: Vec<MockTask>,
}

impl Waiters {
    fn try_new<R: Abort + RandomSource + AllocGlobal>(rt: &R) -> Option<Waiters> {
        let wakers = Wakers::new(rt.alloc(), COUNT).ok()?;
        let mut tasks = Vec::with_capacity(rt.alloc(), COUNT).ok()?;
        for slot in 0..COUNT {
            tasks.push(MockTask::new(rt).ok()?).ok()?;
            let _ = wakers.occupy(slot);
            let _ = wakers.name(slot, sid(rt, slot as u32 + 1));
        }
        Some(Waiters { wakers, tasks })
    }

    fn new<R: Abort + RandomSource + AllocGlobal>(rt: &R) -> Waiters {
        let waiters = again!(rt; Waiters::try_new(rt).ok_or(AllocError));
        waiters.all_wait(rt);
        waiters
    }

    /// Answers whether this one was woken; it waits now.
    fn hears(&self, rt: &impl Abort, slot: usize) -> bool {
        let task = self.tasks.get(slot).expect(rt, "a slot");
        task.enter(|cx| self.wakers.was_woken(slot, cx).1)
    }

    /// Lets all wait, twice where they heard something.
    fn all_wait(&self, rt: &impl Abort) {
        for slot in 0..COUNT {
            if self.hears(rt, slot) {
                assert!(rt; !self.hears(rt, slot));
            }
        }
    }

    /// Wakes two by a call of the first session.
    fn wakes_two(&self, rt: &impl Abort, one: u32, other: u32) {
        let (one, other) = (sid(rt, one), sid(rt, other));
        let _ = self.wakers.wake_two(one, other, 0, LINE, SECOND);
    }

    /// Stops the test unless exactly these are woken, and hear that they were.
    fn are_woken(&self, rt: &impl Abort, wanted: [bool; COUNT]) {
        for (task, woken) in self.tasks.iter().zip(wanted) {
            assert!(rt; task.is_woken() == woken, "{wanted:?} are to be woken");
        }
        for (slot, called) in wanted.into_iter().enumerate() {
            assert!(rt; self.hears(rt, slot) == called, "{slot}");
        }
        self.all_wait(rt);
    }
}

#[test]
fn those_are_woken_whom_a_call_concerned(rt: HostRuntime) {
    let waiters = Waiters::new(&rt);
    waiters.are_woken(&rt, [false; COUNT]);
    let _ = waiters.wakers.wake_one(sid(&rt, 3), 0, LINE, SECOND);
    waiters.are_woken(&rt, [false, false, true, false]);
    waiters.wakes_two(&rt, 2, 4);
    waiters.are_woken(&rt, [false, true, false, true]);
    let _ = waiters.wakers.wake_everybody(1, Amount::NONE, SECOND);
    waiters.are_woken(&rt, [true, false, true, true]);
    // A session is not woken by its own call.
    waiters.wakes_two(&rt, 1, 2);
    waiters.are_woken(&rt, [false, true, false, false]);
    // A wake that nobody waits for is heard.
    let _ = waiters.wakers.wake_everybody(0, Amount::NONE, SECOND);
    let _ = waiters.wakers.wake_everybody(1, Amount::NONE, SECOND);
    let _ = waiters.wakers.wake_one(sid(&rt, 2), 0, LINE, SECOND);
    waiters.are_woken(&rt, [true, true, true, true]);
}

#[test]
fn who_left_is_not_woken_alone(rt: HostRuntime) {
    let waiters = Waiters::new(&rt);
    let _ = waiters.wakers.vacate(2);
    waiters.all_wait(&rt);
    let _ = waiters.wakers.wake_one(sid(&rt, 3), 0, LINE, SECOND);
    waiters.are_woken(&rt, [false; COUNT]);
    let _ = waiters.wakers.name(2, sid(&rt, 9));
    let _ = waiters.wakers.wake_one(sid(&rt, 9), 0, LINE, SECOND);
    waiters.are_woken(&rt, [false, false, true, false]);
}

#[test]
fn a_call_for_help_wakes_the_accepting_task(rt: HostRuntime) {
    let waiters = Waiters::new(&rt);
    let helper = again!(&rt; MockTask::new(&rt));
    helper.enter(|cx| waiters.wakers.wait_to_help(cx));
    assert!(&rt; !helper.is_woken());
    let _ = waiters.wakers.call_for_help(0);
    assert!(&rt; helper.is_woken());
    waiters.are_woken(&rt, [false; COUNT]);
    waiters.wakers.end_help();
    let _ = waiters.wakers.call_for_help(0);
    waiters.are_woken(&rt, [false, true, true, true]);
}

/// Says so many lines to everybody, whoever does.
fn says(waiters: &Waiters, count: u64) {
    for _line in 0..count {
        waiters.wakers.count_broadcast(LINE);
    }
}

/// Takes all that waits for the session of this slot.
fn takes_all(waiters: &Waiters, slot: usize) {
    let wakers = &waiters.wakers;
    let _ = wakers.note_taken(slot, wakers.broadcasts(), Amount::of_line(LINE), false);
}

/// Takes one line of all that wait, so that as much waits as before once another is said.
fn moves(waiters: &Waiters, slot: usize) {
    let wakers = &waiters.wakers;
    let _ = wakers.note_taken(slot, wakers.broadcasts(), Amount::of_line(LINE), true);
}

/// Lets the session of this slot give so many bytes, of which all have heard.
fn gives(rt: &impl Abort, waiters: &Waiters, slot: usize, bytes: u64) {
    let given = Amount { lines: 0, bytes };
    let _ = waiters.wakers.wake_everybody(slot, given, SECOND);
    waiters.all_wait(rt);
}

/// The sessions where the first gave more than little, and so many lines were said since.
fn much_given<R: Abort + RandomSource + AllocGlobal>(rt: &R, lines: u64) -> Waiters {
    let waiters = Waiters::new(rt);
    gives(rt, &waiters, 0, LITTLE + 1);
    says(&waiters, lines);
    waiters
}

/// Stops the test unless so many lines may be handed over, and no more.
fn hands_a_burst(rt: &impl Abort, bell: &mut SlotBell<'_>) {
    for _line in 0..BURST {
        assert!(rt; bell.may_hand(60));
    }
    assert!(rt; !bell.may_hand(60));
}

#[test]
fn who_gives_much_gives_way_to_who_is_behind(rt: HostRuntime) {
    let waiters = much_given(&rt, FAR_BEHIND.lines);
    let mut bell = SlotBell::new(&waiters.wakers, 0);
    assert!(&rt; bell.may_hand(60));
    says(&waiters, BURST);
    // All are behind. It gives way, and is rung for once nobody is.
    assert!(&rt; !bell.may_hand(60));
    waiters.are_woken(&rt, [false; COUNT]);
    for slot in 0..COUNT {
        assert!(&rt; !bell.may_hand(60));
        takes_all(&waiters, slot);
    }
    assert!(&rt; bell.may_hand(60));
    waiters.are_woken(&rt, [true, false, false, false]);
}

#[test]
fn who_says_little_does_not_give_way(rt: HostRuntime) {
    let waiters = Waiters::new(&rt);
    let mut bell = SlotBell::new(&waiters.wakers, 0);
    gives(&rt, &waiters, 0, LITTLE - 60);
    gives(&rt, &waiters, 1, 100 * LITTLE);
    says(&waiters, FAR_BEHIND.lines + BURST);
    assert!(&rt; waiters.wakers.is_behind().1 && bell.may_hand(60));
    // Its line itself would be much.
    assert!(&rt; !bell.may_hand(61));
    // Nor does it for long where an outbox is nearly full.
    says(&waiters, 256);
    for _tick in 0..PATIENCE {
        assert!(&rt; !bell.may_hand(60));
        moves(&waiters, 1);
        says(&waiters, 1);
        waiters.wakers.tick(SECOND, 1);
    }
    hands_a_burst(&rt, &mut bell);
}

#[test]
fn much_is_little_two_seconds_later(rt: HostRuntime) {
    let waiters = much_given(&rt, FAR_BEHIND.lines + BURST);
    let mut bell = SlotBell::new(&waiters.wakers, 0);
    assert!(&rt; !bell.may_hand(60));
    waiters.wakers.tick(SECOND + 1, 1);
    assert!(&rt; !bell.may_hand(60));
    waiters.wakers.tick(SECOND + 2, 1);
    assert!(&rt; waiters.wakers.is_behind().1 && bell.may_hand(60));
}

#[test]
fn who_gives_much_waits_for_who_reads(rt: HostRuntime) {
    let waiters = much_given(&rt, FAR_BEHIND.lines + BURST);
    let mut bell = SlotBell::new(&waiters.wakers, 0);
    waiters.wakers.tick(SECOND, CREDIT);
    for _tick in 0..10 * PATIENCE {
        assert!(&rt; !bell.may_hand(60));
        // 20 KB a second, and no take.
        let _ = waiters.wakers.count_written(1, 100);
        waiters.wakers.tick(SECOND, 1);
    }
    // Once it reads no more, it is waited for no longer than it has earned.
    for _tick in 0..100 {
        waiters.wakers.tick(SECOND, 1);
    }
    assert!(&rt; !waiters.wakers.is_behind().1 && bell.may_hand(60));
}

#[test]
fn who_gives_much_gives_way_for_a_while_to_who_hardly_moves(rt: HostRuntime) {
    let waiters = much_given(&rt, FAR_BEHIND.lines + 100);
    let mut bell = SlotBell::new(&waiters.wakers, 0);
    waiters.wakers.tick(SECOND, CREDIT);
    for _tick in 0..PATIENCE {
        assert!(&rt; !bell.may_hand(60));
        // Some of them move, so that they are waited for.
        moves(&waiters, 1);
        waiters.wakers.tick(SECOND, 1);
        waiters.are_woken(&rt, [true, false, false, false]);
    }
    // It has waited for long, and may hand over some.
    hands_a_burst(&rt, &mut bell);
}

#[test]
fn who_never_moves_holds_up_nobody(rt: HostRuntime) {
    let waiters = much_given(&rt, 2 * FAR_BEHIND.lines);
    let mut bell = SlotBell::new(&waiters.wakers, 0);
    waiters.wakers.tick(SECOND, CREDIT);
    for slot in 0..COUNT {
        moves(&waiters, slot);
    }
    for _tick in 0..PATIENCE {
        assert!(&rt; !bell.may_hand(60));
        waiters.wakers.tick(SECOND, 1);
    }
    assert!(&rt; !waiters.wakers.is_behind().1);
    for _line in 0..10 * BURST {
        assert!(&rt; bell.may_hand(60));
        waiters.wakers.count_broadcast(LINE);
    }
}

#[test]
fn long_lines_on_the_way_count(rt: HostRuntime) {
    let waiters = Waiters::new(&rt);
    let mut first = SlotBell::new(&waiters.wakers, 0);
    let mut second = SlotBell::new(&waiters.wakers, 1);
    let mut third = SlotBell::new(&waiters.wakers, 2);
    // Nothing was said, and half an outbox is on the way.
    assert!(&rt; first.may_hand(262_144) && second.may_hand(262_144));
    assert!(&rt; !third.may_hand(10_000));
    // The first has said its line: it asks for another, or rests.
    waiters.wakers.count_broadcast(200_000);
    assert!(&rt; first.may_hand(60));
    assert!(&rt; third.may_hand(10_000));
    // The second has gone.
    assert!(&rt; !first.may_hand(100_000));
    let _ = waiters.wakers.vacate(1);
    assert!(&rt; first.may_hand(100_000));
}

#[test]
fn who_gives_much_to_one_gives_way_and_nobody_else(rt: HostRuntime) {
    let waiters = Waiters::new(&rt);
    let mut bell = SlotBell::new(&waiters.wakers, 0);
    let mut other = SlotBell::new(&waiters.wakers, 1);
    // Both give as much to one alone, of whom one is far behind.
    let mut refused_at = 0;
    for line in 0..2_000 {
        if !bell.may_hand(1_000) {
            refused_at = line;
            break;
        }
        let _ = waiters.wakers.wake_one(sid(&rt, 3), 0, 1_000, SECOND);
        assert!(&rt; other.may_hand(1_000));
        let _ = waiters.wakers.wake_one(sid(&rt, 4), 1, 1_000, SECOND);
        takes_all(&waiters, 3);
    }
    // By lines: 513 and some more, whose bytes and 64 for each are little.
    assert!(&rt; refused_at > 512 && refused_at < 530, "{refused_at}");
    assert!(&rt; other.may_hand(1_000));
    let _ = waiters.wakers.vacate(2);
    assert!(&rt; bell.may_hand(1_000));
}

#[test]
fn nobody_gives_way_to_a_free_slot(rt: HostRuntime) {
    let waiters = Waiters::new(&rt);
    let mut bell = SlotBell::new(&waiters.wakers, 0);
    gives(&rt, &waiters, 0, LITTLE + 1);
    let _ = waiters.wakers.vacate(2);
    says(&waiters, FAR_BEHIND.lines);
    for slot in [0, 1, 3] {
        takes_all(&waiters, slot);
    }
    says(&waiters, BURST);
    assert!(&rt; bell.may_hand(60));
}

#[test]
fn who_may_have_missed_much_takes_again(rt: HostRuntime) {
    let waiters = Waiters::new(&rt);
    // So much is said while the hub gives it three lines.
    let said = waiters.wakers.broadcasts();
    let (lines, bytes) = (3, 3 * LINE);
    let three = Amount { lines, bytes };
    says(&waiters, FAR_BEHIND.lines);
    let _ = waiters.wakers.note_taken(1, said, three, false);
    waiters.are_woken(&rt, [false; COUNT]);
    says(&waiters, 1);
    let _ = waiters.wakers.note_taken(1, said, three, false);
    waiters.are_woken(&rt, [false, true, false, false]);
}
