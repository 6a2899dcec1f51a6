// Tests of how far behind a client is, and whether it reads.
use crate::machine::*;
use server_tasks::{
    Amount, Backlog, FAR_BEHIND, MOST_CREDIT, NEARLY_FULL, PACE, PATIENCE, Sight, Wakers,
};

/// The number of bytes of each line here.
const LINE: u64 = 60;

fn lines(lines: u64) -> Amount {
    let bytes = lines.saturating_mul(LINE);
    Amount { lines, bytes }
}

fn bytes(bytes: u64) -> Amount {
    Amount { lines: 1, bytes }
}

/// Makes a backlog of so many lines that were for everybody.
fn behind_by(count: u64) -> Backlog {
    let mut backlog = Backlog::new(Amount::NONE);
    // One line more was for this client alone. A take of one line leaves as many as were for everybody.
    backlog.give(LINE);
    backlog.note_taken(lines(count), lines(1), true);
    backlog
}

/// Stops the test unless so much waits, as far as is known.
fn has(rt: &impl Abort, backlog: &Backlog, said: u64, wanted: u64) {
    assert!(rt; backlog.waiting(lines(said)) == lines(wanted));
}

#[test]
fn a_backlog_grows_and_shrinks(rt: HostRuntime) {
    let backlog = behind_by(100);
    has(&rt, &backlog, 100, 100);
    has(&rt, &backlog, 150, 150);
    let mut taken = backlog;
    taken.note_taken(lines(150), lines(90), true);
    has(&rt, &taken, 150, 60);
    has(&rt, &taken, 160, 70);
    taken.note_taken(lines(160), lines(10), false);
    has(&rt, &taken, 160, 0);
    // A count that was too high is put right, and one that was too low does not go below none.
    taken.note_taken(lines(160), lines(256), true);
    has(&rt, &taken, 160, 0);
}

#[test]
fn what_is_given_during_a_take_waits(rt: HostRuntime) {
    let mut backlog = Backlog::new(Amount::NONE);
    // Ten lines are taken, and 502 more are given before that is counted.
    for _line in 0..512 {
        backlog.give(LINE);
    }
    backlog.note_taken(Amount::NONE, lines(10), false);
    has(&rt, &backlog, 0, 502);
    // All of them are taken, and nothing is given meanwhile.
    backlog.note_taken(Amount::NONE, lines(256), true);
    backlog.note_taken(Amount::NONE, lines(246), false);
    has(&rt, &backlog, 0, 0);
}

#[test]
fn half_an_outbox_is_far_behind(rt: HostRuntime) {
    // By the rules of the hub an outbox holds 1,024 lines, and 1,048,576 bytes.
    let backlog = Backlog::new(lines(1_000));
    assert!(&rt; !backlog.is_behind(lines(1_000 + 512)) && backlog.is_behind(lines(1_000 + 513)));
    let backlog = Backlog::new(Amount::NONE);
    assert!(&rt; !backlog.is_behind(bytes(524_288)) && backlog.is_behind(bytes(524_289)));
}

#[test]
fn who_does_not_move_is_waited_for_no_longer(rt: HostRuntime) {
    let far = lines(FAR_BEHIND.lines + 1);
    let mut backlog = Backlog::new(Amount::NONE);
    for _tick in 0..PATIENCE {
        assert!(&rt; backlog.is_behind(far));
        backlog.tick(far, 1);
    }
    assert!(&rt; !backlog.is_behind(far));
    // A take without a line is no move, one with a line is.
    backlog.note_taken(far, Amount::NONE, true);
    assert!(&rt; !backlog.is_behind(far.plus(lines(1))));
    backlog.note_taken(far.plus(lines(1)), lines(1), true);
    assert!(&rt; backlog.is_behind(far.plus(lines(2))));
    // Ticks do not count where little waits.
    let mut backlog = Backlog::new(Amount::NONE);
    for _tick in 0..10 * PATIENCE {
        backlog.tick(FAR_BEHIND, 1);
    }
    assert!(&rt; backlog.is_behind(FAR_BEHIND.plus(lines(1))));
}

/// Counts for how many ticks a client that takes nothing more is waited for.
fn waited_for(backlog: &Backlog, far: Amount) -> u64 {
    let mut backlog = *backlog;
    for ticks in 0..10_000 {
        if !backlog.is_behind(far) {
            return ticks;
        }
        backlog.tick(far, 1);
    }
    10_000
}

#[test]
fn who_reads_is_waited_for_at_its_pace(rt: HostRuntime) {
    let far = bytes(FAR_BEHIND.bytes + 1);
    let mut backlog = Backlog::new(Amount::NONE);
    assert!(&rt; !backlog.reads() && waited_for(&backlog, far) == 40);
    // What was taken counts for six seconds at most.
    let mut taken = backlog;
    taken.note_taken(far, bytes(8_200), true);
    assert!(&rt; taken.reads() && waited_for(&taken, far.plus(far)) == 100);
    taken.note_taken(far, bytes(200_000), true);
    assert!(&rt; waited_for(&taken, far.plus(far)) == 1_200);
    // What a full socket took counts likewise: 16 KB for a second.
    backlog.count_written(16_400);
    assert!(&rt; backlog.reads() && waited_for(&backlog, far) == 200);
    backlog.count_written(1_000_000);
    assert!(&rt; waited_for(&backlog, far) == 1_200 && MOST_CREDIT == 1_200 * PACE);
    // Who has just come is waited for as one that reads.
    let wakers = again!(&rt; Wakers::new(rt.alloc(), 1));
    let newcomer = Backlog::of_newcomer(wakers.broadcasts());
    assert!(&rt; newcomer.reads() && waited_for(&newcomer, far) == 1_200);
    // Ticks that come late count as so many.
    let mut late = backlog;
    late.tick(far, 1_199);
    assert!(&rt; late.reads());
    late.tick(far, 1);
    assert!(&rt; !late.reads());
    // 85 KB in five seconds are enough, for as long as it takes.
    for _turn in 0..20 {
        for _tick in 0..1_030 {
            assert!(&rt; backlog.is_behind(far));
            backlog.tick(far, 1);
        }
        backlog.count_written(85_000);
    }
}

#[test]
fn the_fullest_outbox_counts(rt: HostRuntime) {
    let mut sight = Sight::CLEAR;
    assert!(&rt; !sight.would_be_behind(524_288) && sight.would_be_behind(524_289));
    sight.add(bytes(500_000), false);
    sight.add(bytes(100), true);
    assert!(&rt; !sight.is_behind && !sight.one_reads);
    assert!(&rt; !sight.would_be_behind(24_288) && sight.would_be_behind(24_289));
    sight.add(lines(513), true);
    assert!(&rt; sight.is_behind && sight.one_reads && sight.would_be_behind(0));
    assert!(&rt; !sight.would_be_full(NEARLY_FULL.bytes - 500_000));
    assert!(&rt; sight.would_be_full(NEARLY_FULL.bytes - 499_999));
    sight.add(lines(769), true);
    assert!(&rt; sight.would_be_full(0));
}

#[test]
fn an_eighth_of_what_is_left_may_be_handed_over(rt: HostRuntime) {
    let mut sight = Sight::CLEAR;
    sight.add(bytes(1_048_576 - 80_000), true);
    assert!(&rt; !sight.spend(10_001));
    assert!(&rt; sight.spend(6_000) && sight.spend(4_000) && !sight.spend(1));
    let mut sight = Sight::CLEAR;
    sight.add(lines(1_024 - 24), true);
    assert!(&rt; sight.spend(60) && sight.spend(60) && sight.spend(60) && !sight.spend(60));
}
