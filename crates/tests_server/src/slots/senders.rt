// Tests of what a sender gave of late, and for how long it gives way.
use server_tasks::{BURST, Given, PATIENCE, Throttle};

#[test]
fn what_was_given_counts_for_two_seconds(rt: HostRuntime) {
    let mut given = Given::new();
    assert!(&rt; given.of_late(1_000) == 0);
    given.count(1_000, 300);
    given.count(1_000, 40);
    assert!(&rt; given.of_late(1_000) == 340 && given.of_late(1_001) == 340);
    assert!(&rt; given.of_late(1_002) == 0 && given.of_late(999) == 0);
    given.count(1_001, 5);
    assert!(&rt; given.of_late(1_001) == 345 && given.of_late(1_002) == 5);
    // Where the clock was set back, what was given before does not count.
    given.count(500, 7);
    assert!(&rt; given.of_late(500) == 7 && given.of_late(501) == 7);
    given.count(503, 1);
    assert!(&rt; given.of_late(503) == 1);
}

#[test]
fn a_session_gives_way_for_so_long_and_no_longer(rt: HostRuntime) {
    let mut throttle = Throttle::new();
    for turn in 0..3 {
        let begin = turn * 100;
        for tick in 0..PATIENCE {
            assert!(&rt; !throttle.spend(begin + tick));
        }
        // So many lines it may hand over then.
        for _line in 0..BURST {
            assert!(&rt; throttle.spend(begin + PATIENCE));
        }
    }
    throttle.open();
    assert!(&rt; !throttle.spend(1_000));
}
