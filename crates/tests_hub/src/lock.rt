mod counter;
mod worker;

use crate::lock::counter::{CountersSeat, add, open_counter};
use crate::lock::worker::{Worker, both, disband, eight, hire, interrupt, is_one_run, leave, team};
use crate::refusal::*;
use one_history::NotAlone;
use std::test::Fail;
use std::time::{CpuClock, Duration};

/// The number of milliseconds of processor time that may pass while one caller holds the counter and another waits for it.
const SPENT: u64 = 50;

// Gives the processor time that all threads of the test have used.
fn processor_time<R: CpuClock + Abort>(rt: &R) -> Duration {
    rt.process_cpu_time().expect(rt, "no processor time")
}

#[test]
fn answers_each_caller_in_turn(rt: HostRuntime) -> Result<(), Fail> {
    let (lock, mut host) = open_counter(rt.alloc(), 10)?;
    let mut first = host.admit(&lock);
    let mut second = host.admit(&lock);
    holds(&rt, host.admitted() == 2, "two are admitted");
    holds(&rt, host.gathered_seats() == 0, "no seat is back");
    let sum = add(&rt, &lock, &mut first, 1, 5);
    holds(&rt, sum == Some(15), "10 and 5");
    let sum = add(&rt, &lock, &mut second, 2, 7);
    holds(&rt, sum == Some(22), "15 and 7");
    // A sum that does not fit changes nothing.
    let sum = add(&rt, &lock, &mut second, 2, u64::MAX);
    holds(&rt, sum.is_none(), "it does not fit");
    let (mut second, first) = lock.meet(second, first);
    let sum = add(&rt, &lock, &mut second, 2, 1);
    holds(&rt, sum == Some(23), "22 and 1");
    host.gather(&lock, first);
    let seats = only(&rt, rt.alloc(), second);
    assert!(rt; lock.close(host, seats).is_ok_and(|it| it.sum == 23));
    Ok(())
}

#[test]
fn hands_all_back_while_a_caller_is_left(rt: HostRuntime) -> Result<(), Fail> {
    let (lock, mut host) = open_counter(rt.alloc(), 0)?;
    let mut first = host.admit(&lock);
    let second = host.admit(&lock);
    let seats = only(&rt, rt.alloc(), second);
    let Err(NotAlone { lock, host, seats }) = lock.close(host, seats) else {
        panic!(rt; "a caller has its seat")
    };
    holds(&rt, host.admitted() == 2, "two are admitted");
    holds(&rt, host.gathered_seats() == 0, "no seat is back");
    holds(&rt, seats.len() == 1, "one seat");
    let sum = add(&rt, &lock, &mut first, 1, 4);
    holds(&rt, sum == Some(4), "0 and 4");
    let mut host = host;
    host.gather(&lock, first);
    assert!(rt; lock.close(host, seats).is_ok_and(|it| it.sum == 4));
    Ok(())
}

#[test]
fn two_threads_have_one_history(rt: HostRuntime) -> Result<(), Fail> {
    let (lock, mut host) = open_counter(rt.alloc(), 100)?;
    let pair = (hire(&lock, &mut host, 3), hire(&lock, &mut host, 4));
    let (first, second) = both(&rt, &lock, pair);
    let first = leave(&lock, &mut host, first);
    let told = [first, leave(&lock, &mut host, second)];
    holds(&rt, is_one_run(100, &told), "one run");
    let none: Vec<CountersSeat> = Vec::new(rt.alloc());
    // 500 times 3 and 4.
    assert!(rt; lock.close(host, none).is_ok_and(|it| it.sum == 3600));
    Ok(())
}

#[test]
fn sleeps_until_the_value_is_back(rt: HostRuntime) -> Result<(), Fail> {
    let (lock, mut host) = open_counter(rt.alloc(), 0)?;
    let holder = host.admit(&lock);
    let worker = hire(&lock, &mut host, 2);
    let before = processor_time(&rt);
    let (holder, worker) = interrupt(&rt, &lock, holder, worker);
    let spent = processor_time(&rt).saturating_sub(before);
    assert!(rt; spent < Duration::from_millis(SPENT), "{spent:?}");
    host.gather(&lock, holder);
    assert!(rt; is_one_run(0, &[leave(&lock, &mut host, worker)]));
    Ok(())
}

#[test]
fn eight_threads_have_one_history(rt: HostRuntime) -> Result<(), Fail> {
    let (lock, mut host) = open_counter(rt.alloc(), 0)?;
    let left = team(&lock, &mut host, 1);
    let right = team(&lock, &mut host, 2);
    let (left, right) = eight(&rt, &lock, left, right);
    let [a, b, c, d] = disband(&lock, &mut host, left);
    let [e, f, g, h] = disband(&lock, &mut host, right);
    holds(&rt, is_one_run(0, &[a, b, c, d, e, f, g, h]), "one run");
    let none: Vec<CountersSeat> = Vec::new(rt.alloc());
    // 500 times 1 to 8.
    assert!(rt; lock.close(host, none).is_ok_and(|it| it.sum == 18_000));
    Ok(())
}

#[test]
fn closes_over_what_has_a_seat(rt: HostRuntime) -> Result<(), Fail> {
    let (lock, mut host) = open_counter(rt.alloc(), 1)?;
    let worker: Worker = hire(&lock, &mut host, 9);
    let workers = only(&rt, rt.alloc(), worker);
    assert!(rt; lock.close(host, workers).is_ok_and(|it| it.sum == 1));
    Ok(())
}
