// Callers that add in threads of their own.
ghost use Rattle.std.specs.Prelude.{◌≡◌, ◌+◌, ◌^◌, ◌<◌, ◌∷◌, length};
ghost use Rattle.std.specs.List.{All};
ghost use Rattle.one_history.specs.States.{IsIdleAt, caller_of, home_of};

use crate::lock::counter::{Counter, Counters, CountersHost, CountersSeat, Line, add};
use one_history::Seated;
use std::sync::Wait;
use std::thread;
use std::thread::{Threads, join};
use std::time::{Clock, Duration};

pub const ROUNDS: usize = 500;

/// The number of milliseconds for which a caller holds the counter that another waits for.
const HELD: u64 = 400;

/// A caller, what it adds each time, and what it was told.
#[derive(Drop)]
pub struct Worker {
    pub seat: CountersSeat,
    pub caller: u64,
    pub amount: u64,
    pub replies: [u64; ROUNDS],
    pub ghost numbered: { caller ≡ seat.number },
}

/// Hires the next caller.
pub fn hire(lock: &Counters, host: &mut CountersHost, amount: u64) -> Worker
    requires here { host.old.home ≡ home_of lock.now }
    requires room { host.old.admitted + 1 < 2 ^ 64 }
    ensures host { host.new ≡ record host.old { admitted = host.old.admitted + 1 } }
    ensures idle { IsIdleAt lock.now result.seat }
{
    let seat = host.admit(lock);
    Worker {
        seat,
        caller: host.admitted(),
        amount,
        replies: [0; ROUNDS],
    }
}

/// Adds as often as there are rounds.
pub fn work<R: Wait>(rt: &R, lock: &Counters, worker: Worker) -> Worker
    requires { IsIdleAt lock.now worker.seat }
    ensures { IsIdleAt lock.now result.seat }
{
    let Worker {
        mut seat,
        caller,
        amount,
        mut replies,
    } = worker;
    for reply in &mut replies {
        *reply = add(rt, lock, &mut seat, caller, amount).unwrap_or(0);
    }
    Worker {
        seat,
        caller,
        amount,
        replies,
    }
}

/// Holds the counter for a while, and gives it back unchanged.
pub fn hold<R: Wait + Clock>(rt: &R, lock: &Counters, seat: CountersSeat) -> CountersSeat
    requires { IsIdleAt lock.now seat }
    ensures { IsIdleAt lock.now result }
{
    let mut seat = seat;
    let counter = lock.acquire(rt, &mut seat);
    thread::sleep(rt, Duration::from_millis(HELD));
    let _ = lock.release(&mut seat, counter);
    seat
}

/// Plays one caller that holds the counter, while the other comes in the meantime and adds.
pub fn interrupt<R: Threads + Wait + Clock + Sync>(
    rt: &R,
    lock: &Counters,
    holder: CountersSeat,
    worker: Worker,
) -> (CountersSeat, Worker)
    requires holder { IsIdleAt lock.now holder }
    requires worker { IsIdleAt lock.now worker.seat }
    ensures holder { IsIdleAt lock.now result.0 }
    ensures worker { IsIdleAt lock.now result.1.seat }
{
    join(
        rt,
        move || -> CountersSeat
            requires { IsIdleAt lock.now holder }
            ensures { IsIdleAt lock.entry.now result }
        { hold(rt, lock, holder) },
        move || -> Worker
            requires { IsIdleAt lock.now worker.seat }
            ensures { IsIdleAt lock.entry.now result.seat }
        {
            thread::sleep(rt, Duration::from_millis(10));
            work(rt, lock, worker)
        },
    )
}

/// Runs two callers, each in a thread of its own.
pub fn both<R: Threads + Wait + Sync>(
    rt: &R,
    lock: &Counters,
    pair: (Worker, Worker),
) -> (Worker, Worker)
    requires { IsIdleAt lock.now pair.0.seat × IsIdleAt lock.now pair.1.seat }
    ensures { IsIdleAt lock.now result.0.seat × IsIdleAt lock.now result.1.seat }
{
    let (first, second) = pair;
    join(
        rt,
        move || -> Worker
            requires { IsIdleAt lock.now first.seat }
            ensures { IsIdleAt lock.entry.now result.seat }
        { work(rt, lock, first) },
        move || -> Worker
            requires { IsIdleAt lock.now second.seat }
            ensures { IsIdleAt lock.entry.now result.seat }
        { work(rt, lock, second) },
    )
}

/// Runs four callers, each in a thread of its own.
pub fn four<R: Threads + Wait + Sync>(rt: &R, lock: &Counters, team: [Worker; 4]) -> [Worker; 4]
    requires { All (λ w. IsIdleAt lock.now w.seat) team }
    ensures { All (λ w. IsIdleAt lock.now w.seat) result }
{
    let [a, b, c, d] = team;
    let ((a, b), (c, d)) = join(
        rt,
        move || -> (Worker, Worker)
            requires { IsIdleAt lock.now a.seat × IsIdleAt lock.now b.seat }
            ensures { IsIdleAt lock.entry.now result.0.seat × IsIdleAt lock.entry.now result.1.seat }
        { both(rt, lock, (a, b)) },
        move || -> (Worker, Worker)
            requires { IsIdleAt lock.now c.seat × IsIdleAt lock.now d.seat }
            ensures { IsIdleAt lock.entry.now result.0.seat × IsIdleAt lock.entry.now result.1.seat }
        { both(rt, lock, (c, d)) },
    );
    [a, b, c, d]
}

/// Runs eight callers, each in a thread of its own.
pub fn eight<R: Threads + Wait + Sync>(
    rt: &R,
    lock: &Counters,
    left: [Worker; 4],
    right: [Worker; 4],
) -> ([Worker; 4], [Worker; 4])
    requires left { All (λ w. IsIdleAt lock.now w.seat) left }
    requires right { All (λ w. IsIdleAt lock.now w.seat) right }
    ensures left { All (λ w. IsIdleAt lock.now w.seat) result.0 }
    ensures right { All (λ w. IsIdleAt lock.now w.seat) result.1 }
{
    join(
        rt,
        move || -> [Worker; 4]
            requires { All (λ w. IsIdleAt lock.now w.seat) left }
            ensures { All (λ w. IsIdleAt lock.entry.now w.seat) result }
        { four(rt, lock, left) },
        move || -> [Worker; 4]
            requires { All (λ w. IsIdleAt lock.now w.seat) right }
            ensures { All (λ w. IsIdleAt lock.entry.now w.seat) result }
        { four(rt, lock, right) },
    )
}

/// Hires four new callers, who add so much, two more, and so on.
pub fn team(lock: &Counters, host: &mut CountersHost, amount: u64) -> [Worker; 4]
    requires here { host.old.home ≡ home_of lock.now }
    requires room { host.old.admitted + 4 < 2 ^ 64 }
    requires small { amount < 1000 }
    ensures host { host.new ≡ record host.old { admitted = host.old.admitted + 4 } }
    ensures idle { All (λ w. IsIdleAt lock.now w.seat) result }
{
    let a = hire(lock, host, amount);
    let b = hire(lock, host, amount + 2);
    let c = hire(lock, host, amount + 4);
    let d = hire(lock, host, amount + 6);
    [a, b, c, d]
}

/// The sums of a caller: what it added each time, and what it was told.
#[derive(Clone, Copy)]
pub struct Told {
    pub amount: u64,
    pub replies: [u64; ROUNDS],
}

/// Gives the host the caller's seat back.
pub fn leave(lock: &Counters, host: &mut CountersHost, worker: Worker) -> Told
    requires here { host.old.home ≡ home_of lock.now }
    requires idle { IsIdleAt lock.now worker.seat }
    requires room { length host.old.gathered + 1 < 2 ^ 64 }
    ensures { host.new ≡ record host.old { gathered = caller_of worker.seat ∷ host.old.gathered } }
{
    let Worker {
        seat,
        amount,
        replies,
        ..
    } = worker;
    host.gather(lock, seat);
    Told { amount, replies }
}

impl Seated<Counter, Line, u64> for Worker {
    ghost seat = { λ w. w.seat };

    fn into_seat(self) -> CountersSeat {
        let Worker { seat, .. } = self;
        seat
    }
}

/// Lets all four leave.
pub fn disband(lock: &Counters, host: &mut CountersHost, team: [Worker; 4]) -> [Told; 4]
    requires here { host.old.home ≡ home_of lock.now }
    requires idle { All (λ w. IsIdleAt lock.now w.seat) team }
    requires room { length host.old.gathered + 4 < 2 ^ 64 }
    ensures host { host.new ≡ record host.old { gathered = host.new.gathered } }
    ensures count { length host.new.gathered ≡ length host.old.gathered + 4 }
{
    let [a, b, c, d] = team;
    [
        leave(lock, host, a),
        leave(lock, host, b),
        leave(lock, host, c),
        leave(lock, host, d),
    ]
}

/// Answers whether all that was told is one run of a counter from `start` on, with each caller's replies in its order, each
/// once. Taken by size, every reply is the one before and what its caller added.
pub fn is_one_run(start: u64, told: &[Told]) -> bool {
    let mut sum = start;
    let mut taken = [0usize; 8];
    for _ in 0..ROUNDS {
        for _ in told {
            let Some((caller, reply)) = earliest(told, &taken) else {
                return false;
            };
            sum = sum.wrapping_add(caller.amount);
            if reply != sum {
                return false;
            }
            take_reply(told, &mut taken, reply);
        }
    }
    true
}

// Finds the caller whose next reply is the smallest, and gives that reply.
fn earliest<'a>(told: &'a [Told], taken: &[usize; 8]) -> Option<(&'a Told, u64)> {
    told.iter()
        .zip(taken.iter())
        .filter_map(|(caller, at)| Some((caller, *caller.replies.get(*at)?)))
        .min_by_key(|(_, reply)| *reply)
}

// Goes on behind that reply.
fn take_reply(told: &[Told], taken: &mut [usize; 8], reply: u64) {
    for (caller, at) in told.iter().zip(taken.iter_mut()) {
        if caller.replies.get(*at) == Some(&reply) {
            *at += 1;
        }
    }
}
