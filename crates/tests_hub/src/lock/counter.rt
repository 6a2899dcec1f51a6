// A counter that callers add to.
ghost use Rattle.std.specs.Prelude.{◌≡◌, ◌∷◌, false, IfOk, IfSome, IfNone};
ghost use Rattle.one_history.specs.States.{IsIdleAt, IsHolderAt, first_host};

use one_history::{Host, Lock, MadeEntry, Recorded, Seat};
use std::alloc::{AllocFailed, Global};
use std::marker::Brand;
use std::sync::Wait;
use std::test::Fail;

#[derive(Drop)]
pub struct Counter {
    pub sum: u64,
}

/// The line of a caller: what it added, and the sum that it was told.
#[derive(Clone, Copy)]
pub struct Line {
    pub caller: u64,
    pub amount: u64,
    pub reply: u64,
}

// The lock is about what the counter starts from. Each reply is the sum at that point, and the counter has the sum of all.
impl Recorded<Line, u64> for Counter {
    ghost use Rattle.std.specs.Prelude.{◌≡◌, ◌+◌, List, ◌∷◌};
    ghost use Rattle.one_history.specs.Histories.{Begins, total};
    ghost use Rattle.tests_hub.specs.declared.lock.counter.Line.{Line};

    ghost by = { λ e. e.caller };

    ghost legal = { λ start h. (e : Line) (s : List Line) → Begins h (e ∷ s)
        → e.reply ≡ start + total (λ d. d.amount) (e ∷ s) };

    ghost stands = { λ start counter h. counter.sum ≡ start + total (λ d. d.amount) h };
}

pub type Counters = Lock<Counter, Line, u64>;

pub type CountersHost = Host<Counter, Line, u64>;

pub type CountersSeat = Seat<Counter, Line, u64>;

impl MadeEntry<Line> for Brand {
    ghost entry = { record { caller = 0; amount = 0; reply = 0 } };
}

/// Opens a new counter. Where memory is refused, the counter comes back as it was, and the second time it opens.
pub fn open_counter(alloc: Global, start: u64) -> Result<(Counters, CountersHost), Fail>
    ensures { IfOk result (λ r. r.1 ≡ first_host r.0) }
{
    let counter = Counter { sum: start };
    let again = match Lock::open(alloc, counter, &start) {
        Ok(all) => return Ok(all),
        Err(AllocFailed { value }) => value,
    };
    if again.sum != start {
        return Err(Fail::from("the counter came back changed"));
    }
    match Lock::open(alloc, again, &start) {
        Ok(all) => Ok(all),
        Err(_) => Err(Fail::from("no memory, twice")),
    }
}

/// Adds, and answers the sum, or `None` where it would not fit.
pub fn add<R: Wait>(
    rt: &R,
    lock: &Counters,
    seat: &mut CountersSeat,
    caller: u64,
    amount: u64,
) -> Option<u64>
    requires idle { IsIdleAt lock.now seat.old }
    requires number { caller ≡ seat.old.number }
    ensures idle { IsIdleAt lock.now seat.new }
    ensures number { seat.new.number ≡ seat.old.number }
    ensures some { IfSome result (λ reply. seat.new.mine
        ≡ record { caller = caller; amount = amount; reply = reply } ∷ seat.old.mine) }
    ensures none { IfNone result (seat.new.mine ≡ seat.old.mine) }
{
    let mut counter = lock.acquire(rt, seat);
    match counter.sum.checked_add(amount) {
        Some(reply) => {
            counter.sum = reply;
            let line = Line {
                caller,
                amount,
                reply,
            };
            enter::<Brand>(lock, seat, counter, &line);
            Some(reply)
        }
        None => {
            let _ = lock.release(seat, counter);
            None
        }
    }
}

// Gives the counter back with this line. Its caller's proof picks it as the entry.
fn enter<B: MadeEntry<Line>>(
    lock: &Counters,
    seat: &mut CountersSeat,
    counter: Counter,
    line: &Line,
)
    requires holds { IsHolderAt lock.now seat.old }
    requires entry { B.entry ≡ line.now }
    requires mine { B.entry.caller ≡ seat.old.number }
    requires legal { ⟦<Counter as Recorded<Line, u64>>⟧.legal lock.now.about (B.entry ∷ seat.old.seen) }
    requires stands { ⟦<Counter as Recorded<Line, u64>>⟧.stands lock.now.about counter (B.entry ∷ seat.old.seen) }
    ensures { let seen = B.entry ∷ seat.old.seen in
        let mine = B.entry ∷ seat.old.mine in
        seat.new ≡ record seat.old { seen = seen; mine = mine; holds = false } }
{
    let _ = lock.release_with::<B>(seat, counter);
}
