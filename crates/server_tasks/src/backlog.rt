//! The backlog of a client: how far it is behind, and whether it reads.
ghost use Rattle.std.specs.Prelude.{◌≡◌, ◌≤◌};
ghost use Rattle.server_tasks.specs.Amounts.{no_line};
ghost use Rattle.server_tasks.specs.Backlogs.{with_line, with_take, with_read, ticked, is_waited_for, is_reading, is_behind, what_waits, full_credit};

use crate::amount::Amount;
use crate::broadcasts::Broadcasts;

/// What waits beyond which a client is far behind: half of the lines, or of the bytes, that its outbox holds.
pub const FAR_BEHIND: Amount = Amount {
    lines: 512,
    bytes: 524_288,
};

/// The number of ticks in a row for which a client is waited for that takes nothing, and a sender gives way: a fifth of a
/// second. On a busy machine a thread may stand still for a tenth.
pub const PATIENCE: u64 = 40;

/// The number of bytes a tick that a client takes at least which reads: 16 KB a second.
pub const PACE: u64 = 82;

/// The number of bytes that count for later ticks at most: those of six seconds. The system says that there is room in a
/// socket again once a third of its buffer is free, so that who reads slowly is seen to take 85 KB at a time. Behind a link that
/// many share, TCP may be silent for seconds.
pub const MOST_CREDIT: u64 = 1_200 * PACE;

/// What waits for a client, as far as is known, and whether it reads. It is counted, and put right by each take that finds no
/// more.
#[derive(Clone, Copy, Debug, PartialEq, Eq)]
pub struct Backlog {
    // So much waited when so much had been said to everybody.
    waiting: Amount,
    said: Amount,
    // What was given to it alone since a take was counted last.
    given: Amount,
    // The number of ticks that it was waited for since it last moved.
    waited_for: u64,
    // The number of bytes that it took and that no tick has used up.
    credit: u64,
}

impl Backlog {
    /// Makes that of a client for whom nothing waits, once `said` was said to everybody.
    pub fn new(said: Amount) -> Backlog
        ensures { result ≡ record { waiting = no_line; said = said; given = no_line; waited_for = 0; credit = 0 } }
    {
        Backlog {
            waiting: Amount::NONE,
            said,
            given: Amount::NONE,
            waited_for: 0,
            credit: 0,
        }
    }

    /// Makes the backlog of a client that has just come. It counts as one that reads, since nothing is known of it yet.
    pub fn of_newcomer(said: Broadcasts) -> Backlog
        ensures { result ≡ record { waiting = no_line; said = said.amount; given = no_line; waited_for = 0; credit = full_credit } }
    {
        let mut backlog = Backlog::new(said.amount());
        backlog.credit = MOST_CREDIT;
        backlog
    }

    /// Counts a line of so many bytes for this client alone.
    pub fn give(&mut self, bytes: u64)
        ensures { self.new ≡ with_line bytes self.old }
    {
        self.waiting = self.waiting.plus(Amount::of_line(bytes));
        self.given = self.given.plus(Amount::of_line(bytes));
    }

    /// Counts what was taken, after which more may be left or none is. What was given to it alone between the take and this count
    /// waits.
    pub fn note_taken(&mut self, said: Amount, taken: Amount, has_more: bool)
        ensures { self.new ≡ with_take said taken has_more self.old }
    {
        let waiting = if has_more {
            self.waiting(said)
        } else {
            self.given
        };
        self.waiting = waiting.minus(taken);
        self.given = Amount::NONE;
        self.said = said;
        if taken.lines != 0 {
            self.waited_for = 0;
        }
        self.earn(taken.bytes);
    }

    /// Counts bytes that its socket took which had been full: so its client has read about as many.
    pub fn count_written(&mut self, bytes: u64)
        ensures { self.new ≡ with_read bytes self.old }
    {
        self.earn(bytes);
    }

    fn earn(&mut self, bytes: u64)
        ensures { self.new ≡ with_read bytes self.old }
    {
        self.credit = self.credit.saturating_add(bytes).min(MOST_CREDIT);
    }

    /// Counts a tick, for which as many were due; where the client is far behind, it was waited for.
    pub fn tick(&mut self, said: Amount, due: u64)
        ensures { self.new ≡ ticked said due self.old }
    {
        if self.waiting(said).is_beyond(FAR_BEHIND) {
            self.credit = self.credit.saturating_sub(due.saturating_mul(PACE));
            self.waited_for = self.waited_for.saturating_add(1);
        }
    }

    /// Answers whether senders are to wait for this client, where it is far behind: it has moved of late, or reads.
    pub fn is_waited_for(&self) -> bool
        ensures { result ≡ is_waited_for self.now }
    {
        self.waited_for < PATIENCE || self.reads()
    }

    /// Answers whether the client is known to read: it took 16 KB a second at least.
    pub fn reads(&self) -> bool
        ensures { result ≡ is_reading self.now }
    {
        self.credit > 0
    }

    /// Answers whether the client is far behind and waited for, so that senders are to give way.
    pub fn is_behind(&self, said: Amount) -> bool
        ensures { result ≡ is_behind self.now said }
    {
        self.is_waited_for() && self.waiting(said).is_beyond(FAR_BEHIND)
    }

    /// Gives what waits once this was said to everybody.
    pub fn waiting(&self, said: Amount) -> Amount
        ensures { result ≡ what_waits self.now said }
    {
        self.waiting.plus(said.minus(self.said))
    }
}
