//! What is seen of the clients that are behind, and who may send then.
ghost use Rattle.std.specs.Prelude.{◌≡◌};
ghost use Rattle.server_tasks.specs.Sights.{with_client, would_be_behind, would_be_full, has_ration, rationed};

use crate::amount::Amount;
use crate::backlog::FAR_BEHIND;

/// What an outbox holds, by the rules of the hub.
const OUTBOX: Amount = Amount {
    lines: 1_024,
    bytes: 1_048_576,
};

/// What waits beyond which an outbox is nearly full: three quarters of what it holds.
pub const NEARLY_FULL: Amount = Amount {
    lines: 768,
    bytes: 786_432,
};

/// What was seen when it was last looked who is behind.
#[derive(Clone, Copy, Debug, PartialEq, Eq)]
pub struct Sight {
    /// Somebody who is waited for is far behind.
    pub is_behind: bool,
    /// One of those is known to read.
    pub one_reads: bool,
    /// The most lines and the most bytes that wait for somebody who is waited for.
    pub most: Amount,
    // What all senders may hand over together before it is looked again, where an outbox is nearly full.
    ration: Amount,
}

impl Sight {
    /// Nobody is behind.
    pub const CLEAR: Sight = Sight {
        is_behind: false,
        one_reads: false,
        most: Amount::NONE,
        ration: OUTBOX,
    };

    /// Adds somebody who is waited for, and for whom this waits.
    pub fn add(&mut self, waiting: Amount, reads: bool)
        ensures { self.new ≡ with_client waiting reads self.old }
    {
        self.most = self.most.or_more(waiting);
        if waiting.is_beyond(FAR_BEHIND) {
            self.is_behind = true;
            self.one_reads |= reads;
        }
        let left = OUTBOX.minus(self.most);
        self.ration = Amount {
            lines: left.lines / 8,
            bytes: left.bytes / 8,
        };
    }

    /// Answers whether somebody would be far behind with so many bytes more.
    pub fn would_be_behind(&self, bytes: u64) -> bool
        ensures { result ≡ would_be_behind self.now bytes }
    {
        self.is_behind || self.most.bytes.saturating_add(bytes) > FAR_BEHIND.bytes
    }

    /// Answers whether an outbox would be nearly full with so many bytes more.
    pub fn would_be_full(&self, bytes: u64) -> bool
        ensures { result ≡ would_be_full self.now bytes }
    {
        self.most
            .plus(Amount { lines: 0, bytes })
            .is_beyond(NEARLY_FULL)
    }

    /// Takes a line of so many bytes of what may be handed over where an outbox is nearly full, if there is as much.
    pub fn spend(&mut self, bytes: u64) -> bool
        ensures there { result ≡ has_ration self.old bytes }
        ensures taken { self.new ≡ rationed bytes self.old }
    {
        let line = Amount::of_line(bytes);
        if line.is_beyond(self.ration) {
            return false;
        }
        self.ration = self.ration.minus(line);
        true
    }
}
