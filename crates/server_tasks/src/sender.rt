//! What a sender gave of late, and for how long it gives way.
ghost use Rattle.std.specs.Prelude.{◌≡◌, false, None};
ghost use Rattle.server_tasks.specs.Senders.{given_before, given_of_late, with_given, may_spend, spent_at};

use crate::backlog::PATIENCE;

/// The number of lines that a sender may hand over that gave way for long. After as many for everybody it is looked who is
/// behind.
pub const BURST: u64 = 16;

/// The number of bytes after which it is looked as well.
pub const BURST_BYTES: u64 = 32_768;

/// The longest line, in bytes, that is handed over without a look.
pub const SHORT: u64 = 4_096;

/// What a sender may give in a second or two, and still says little: such a one gives way to nobody who has room left.
pub const LITTLE: u64 = 8_192;

/// The number of bytes that each line counts for beside its own, since lines are bounded as well.
pub const EACH_LINE: u64 = 256;

/// What a sender gave in this second and the one before: bytes of its lines, and 256 for each.
#[derive(Clone, Copy, Debug, PartialEq, Eq)]
pub struct Given {
    second: u64,
    now: u64,
    before: u64,
}

impl Given {
    /// Makes that of a sender which gave nothing.
    pub fn new() -> Given
        ensures { result ≡ record { second = 0; now = 0; before = 0 } }
    {
        Given {
            second: 0,
            now: 0,
            before: 0,
        }
    }

    /// Counts so many bytes in this second.
    pub fn count(&mut self, second: u64, bytes: u64)
        ensures { self.new ≡ with_given second bytes self.old }
    {
        if second != self.second {
            self.before = self.before_in(second);
            self.now = 0;
            self.second = second;
        }
        self.now = self.now.saturating_add(bytes);
    }

    /// Gives what was given in this second and the one before.
    pub fn of_late(&self, second: u64) -> u64
        ensures { result ≡ given_of_late self.entry.now second }
    {
        if second == self.second {
            self.now.saturating_add(self.before)
        } else {
            self.before_in(second)
        }
    }

    /// Gives what was given in the second before this one, which is not the last in which something was counted.
    fn before_in(&self, second: u64) -> u64
        ensures { result ≡ given_before self.entry.now second }
    {
        if second == self.second.saturating_add(1) {
            self.now
        } else {
            0
        }
    }
}

/// The throttle of one sender: since when it gives way, and how many lines it may hand over.
#[derive(Clone, Copy, Debug, PartialEq, Eq)]
pub struct Throttle {
    since: Option<u64>,
    // The number of lines that it may hand over before it gives way again.
    left: u64,
    // Its last line was a long one, whose bytes are among those on the way.
    pub(crate) is_on_the_way: bool,
}

impl Throttle {
    /// Makes that of a sender that gives way to nobody.
    pub fn new() -> Throttle
        ensures { result ≡ record { since = None; left = 0; is_on_the_way = false } }
    {
        Throttle {
            since: None,
            left: 0,
            is_on_the_way: false,
        }
    }

    /// Begins anew, once nobody is behind.
    pub fn open(&mut self)
        ensures { self.new ≡ record self.old { since = None; left = 0 } }
    {
        self.since = None;
        self.left = 0;
    }

    /// Takes one of the lines that a sender may hand over at once, if there is one. At this tick there are 16 where it has
    /// given way for long enough.
    pub fn spend(&mut self, tick: u64) -> bool
        ensures may { result ≡ may_spend self.old tick }
        ensures spent { self.new ≡ spent_at tick self.old }
    {
        if let Some(left) = self.left.checked_sub(1) {
            self.left = left;
            return true;
        }
        match self.since {
            Some(since) if tick.wrapping_sub(since) >= PATIENCE => {
                self.since = None;
                self.left = BURST - 1;
                true
            }
            Some(_) => false,
            None => {
                self.since = Some(tick);
                false
            }
        }
    }
}
