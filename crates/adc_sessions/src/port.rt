ghost use Rattle.std.specs.Prelude.{◌≡◌, ◌≤◌, ◌++◌, ℕ, List, IfOk, OnErr};
ghost use Rattle.adc_sessions.specs.Events.{PortCall};

use hub_rules::{LineRefused, Verdict};
use outboxes::{TakeRefused, Taken};
use std::alloc::Global;

/// A port to which a session hands over its lines, and from which it takes what waits for it: one connection of a hub.
pub trait Port: Drop {
    /// The value that is left of it after the quit.
    type Left: Drop;

    /// A call that began in the first state left the second.
    ghost step: { Self → PortCall → Self → Type 0 };

    /// A quit in this state leaves that.
    ghost leaves: { Self → Self.Left → Type 0 };

    /// Handles one line, without its line feed, of at most 65,536 bytes.
    ///
    /// Refused: `Memory`; the session quits then.
    fn line(&mut self, alloc: Global, line: &[u8]) -> Result<Verdict, LineRefused>
        ensures ok { IfOk result (λ verdict. step self.old (PortCall.handed line.now verdict) self.new) }
        ensures err { OnErr result (step self.old PortCall.refused self.new) };

    /// Appends the bytes of the first `count` lines that wait, or of all if fewer wait, each with its line
    /// feed. `count` is from 1 to 256.
    ///
    /// Refused: `Memory`, with nothing appended; the session quits then.
    fn take(&mut self, count: usize, out: &mut Vec<u8>) -> Result<Taken, TakeRefused>
        requires some { 1 ≤ count }
        requires few { count ≤ 256 }
        ensures ok { IfOk result (λ taken. (more : List ℕ) × (out.new.items ≡ out.old.items ++ more) × step self.old (PortCall.took count more taken) self.new) }
        ensures err { OnErr result ((out.new.items ≡ out.old.items) × step self.old PortCall.refused self.new) };

    /// Leaves the hub.
    fn quit(self) -> Self::Left
        ensures { leaves self result };
}
