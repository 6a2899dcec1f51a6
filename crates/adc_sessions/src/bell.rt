ghost use Rattle.std.specs.Prelude.{◌≡◌, false};
ghost use Rattle.futures.specs.Task.{IsArmed, Keeps};
ghost use Rattle.adc_sessions.specs.Acts.{BellCall};

use futures::task::Context;

/// A bell that tells a session that lines may wait for it. Each bell settles by itself what it is told and by whom.
pub trait Bell: Drop {
    /// A call that began in the first state left the second. So a bell can say what it keeps where it was not rung, and where it
    /// said that no line may be handed over.
    ghost hears: { Self → BellCall → Self → Type 0 };

    /// Tells whoever waits.
    fn ring(&self);

    /// Answers whether it was rung since the last `true`. Where it was not, it has left the task's waker behind, and the
    /// next ring wakes the task.
    fn wait(&mut self, cx: &mut Context<'_>) -> bool
        ensures heard { hears self.old (BellCall.heard result) self.new }
        ensures registered { result ≡ false → IsArmed cx.new }
        ensures kept { Keeps cx.old cx.new };

    /// Answers whether a line may be handed over now. It is asked before each, and told how many bytes were read and not handed
    /// over, which are those of the line and some more. Where it may not, the session goes on to write and to take, hands over
    /// and reads nothing, and asks again once the bell is rung. So a bell that has said no has to be rung later, whatever
    /// happens.
    fn may_hand(&mut self, bytes: usize) -> bool
        ensures { hears self.old (BellCall.asked bytes result) self.new };

    /// Notes that the stream took so many bytes, and whether it would take none when it was written before.
    fn wrote(&mut self, bytes: usize, was_full: bool)
        ensures { hears self.old (BellCall.noted bytes was_full) self.new };
}
