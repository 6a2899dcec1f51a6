ghost use Rattle.futures.specs.Task.{IsArmed, Keeps};

use futures::task::Context;
use server_tasks::Wakers;

/// The word that a call for help wakes the task. Only the call that leaves its waker there gives it.
#[derive(Drop)]
pub(crate) struct HelpOffer(());

impl HelpOffer {
    /// Leaves the waker of the task for a call for help.
    pub(crate) fn make(wakers: &Wakers, cx: &mut Context<'_>) -> HelpOffer
        ensures registered { IsArmed cx.new }
        ensures kept { Keeps cx.old cx.new }
    {
        wakers.wait_to_help(cx);
        HelpOffer(())
    }
}
