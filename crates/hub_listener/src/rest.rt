ghost use Rattle.std.specs.Prelude.{◌≡◌, true, false};
ghost use Rattle.std.specs.Result.{ForOk};
ghost use Rattle.server_tasks.specs.declared.slots.SlotEvent.TheVariants.{LookedForRoom};

use futures::spin::GaveUp;
use server_tasks::Receipt;

/// The rest of a listener.
#[derive(Drop)]
pub(crate) enum Rest {
    /// None began yet.
    Never,
    /// It rests.
    On,
    /// The last rest ended with this look.
    Over(RoomLook),
}

/// A look whether a socket was closed since a rest began. Nothing is known where the lock was given up.
#[derive(Drop)]
pub(crate) struct RoomLook {
    pub(crate) word: Result<Receipt, GaveUp>,
    pub(crate) has_room: bool,
    pub(crate) ghost told: { ForOk word (λ receipt. receipt ≡ LookedForRoom has_room) },
}

impl Rest {
    ghost use Rattle.hub_listener.specs.Rest.{is_on};

    /// Tests whether the listener rests.
    pub(crate) fn is_on(&self) -> bool
        ensures { result ≡ is_on self.now }
    {
        matches!(self, Rest::On)
    }
}
