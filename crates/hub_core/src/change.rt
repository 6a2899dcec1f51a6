ghost use Rattle.std.specs.Prelude.{◌≡◌, ◌++◌, ◌∷◌, [], OnErr, OnOk};
ghost use Rattle.user_table.specs.Changes.{given_key};
ghost use Rattle.operator_acts.specs.Bans.{with_ban};
ghost use Rattle.user_table.specs.Tables.{with_update, without_sid};
ghost use Rattle.hub_core.specs.Phases.{users_awaited, entered_phase};
ghost use Rattle.hub_core.specs.declared.seat.Phase.TheVariants.{Normal};
ghost use Rattle.hub_core.specs.Seats.{changed_seat};
ghost use Rattle.hub_core.specs.State.{users_after};
ghost use Rattle.hub_core.specs.Told.{StaysTold};
ghost use Rattle.hub_rules.specs.declared.effect.Change.TheVariants.{Sender};
ghost use Rattle.hub_rules.specs.Configured.{Configured};
ghost use Rattle.hub_rules.specs.Facts.{bans_after, topic_after};

use crate::present::Present;
use crate::seat::{Phase, Seat};
use hub_rules::{Banned, Change, Entrant, HubChange, Revision, SenderChange, Topic};
use hub_setup::Setup;
use operator_acts::Bans;
use std::alloc::{AllocError, Global};
use std::mem;

/// The state that all connections share: the users who are present, the bans, the topic.
#[derive(Drop)]
pub struct SharedState {
    pub(crate) present: Present,
    pub(crate) bans: Bans,
    pub(crate) topic: Topic,
}

impl SharedState {
    /// Makes the change of a line, of the connection of this seat, whole or not at all.
    pub(crate) fn change(
        &mut self,
        alloc: Global,
        setup: &Setup,
        seat: &mut Seat,
        change: Change,
    ) -> Result<(), AllocError>
        ensures users { OnOk result (self.new.present.users ≡ users_after change seat.old.sender.sid seat.old.phase self.old.present.users) }
        ensures told { StaysTold setup.now self.old.present self.new.present }
        ensures bans { OnOk result (self.new.bans ≡ bans_after change self.old.bans) }
        ensures topic { OnOk result (self.new.topic ≡ topic_after change self.old.topic) }
        ensures seat { OnOk result (seat.new ≡ changed_seat change seat.old) }
        ensures err { OnErr result ((self.new ≡ self.old) × (seat.new ≡ seat.old)) }
    {
        match change {
            Change::Nothing => Ok(()),
            Change::Sender(change) => change_sender(alloc, setup, &mut self.present, seat, change),
            Change::Hub(change) => match change {
                HubChange::At(sid, change) => {
                    if change.is_removal() {
                        self.present.remove(sid);
                    }
                    Ok(())
                }
                HubChange::Ban(banned) => ban(&mut self.present, &mut self.bans, banned),
                HubChange::Unban(cid) => {
                    self.bans.remove(cid);
                    Ok(())
                }
                HubChange::Topic(topic) => {
                    self.topic = topic;
                    Ok(())
                }
            },
        }
    }
}

/// Shuts a user out, and whoever comes with its client identifier. That there is room for the ban was looked at when the act
/// was decided, so only memory can be wanting.
fn ban(present: &mut Present, bans: &mut Bans, banned: Banned) -> Result<(), AllocError>
    ensures users { OnOk result (present.new.users ≡ without_sid banned.sid present.old.users) }
    ensures told { (setup : Configured) → StaysTold setup present.old present.new }
    ensures bans { OnOk result (bans.new ≡ with_ban bans.old banned.cid banned.ban) }
    ensures err { OnErr result ((present.new ≡ present.old) × (bans.new ≡ bans.old)) }
{
    if bans.put(banned.cid, banned.ban).is_err() {
        return Err(AllocError);
    }
    present.remove(banned.sid);
    Ok(())
}

/// Changes the connection that sent the line, whole or not at all.
fn change_sender(
    alloc: Global,
    setup: &Setup,
    present: &mut Present,
    seat: &mut Seat,
    change: SenderChange,
) -> Result<(), AllocError>
    ensures users { OnOk result (present.new.users ≡ users_after (Sender change) seat.old.sender.sid seat.old.phase present.old.users) }
    ensures told { StaysTold setup.now present.old present.new }
    ensures seat { OnOk result (seat.new ≡ changed_seat (Sender change) seat.old) }
    ensures err { OnErr result ((present.new ≡ present.old) × (seat.new ≡ seat.old)) }
{
    match change {
        SenderChange::Greets(features) => {
            seat.phase = Phase::Identify;
            seat.sender.features = features;
            Ok(())
        }
        SenderChange::Waits(newcomer, expected) => {
            seat.phase = Phase::Verify(newcomer, expected);
            Ok(())
        }
        SenderChange::Enters => enter(alloc, setup, present, seat),
        SenderChange::EntersAs(newcomer) => enter_as(alloc, setup, present, seat, newcomer),
        SenderChange::Learns(features) => {
            seat.sender.features = features;
            Ok(())
        }
        SenderChange::Updates(revision) => update(alloc, setup, present, seat, revision),
        SenderChange::Searches(now) => {
            seat.sender.notes.searched = Some(now);
            Ok(())
        }
        SenderChange::Falls => {
            present.remove(seat.sender.sid);
            seat.phase = Phase::Gone;
            Ok(())
        }
    }
}

/// Enters the user for whose password the hub waited.
fn enter(
    alloc: Global,
    setup: &Setup,
    present: &mut Present,
    seat: &mut Seat,
) -> Result<(), AllocError>
    ensures users { OnOk result (present.new.users ≡ present.old.users ++ users_awaited seat.old.phase) }
    ensures told { StaysTold setup.now present.old present.new }
    ensures seat { OnOk result (seat.new ≡ record seat.old { phase = entered_phase seat.old.phase }) }
    ensures err { OnErr result ((present.new ≡ present.old) × (seat.new ≡ seat.old)) }
{
    match mem::replace(&mut seat.phase, Phase::Gone) {
        Phase::Verify(newcomer, expected) => {
            let Entrant { user, support } = newcomer;
            match present.insert(alloc, setup, user) {
                Ok(()) => {
                    seat.phase = Phase::Normal(support);
                    Ok(())
                }
                Err(user) => {
                    seat.phase = Phase::Verify(Entrant { user, support }, expected);
                    Err(AllocError)
                }
            }
        }
        other => {
            seat.phase = other;
            Ok(())
        }
    }
}

/// Enters a user at its login.
fn enter_as(
    alloc: Global,
    setup: &Setup,
    present: &mut Present,
    seat: &mut Seat,
    newcomer: Entrant,
) -> Result<(), AllocError>
    ensures users { OnOk result (present.new.users ≡ present.old.users ++ newcomer.user ∷ []) }
    ensures told { StaysTold setup.now present.old present.new }
    ensures seat { OnOk result (seat.new ≡ record seat.old { phase = Normal newcomer.support }) }
    ensures err { OnErr result ((present.new ≡ present.old) × (seat.new ≡ seat.old)) }
{
    let Entrant { user, support } = newcomer;
    if present.insert(alloc, setup, user).is_err() {
        return Err(AllocError);
    }
    seat.phase = Phase::Normal(support);
    Ok(())
}

/// Changes the fields of a user. It was looked at when the update was decided that nobody else has the nick, and that there
/// is room for the fields, so only memory can be wanting.
fn update(
    alloc: Global,
    setup: &Setup,
    present: &mut Present,
    seat: &mut Seat,
    revision: Revision,
) -> Result<(), AllocError>
    ensures users { OnOk result (present.new.users ≡ with_update seat.old.sender.sid revision.update (given_key revision.nick) present.old.users) }
    ensures told { StaysTold setup.now present.old present.new }
    ensures seat { OnOk result (seat.new ≡ record seat.old { phase = Normal revision.support }) }
    ensures err { OnErr result ((present.new ≡ present.old) × (seat.new ≡ seat.old)) }
{
    let Revision {
        update,
        nick,
        support,
    } = revision;
    present.update(alloc, setup, seat.sender.sid, &update, nick)?;
    seat.phase = Phase::Normal(support);
    Ok(())
}
