use crate::lines::PresentLines;
use hub_rules::Topic;
use hub_setup::Setup;
use operator_acts::Bans;
use std::marker::Model;
use user_table::IndexedUsers;

/// The hub, as a decision looks at it.
#[derive(Drop)]
pub struct HubFacts<'a> {
    /// The setup of the hub.
    pub setup: &'a Setup,
    /// The users who are present.
    pub users: &'a IndexedUsers,
    /// The lines of the first of them, in order.
    pub lines: &'a PresentLines,
    /// The bans that are held.
    pub bans: &'a Bans,
    /// The topic.
    pub topic: &'a Topic,
}

impl<'a> Model for HubFacts<'a> {
    ghost use Rattle.hub_rules.specs.Views.{HubView as Seen};

    ghost Value = { Seen };

    ghost view = { λ hub. record { setup = hub.setup.now; users = hub.users.now; bans = hub.bans.now; topic = hub.topic.now } };

    ghost use Rattle.hub_decisions.specs.Present.{AreFirst};

    ghost invariant = { λ hub. AreFirst hub.setup.now hub.users.now hub.lines.now };
}
