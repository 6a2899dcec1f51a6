ghost use Rattle.std.specs.Prelude.{◌≡◌, ◌++◌, ◌∷◌, [], IfErr, OnErr, OnOk};
ghost use Rattle.user_table.specs.Changes.{given_key};
ghost use Rattle.user_table.specs.Tables.{with_update, without_sid};
ghost use Rattle.hub_core.specs.Told.{StaysTold};
ghost use Rattle.hub_rules.specs.Configured.{Configured};

use adc_base32::Sid;
use adc_ids::Nick;
use hub_decisions::PresentLines;
use hub_setup::Setup;
use inf_fields::Update;
use std::alloc::{AllocError, Global};
use user_table::{IndexedUsers, User, Users, takes_update};

/// The users who are present, and their lines, by which newcomers are told of them.
#[derive(Drop)]
pub struct Present {
    pub(crate) users: IndexedUsers,
    pub(crate) lines: PresentLines,
}

impl Present {
    /// Makes the list of no user. Takes no memory.
    pub(crate) fn new(alloc: Global) -> Present
        ensures users { result.users ≡ [] }
        ensures lines { result.lines ≡ [] }
    {
        Present {
            users: IndexedUsers::new(alloc),
            lines: PresentLines::new(alloc),
        }
    }

    /// Puts a user behind the others, or gives it back. That nobody has its identifiers or its nick was looked at when the
    /// entry was decided, so only memory can be wanting.
    pub(crate) fn insert(&mut self, alloc: Global, setup: &Setup, user: User) -> Result<(), User>
        ensures ok { OnOk result (self.new.users ≡ self.old.users ++ user ∷ []) }
        ensures told { StaysTold setup.now self.old self.new }
        ensures err { IfErr result (λ returned. (returned ≡ user) × (self.new ≡ self.old)) }
    {
        if self.users.by_sid(user.sid()).is_some() {
            return Err(user);
        }
        if let Err((_, user)) = self.users.insert(user) {
            return Err(user);
        }
        self.lines.add(alloc, setup, &self.users);
        Ok(())
    }

    /// Takes out the user with a session identifier, where there is one. Takes no memory.
    pub(crate) fn remove(&mut self, sid: Sid)
        ensures users { self.new.users ≡ without_sid sid self.old.users }
        ensures told { (setup : Configured) → StaysTold setup self.old self.new }
    {
        self.users.remove(sid);
        self.lines.remove(sid);
    }

    /// Changes the fields of a user, and the nick where one is passed.
    pub(crate) fn update(
        &mut self,
        alloc: Global,
        setup: &Setup,
        sid: Sid,
        update: &Update,
        nick: Option<Nick>,
    ) -> Result<(), AllocError>
        ensures users { OnOk result (self.new.users ≡ with_update sid update.now (given_key nick) self.old.users) }
        ensures told { StaysTold setup.now self.old self.new }
        ensures err { OnErr result (self.new ≡ self.old) }
    {
        if !takes_update(&self.users, sid, update) {
            return Err(AllocError);
        }
        if self.users.merge_info(sid, update, nick).is_err() {
            return Err(AllocError);
        }
        self.lines.renew(alloc, setup, &self.users, sid);
        Ok(())
    }
}
