ghost use Rattle.std.specs.Prelude.{◌≡◌, ◌++◌, ◌∷◌, [], None, Some, slice_get, IfErr, IsSome, IsTrue, OnErr, OnOk};
ghost use Rattle.std.specs.Option.{option_copied};
ghost use Rattle.std.specs.String.{string_bytes};
ghost use Rattle.user_table.specs.Changes.{AreDistinct, takes_update};
ghost use Rattle.user_table.specs.Listed.{Listed};
ghost use Rattle.user_table.specs.Renaming.{with_key};
ghost use Rattle.user_table.specs.Tables.{totals_of, user_by_sid, with_update, without_sid};

use crate::totals::Totals;
use crate::user::User;
use adc_base32::Sid;
use indexmap::IndexMap;
use inf_fields::Update;
use std::alloc::{AllocError, Global};
use std::marker::Model;

/// The users in order of entry, found by session identifier, with what they share together. The hub
/// gives the identifiers, so a hasher with a fixed seed serves.
#[derive(Drop)]
pub(crate) struct Roster {
    users: IndexMap<Sid, User>,
    totals: Totals,
}

impl Model for Roster {
    ghost use Rattle.std.specs.Prelude.{List};
    ghost use Rattle.user_table.specs.Listed.{Listed};

    ghost Value = { List Listed };

    ghost use Rattle.user_table.specs.RosterView.{listed_in, IsRoster};

    ghost view = { listed_in };

    ghost invariant = { IsRoster };
}

impl Roster {
    /// Makes a roster with no users. Takes no memory.
    pub(crate) fn new(alloc: Global) -> Roster
        ensures { result ≡ [] }
    {
        Roster {
            users: IndexMap::new(alloc),
            totals: Totals {
                users: 0,
                ss: 0,
                sf: 0,
            },
        }
    }

    /// Gives what allocates for it.
    pub(crate) fn allocator(&self) -> Global {
        *self.users.allocator()
    }

    /// Gives the user with a session identifier. Takes no memory.
    pub(crate) fn get(&self, sid: Sid) -> Option<&User>
        ensures { option_copied result ≡ user_by_sid sid self.now }
    {
        self.users.get(&sid)
    }

    /// Gives the user at a place in the order of entry. Takes no memory.
    pub(crate) fn at(&self, place: usize) -> Option<&User>
        ensures { option_copied result ≡ slice_get self.now place }
    {
        match self.users.get_index(place) {
            Some((_, user)) => Some(user),
            None => None,
        }
    }

    /// Counts the users, and adds up what they share. Takes no memory.
    pub(crate) fn totals(&self) -> Totals
        ensures { result ≡ totals_of self.now }
    {
        self.totals
    }

    /// Puts a user behind the others, whose session identifier nobody has. Refused only where memory
    /// runs out; then the user comes back and all is as before.
    pub(crate) fn push(&mut self, user: User) -> Result<(), User>
        requires absent { user_by_sid user.sid self.old ≡ None }
        ensures entered { OnOk result (self.new ≡ self.old ++ user ∷ []) }
        ensures returned { IfErr result (λ back. back ≡ user) }
        ensures unchanged { OnErr result (self.new ≡ self.old) }
    {
        let shared = user.files_shared();
        let count = self.users.len();
        prove!(count < usize::MAX);
        match self.users.insert(user.sid(), user) {
            Ok(_) => {
                self.totals.raise(shared);
                Ok(())
            }
            Err(failed) => Err(failed.value.1),
        }
    }

    /// Takes a user out, where somebody has the session identifier. The others stay in order. Takes
    /// no memory.
    pub(crate) fn remove(&mut self, sid: Sid) -> Option<User>
        requires distinct { AreDistinct self.old }
        ensures removed { result ≡ user_by_sid sid self.old }
        ensures left { self.new ≡ without_sid sid self.old }
    {
        let user = self.users.shift_remove(&sid)?;
        self.totals.lower(user.files_shared());
        Some(user)
    }

    /// Merges an update into the fields of a user who is present and has room for it. Refused only
    /// where memory runs out; then all is as before.
    pub(crate) fn merge(&mut self, sid: Sid, update: &Update) -> Result<(), AllocError>
        requires takes { IsTrue (takes_update sid update.now self.old) }
        requires distinct { AreDistinct self.old }
        ensures merged { OnOk result (self.new ≡ with_update sid update.now None self.old) }
        ensures unchanged { OnErr result (self.new ≡ self.old) }
    {
        let Some(user) = self.users.get_mut(&sid) else {
            unreachable!()
        };
        let before = user.files_shared();
        user.change(update, None)?;
        let after = user.files_shared();
        self.totals.lower(before);
        self.totals.raise(after);
        Ok(())
    }

    /// Gives a user who is present another key, and answers the key before. Takes no memory.
    pub(crate) fn rename(&mut self, sid: Sid, key: String) -> String
        requires present { IsSome (user_by_sid sid self.old) }
        requires distinct { AreDistinct self.old }
        ensures renamed { self.new ≡ with_key sid (string_bytes key) self.old }
        ensures before { (user : Listed) → user_by_sid sid self.old ≡ Some user → string_bytes result ≡ user.key }
    {
        let Some(user) = self.users.get_mut(&sid) else {
            unreachable!()
        };
        user.rename(key)
    }
}
