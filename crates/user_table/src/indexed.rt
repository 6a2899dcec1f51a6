ghost use Rattle.std.specs.Prelude.{◌≡◌, ◌++◌, ◌∷◌, [], Some, None, IfErr, IsTrue, Ok, OnErr, OnOk};
ghost use Rattle.std.specs.String.{string_bytes};
ghost use Rattle.user_table.specs.Changes.{Refuses, users_after_update, takes_update};
ghost use Rattle.user_table.specs.Tables.{user_by_cid, user_by_key, user_by_sid, with_update};

use crate::cid_index::CidIndex;
use crate::nick_index::NickIndex;
use crate::refused::TableRefused;
use crate::roster::Roster;
use crate::totals::Totals;
use crate::user::User;
use crate::users::Users;
use adc_base32::Sid;
use adc_ids::{Cid, Nick};
use inf_fields::Update;
use std::alloc::{AllocError, Global};
use std::marker::Model;

/// The users who are present, found without a walk: a look-up takes a time that grows at most with
/// the logarithm of their number, whatever nicks and client identifiers strangers choose.
pub struct IndexedUsers {
    roster: Roster,
    nicks: NickIndex,
    cids: CidIndex,
}

impl Drop for IndexedUsers {
    fn drop(self) {
        let IndexedUsers {
            roster,
            nicks,
            cids,
        } = self;
        drop(roster);
        drop(nicks);
        drop(cids);
    }
}

impl Model for IndexedUsers {
    ghost use Rattle.std.specs.Prelude.{List};
    ghost use Rattle.user_table.specs.Listed.{Listed};

    ghost Value = { List Listed };

    ghost use Rattle.user_table.specs.IndexedView.{listed_by_indexes, IsIndexed};

    ghost view = { listed_by_indexes };

    ghost invariant = { IsIndexed };
}

impl Users for IndexedUsers {
    ghost listed = { λ users. users };

    fn new(alloc: Global) -> IndexedUsers {
        IndexedUsers {
            roster: Roster::new(alloc),
            nicks: NickIndex::new(alloc),
            cids: CidIndex::new(alloc),
        }
    }

    fn insert(&mut self, user: User) -> Result<(), (TableRefused, User)> {
        if self.nicks.get(user.key()).is_some() {
            return Err((TableRefused::NickTaken, user));
        }
        if self.cids.get(user.cid()).is_some() {
            return Err((TableRefused::CidTaken, user));
        }
        match self.enter(user) {
            Ok(()) => Ok(()),
            Err(user) => Err((TableRefused::Memory, user)),
        }
    }

    fn remove(&mut self, sid: Sid) -> Option<User> {
        let user = self.roster.remove(sid)?;
        let key = user.key();
        self.nicks.remove(key);
        self.cids.remove(user.cid());
        Some(user)
    }

    fn merge_info(
        &mut self,
        sid: Sid,
        update: &Update,
        nick: Option<Nick>,
    ) -> Result<(), TableRefused> {
        let Some(nick) = nick else {
            self.update(sid, update)?;
            return Ok(());
        };
        let key = nick.key(self.roster.allocator())?;
        self.renew(sid, update, key)
    }

    fn by_sid(&self, sid: Sid) -> Option<&User> {
        self.roster.get(sid)
    }

    fn by_cid(&self, cid: Cid) -> Option<&User> {
        let sid = self.cids.get(cid)?;
        self.roster.get(sid)
    }

    fn by_nick(&self, key: &str) -> Option<&User> {
        let sid = self.nicks.get(key)?;
        self.roster.get(sid)
    }

    fn at(&self, place: usize) -> Option<&User> {
        self.roster.at(place)
    }

    fn totals(&self) -> Totals {
        self.roster.totals()
    }
}

impl IndexedUsers {
    /// Puts a user behind the others, whose session identifier, nick and client identifier nobody
    /// has. Refused only where memory runs out; then the user comes back and all is as before.
    fn enter(&mut self, user: User) -> Result<(), User>
        requires sid { user_by_sid user.sid self.old ≡ None }
        requires key { user_by_key user.key self.old ≡ None }
        requires cid { user_by_cid user.cid self.old ≡ None }
        ensures entered { OnOk result (self.new ≡ self.old ++ user ∷ []) }
        ensures returned { IfErr result (λ back. back ≡ user) }
        ensures unchanged { OnErr result (self.new ≡ self.old) }
    {
        let alloc = self.roster.allocator();
        let sid = user.sid();
        let cid = user.cid();
        if self.nicks.put(alloc, user.key(), sid).is_err() {
            return Err(user);
        }
        if self.cids.put(cid, sid).is_err() {
            self.nicks.remove(user.key());
            return Err(user);
        }
        match self.roster.push(user) {
            Ok(()) => Ok(()),
            Err(user) => {
                self.cids.remove(cid);
                self.nicks.remove(user.key());
                Err(user)
            }
        }
    }

    /// Updates a user who is present and has room, and gives the user a key. Refused where another
    /// user has the key, or where memory runs out; then all is as before.
    fn renew(&mut self, sid: Sid, update: &Update, key: String) -> Result<(), TableRefused>
        requires takes { IsTrue (takes_update sid update.now self.old) }
        ensures renewed { OnOk result (users_after_update sid update.now (Some (string_bytes key)) self.old ≡ Ok self.new) }
        ensures refused { IfErr result (λ refused. Refuses refused (users_after_update sid update.now (Some (string_bytes key)) self.old)) }
        ensures unchanged { OnErr result (self.new ≡ self.old) }
    {
        let Some(holder) = self.nicks.get(&key) else {
            self.update_and_rename(sid, update, key)?;
            return Ok(());
        };
        if holder != sid {
            return Err(TableRefused::NickTaken);
        }
        self.update(sid, update)?;
        Ok(())
    }

    /// Updates a user who is present and has room. Refused only where memory runs out; then all is
    /// as before.
    fn update(&mut self, sid: Sid, update: &Update) -> Result<(), AllocError>
        requires takes { IsTrue (takes_update sid update.now self.old) }
        ensures updated { OnOk result (self.new ≡ with_update sid update.now None self.old) }
        ensures unchanged { OnErr result (self.new ≡ self.old) }
    {
        self.roster.merge(sid, update)
    }

    /// Updates a user who is present and has room, and gives the user a key that nobody has. Refused
    /// only where memory runs out; then all is as before.
    fn update_and_rename(
        &mut self,
        sid: Sid,
        update: &Update,
        key: String,
    ) -> Result<(), AllocError>
        requires takes { IsTrue (takes_update sid update.now self.old) }
        requires free { user_by_key (string_bytes key) self.old ≡ None }
        ensures updated { OnOk result (self.new ≡ with_update sid update.now (Some (string_bytes key)) self.old) }
        ensures unchanged { OnErr result (self.new ≡ self.old) }
    {
        let alloc = self.roster.allocator();
        self.nicks.put(alloc, &key, sid)?;
        if self.roster.merge(sid, update).is_err() {
            self.nicks.remove(&key);
            return Err(AllocError);
        }
        let before = self.roster.rename(sid, key);
        self.nicks.remove(&before);
        Ok(())
    }
}
