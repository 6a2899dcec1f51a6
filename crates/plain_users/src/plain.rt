ghost use Rattle.std.specs.Prelude.{◌≡◌, ◌++◌, ◌∷◌, [], Some, IsSome, IfSome, IfNone, IfOk, IsTrue, OnErr, OnOk};
ghost use Rattle.std.specs.Option.{option_map};
ghost use Rattle.std.specs.String.{string_bytes};
ghost use Rattle.user_table.specs.Changes.{AreDistinct, cid_taken, given_key, held_by_other, nick_taken, takes_update};
ghost use Rattle.user_table.specs.Tables.{totals_of, user_by_sid, with_update, without_sid};

use crate::finding::{by_cid, by_key, by_sid, place_of};
use adc_base32::Sid;
use adc_ids::{Cid, Nick};
use inf_fields::Update;
use std::alloc::{AllocError, Global};
use std::marker::Model;
use user_table::{TableRefused, Totals, User, Users};

/// The users who are present, in a vector. It shows what a table does; its look-ups walk the list.
#[derive(Drop)]
pub struct PlainUsers {
    users: Vec<User>,
}

impl Model for PlainUsers {
    ghost use Rattle.std.specs.Prelude.{List};
    ghost use Rattle.user_table.specs.Listed.{Listed};

    ghost Value = { List Listed };

    ghost use Rattle.plain_users.specs.PlainView.{plainly_listed, ArePlainlyDistinct};

    ghost view = { plainly_listed };

    ghost invariant = { ArePlainlyDistinct };
}

impl Users for PlainUsers {
    ghost listed = { λ users. users };

    fn new(alloc: Global) -> PlainUsers {
        PlainUsers {
            users: Vec::new(alloc),
        }
    }

    fn insert(&mut self, user: User) -> Result<(), (TableRefused, User)> {
        if is_nick_taken(&self.users, &user) {
            return Err((TableRefused::NickTaken, user));
        }
        if is_cid_taken(&self.users, &user) {
            return Err((TableRefused::CidTaken, user));
        }
        match self.users.push(user) {
            Ok(()) => Ok(()),
            Err(failed) => Err((TableRefused::Memory, failed.value)),
        }
    }

    fn remove(&mut self, sid: Sid) -> Option<User> {
        let place = place_of(&self.users, sid)?;
        Some(self.users.remove(place))
    }

    fn merge_info(
        &mut self,
        sid: Sid,
        update: &Update,
        nick: Option<Nick>,
    ) -> Result<(), TableRefused> {
        let key = key_of(*self.users.allocator(), &nick)?;
        if is_held_by_other(&self.users, sid, &key) {
            return Err(TableRefused::NickTaken);
        }
        change(&mut self.users, sid, update, key)?;
        Ok(())
    }

    fn by_sid(&self, sid: Sid) -> Option<&User> {
        by_sid(&self.users, sid)
    }

    fn by_cid(&self, cid: Cid) -> Option<&User> {
        by_cid(&self.users, cid)
    }

    fn by_nick(&self, key: &str) -> Option<&User> {
        by_key(&self.users, key)
    }

    fn at(&self, place: usize) -> Option<&User> {
        self.users.get(place)
    }

    fn totals(&self) -> Totals {
        totals(&self.users)
    }
}

/// Tests whether somebody has the nick of a user.
fn is_nick_taken(users: &[User], user: &User) -> bool
    ensures { result ≡ nick_taken user.now.key users.now }
{
    by_key(users, user.key()).is_some()
}

/// Tests whether somebody has the client identifier of a user.
fn is_cid_taken(users: &[User], user: &User) -> bool
    ensures { result ≡ cid_taken user.now.cid users.now }
{
    by_cid(users, user.cid()).is_some()
}

/// Gives the key of the nick that is given.
fn key_of(alloc: Global, nick: &Option<Nick>) -> Result<Option<String>, AllocError>
    ensures { IfOk result (λ key. option_map string_bytes key ≡ given_key nick.now) }
{
    match nick {
        Some(nick) => Ok(Some(nick.key(alloc)?)),
        None => Ok(None),
    }
}

/// Tests whether a user other than this one has the key that is given.
fn is_held_by_other(users: &[User], sid: Sid, key: &Option<String>) -> bool
    ensures { result ≡ held_by_other sid (option_map string_bytes key.now) users.now }
{
    let Some(key) = key else {
        return false;
    };
    match by_key(users, key) {
        Some(user) => user.sid() != sid,
        None => false,
    }
}

/// Updates the user with a session identifier. Refused only where memory runs out; then all is as before.
fn change(
    users: &mut Vec<User>,
    sid: Sid,
    update: &Update,
    key: Option<String>,
) -> Result<(), AllocError>
    requires takes { IsTrue (takes_update sid update.now users.old.items) }
    requires distinct { AreDistinct users.old.items }
    ensures changed { OnOk result (users.new.items ≡ with_update sid update.now (option_map string_bytes key) users.old.items) }
    ensures unchanged { OnErr result (users.new.items ≡ users.old.items) }
{
    let Some(place) = place_of(users, sid) else {
        unreachable!()
    };
    users[place].change(update, key)
}

/// Counts the users, and adds up what they share.
fn totals(users: &[User]) -> Totals
    ensures { result ≡ totals_of users.now }
{
    let mut ss: u128 = 0;
    let mut sf: u128 = 0;
    'users: for user in users {
        ss += u128::from(user.share_size());
        sf += u128::from(user.shared_files());
    }
    Totals {
        users: users.len() as u64,
        ss,
        sf,
    }
}
