ghost use Rattle.std.specs.Prelude.{◌≡◌, ◌++◌, ℕ, List, [], ◌∷◌, Ok, None, slice_get, IsTrue, IfErr, OnErr, OnOk};
ghost use Rattle.std.specs.Option.{option_copied};
ghost use Rattle.user_table.specs.Changes.{AreDistinct, Refuses, users_after_entry, given_key, users_after_update, takes_update};
ghost use Rattle.user_table.specs.Listed.{Listed};
ghost use Rattle.user_table.specs.Tables.{totals_of, user_by_cid, user_by_key, user_by_sid, without_sid};

use crate::refused::TableRefused;
use crate::totals::Totals;
use crate::user::User;
use adc_base32::Sid;
use adc_ids::{Cid, Nick};
use inf_fields::Update;
use std::alloc::Global;

/// The users who are present, in order of entry. No two have one session identifier, one nick or one
/// client identifier.
pub trait Users: Drop {
    ghost listed: { Self → List Listed };

    /// Makes a table with no users. Takes no memory.
    fn new(alloc: Global) -> Self
        ensures { listed result ≡ [] };

    /// Puts a user behind the others, whose session identifier nobody in the table may have.
    ///
    /// Refused with the first of these that applies, and then the user comes back and the table is as before. These are
    /// `NickTaken` where somebody has the same nick, `CidTaken` where somebody has the client identifier (ADC 1.0, "STA",
    /// codes 22 and 24), `Memory` where memory runs out.
    fn insert(&mut self, user: User) -> Result<(), (TableRefused, User)>
        requires absent { user_by_sid user.sid (listed self.old) ≡ None }
        ensures entered { OnOk result (users_after_entry user (listed self.old) ≡ Ok (listed self.new)) }
        ensures refused { IfErr result (λ refused. Refuses refused.0 (users_after_entry user (listed self.old))) }
        ensures memory { IfErr result (λ refused. refused.0 ≡ TableRefused.Memory → users_after_entry user (listed self.old) ≡ Ok (listed self.old ++ user ∷ [])) }
        ensures returned { IfErr result (λ refused. refused.1 ≡ user) }
        ensures unchanged { OnErr result (listed self.new ≡ listed self.old) };

    /// Takes a user out, or answers `None` where nobody has the session identifier. The others stay
    /// in order. Takes no memory.
    fn remove(&mut self, sid: Sid) -> Option<User>
        ensures removed { result ≡ user_by_sid sid (listed self.old) }
        ensures left { listed self.new ≡ without_sid sid (listed self.old) };

    /// Merges an update into the fields of a user who is present and has room for them, and gives
    /// the user a new nick where one is passed (ADC 1.0, "INF").
    ///
    /// Refused with `NickTaken` where another user has the new nick, or with `Memory` where memory
    /// runs out; then the table is as before.
    fn merge_info(
        &mut self,
        sid: Sid,
        update: &Update,
        nick: Option<Nick>,
    ) -> Result<(), TableRefused>
        requires takes { IsTrue (takes_update sid update.now (listed self.old)) }
        ensures renewed { OnOk result (users_after_update sid update.now (given_key nick) (listed self.old) ≡ Ok (listed self.new)) }
        ensures refused { IfErr result (λ refused. Refuses refused (users_after_update sid update.now (given_key nick) (listed self.old))) }
        ensures unchanged { OnErr result (listed self.new ≡ listed self.old) };

    /// Finds the user with a session identifier. Takes no memory.
    fn by_sid(&self, sid: Sid) -> Option<&User>
        ensures found { option_copied result ≡ user_by_sid sid (listed self.now) }
        ensures distinct { AreDistinct (listed self.now) };

    /// Finds the user with a client identifier. Takes no memory.
    fn by_cid(&self, cid: Cid) -> Option<&User>
        ensures found { option_copied result ≡ user_by_cid cid (listed self.now) }
        ensures distinct { AreDistinct (listed self.now) };

    /// Finds the user whose nick has this key, which is what `Nick::key` gives. Takes no memory.
    fn by_nick(&self, key: &str) -> Option<&User>
        ensures found { option_copied result ≡ user_by_key key.now (listed self.now) }
        ensures distinct { AreDistinct (listed self.now) };

    /// Gives the user at a place in the order of entry, from 0, or `None` past the last. Takes no memory.
    fn at(&self, place: usize) -> Option<&User>
        ensures { option_copied result ≡ slice_get (listed self.now) place };

    /// Counts the users who are present, and adds up what they share. Takes no memory.
    fn totals(&self) -> Totals
        ensures { result ≡ totals_of (listed self.now) };
}

/// Tests whether the user with a session identifier is present, and has room for an update: what
/// `Users::merge_info` asks. Takes no memory.
pub fn takes_update<U: Users>(users: &U, sid: Sid, update: &Update) -> bool
    ensures { result ≡ takes_update sid update.now (U.listed users.now) }
{
    match users.by_sid(sid) {
        Some(user) => user.fields().fits(update),
        None => false,
    }
}
