ghost use Rattle.std.specs.Prelude.{◌≡◌, ℕ, List, IsTrue, OnErr, OnOk};
ghost use Rattle.std.specs.Option.{option_map};
ghost use Rattle.std.specs.String.{string_bytes};
ghost use Rattle.inf_fields.specs.FieldNames.{share_size_name, shared_files_name};
ghost use Rattle.inf_fields.specs.Merging.{fits};
ghost use Rattle.user_table.specs.Listed.{Listed};
ghost use Rattle.user_table.specs.Renaming.{with_other_key};
ghost use Rattle.user_table.specs.Shares.{shared_by};
ghost use Rattle.user_table.specs.Tables.{amount, updated_user};

use crate::totals::SharedTotals;
use adc_base32::Sid;
use adc_ids::Cid;
use inf_fields::{FieldName, Fields, Update, shared_amount};
use std::alloc::AllocError;
use std::marker::Model;
use std::mem::replace;

/// A user who is present.
pub struct User {
    sid: Sid,
    cid: Cid,
    key: String,
    fields: Fields,
}

impl Drop for User {
    fn drop(self) {
        let User {
            sid: _,
            cid: _,
            key,
            fields,
        } = self;
        drop(key);
        drop(fields);
    }
}

impl Model for User {
    ghost use Rattle.user_table.specs.Listed.{Listed};

    ghost Value = { Listed };

    ghost use Rattle.std.specs.String.{string_bytes};

    ghost view = { λ u. record { sid = u.sid; cid = u.cid; key = string_bytes u.key; fields = u.fields } };
}

impl User {
    /// Makes the user with a session identifier, a client identifier, the key of the nick as `Nick::key` gives it, and the
    /// fields that are known.
    pub fn new(sid: Sid, cid: Cid, key: String, fields: Fields) -> User
        ensures sid { result.sid ≡ sid }
        ensures cid { result.cid ≡ cid }
        ensures key { result.key ≡ string_bytes key }
        ensures fields { result.fields ≡ fields }
    {
        User {
            sid,
            cid,
            key,
            fields,
        }
    }

    /// Gives the session identifier.
    pub fn sid(&self) -> Sid
        ensures { result ≡ self.now.sid }
    {
        self.sid
    }

    /// Gives the client identifier.
    pub fn cid(&self) -> Cid
        ensures { result ≡ self.now.cid }
    {
        self.cid
    }

    /// Gives the key of the nick, by which nicks are compared.
    pub fn key(&self) -> &str
        ensures { result.now ≡ self.now.key }
    {
        &self.key
    }

    /// Gives what is known of the user.
    pub fn fields(&self) -> &Fields
        ensures { result.now ≡ self.now.fields }
    {
        &self.fields
    }

    /// Gives how many bytes the user shares, by the field SS; 0 where there is none or it is no number.
    pub fn share_size(&self) -> u64
        ensures { result ≡ amount share_size_name self.now.fields }
    {
        amount(&self.fields, FieldName::share_size())
    }

    /// Gives how many files the user shares, by the field SF; 0 where there is none or it is no number.
    pub fn shared_files(&self) -> u64
        ensures { result ≡ amount shared_files_name self.now.fields }
    {
        amount(&self.fields, FieldName::shared_files())
    }

    /// Gives what the user shares.
    pub(crate) fn files_shared(&self) -> SharedTotals
        ensures { result ≡ shared_by self.now }
    {
        SharedTotals {
            ss: self.share_size(),
            sf: self.shared_files(),
        }
    }

    /// Merges an update for which there is room, and takes the key that is given. Refused only where
    /// memory runs out; then the user is as before.
    pub fn change(&mut self, update: &Update, key: Option<String>) -> Result<(), AllocError>
        requires room { IsTrue (fits self.old.fields update.now) }
        ensures changed { OnOk result (self.new ≡ updated_user update.now (option_map string_bytes key) self.old) }
        ensures unchanged { OnErr result (self.new ≡ self.old) }
    {
        if self.fields.merge(update).is_err() {
            return Err(AllocError);
        }
        if let Some(key) = key {
            self.key = key;
        }
        Ok(())
    }

    /// Takes another key, and gives back the one before.
    pub(crate) fn rename(&mut self, key: String) -> String
        ensures renamed { self.new ≡ with_other_key (string_bytes key) self.old }
        ensures before { string_bytes result ≡ self.old.key }
    {
        replace(&mut self.key, key)
    }
}

/// Gives the number that a field gives, or 0.
fn amount(fields: &Fields, name: FieldName) -> u64
    ensures { result ≡ amount name fields.now }
{
    let Some(value) = fields.get(name) else {
        return 0;
    };
    shared_amount(value).unwrap_or(0)
}
