ghost use Rattle.std.specs.Prelude.{◌≡◌, [], None, Some, OnErr, OnOk};
ghost use Rattle.user_table.specs.Indexes.{IsSetAt, sid_at};

use adc_base32::Sid;
use std::alloc::{AllocError, Global};
use std::collections::BTreeMap;
use std::marker::Model;

/// The users by nick: session identifiers by the nicks' keys. Strangers choose the nicks, so the keys are
/// held in order, where no choice of them makes look-ups slow.
#[derive(Drop)]
pub(crate) struct NickIndex {
    sids: BTreeMap<String, Sid>,
}

impl Model for NickIndex {
    ghost use Rattle.std.specs.Prelude.{ℕ, List};

    ghost Value = { List (List ℕ × ℕ) };

    ghost use Rattle.user_table.specs.NickView.{sids_by_key};

    ghost view = { sids_by_key };
}

impl NickIndex {
    /// Makes an index in which nobody has a nick. Takes no memory.
    pub(crate) fn new(alloc: Global) -> NickIndex
        ensures { result ≡ [] }
    {
        NickIndex {
            sids: BTreeMap::new(alloc),
        }
    }

    /// Finds who has the key. Takes no memory.
    pub(crate) fn get(&self, key: &str) -> Option<Sid>
        ensures { result ≡ sid_at self.now key.now }
    {
        self.sids.get(key).copied()
    }

    /// Puts a copy of the key in. Refused only where memory runs out; then the index is as before.
    pub(crate) fn put(&mut self, alloc: Global, key: &str, sid: Sid) -> Result<(), AllocError>
        ensures put { OnOk result (IsSetAt key.now (Some sid) self.old self.new) }
        ensures unchanged { OnErr result (self.new ≡ self.old) }
    {
        let key = String::from_str(alloc, key)?;
        match self.sids.insert(key, sid) {
            Ok(_) => Ok(()),
            Err(_) => Err(AllocError),
        }
    }

    /// Takes the key out. Takes no memory.
    pub(crate) fn remove(&mut self, key: &str)
        ensures { IsSetAt key.now None self.old self.new }
    {
        self.sids.remove(key);
    }
}
