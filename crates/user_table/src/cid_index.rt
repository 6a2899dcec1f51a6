ghost use Rattle.std.specs.Prelude.{◌≡◌, [], None, Some, OnErr, OnOk};
ghost use Rattle.user_table.specs.Indexes.{IsSetAt, sid_at};

use adc_base32::Sid;
use adc_ids::Cid;
use std::alloc::{AllocError, Global};
use std::collections::BTreeMap;
use std::marker::Model;

/// The users by client identifier: session identifiers by client identifiers. Strangers choose the
/// latter, so they are held in order, where no choice of them makes look-ups slow.
#[derive(Drop)]
pub(crate) struct CidIndex {
    sids: BTreeMap<Cid, Sid>,
}

impl Model for CidIndex {
    ghost use Rattle.std.specs.Prelude.{ℕ, List};

    ghost Value = { List (List ℕ × ℕ) };

    ghost use Rattle.user_table.specs.CidView.{sids_by_cid};

    ghost view = { sids_by_cid };
}

impl CidIndex {
    /// Makes an index in which nobody has a client identifier. Takes no memory.
    pub(crate) fn new(alloc: Global) -> CidIndex
        ensures { result ≡ [] }
    {
        CidIndex {
            sids: BTreeMap::new(alloc),
        }
    }

    /// Finds who has the client identifier. Takes no memory.
    pub(crate) fn get(&self, cid: Cid) -> Option<Sid>
        ensures { result ≡ sid_at self.now cid }
    {
        self.sids.get(&cid).copied()
    }

    /// Puts a client identifier in. Refused only where memory runs out; then the index is as before.
    pub(crate) fn put(&mut self, cid: Cid, sid: Sid) -> Result<(), AllocError>
        ensures put { OnOk result (IsSetAt cid (Some sid) self.old self.new) }
        ensures unchanged { OnErr result (self.new ≡ self.old) }
    {
        match self.sids.insert(cid, sid) {
            Ok(_) => Ok(()),
            Err(_) => Err(AllocError),
        }
    }

    /// Takes a client identifier out. Takes no memory.
    pub(crate) fn remove(&mut self, cid: Cid)
        ensures { IsSetAt cid None self.old self.new }
    {
        self.sids.remove(&cid);
    }
}
