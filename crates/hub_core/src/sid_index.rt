ghost use Rattle.std.specs.Prelude.{◌≡◌, [], None, Some, OnErr, OnOk};
ghost use Rattle.hub_core.specs.Index.{IsSetAtSid, number_at};

use adc_base32::Sid;
use std::alloc::{AllocError, Global};
use std::collections::BTreeMap;
use std::marker::Model;

/// The connections by session identifier: the number of its join by each.
#[derive(Drop)]
pub(crate) struct SidIndex {
    numbers: BTreeMap<Sid, u64>,
}

impl Model for SidIndex {
    ghost use Rattle.std.specs.Prelude.{ℕ, List};

    ghost Value = { List (ℕ × ℕ) };

    ghost view = { λ index. index.numbers.entries };
}

impl SidIndex {
    /// Makes an index of no connection. It takes no memory.
    pub(crate) fn new(alloc: Global) -> SidIndex
        ensures { result ≡ [] }
    {
        SidIndex {
            numbers: BTreeMap::new(alloc),
        }
    }

    /// Finds the number of the connection with this session identifier. It takes no memory.
    pub(crate) fn get(&self, sid: Sid) -> Option<u64>
        ensures { result ≡ number_at self.now sid }
    {
        self.numbers.get(&sid).copied()
    }

    /// Puts a connection in. Refused only where memory runs out; then the index is as before.
    pub(crate) fn put(&mut self, sid: Sid, number: u64) -> Result<(), AllocError>
        ensures put { OnOk result (IsSetAtSid sid (Some number) self.old self.new) }
        ensures unchanged { OnErr result (self.new ≡ self.old) }
    {
        match self.numbers.insert(sid, number) {
            Ok(_) => Ok(()),
            Err(_) => Err(AllocError),
        }
    }

    /// Takes out what stands under a session identifier. It takes no memory.
    pub(crate) fn remove(&mut self, sid: Sid)
        ensures { IsSetAtSid sid None self.old self.new }
    {
        self.numbers.remove(&sid);
    }
}
