ghost use Rattle.std.specs.Prelude.{◌≡◌, ◌≢◌, [], IfErr, IfOk, IfSome, IsTrue, OnErr, OnOk};
ghost use Rattle.std.specs.Option.{option_copied};
ghost use Rattle.std.specs.String.{string_bytes};
ghost use Rattle.inf_fields.specs.Field.{printed_fields, value_of};
ghost use Rattle.inf_fields.specs.Gives.{GivesChange};
ghost use Rattle.inf_fields.specs.Merging.{fits, merged_with, merging};

use crate::entries::{Entries, MAX_FIELDS, change_all, copies, print, value_of};
use crate::fault::InfFault;
use crate::name::FieldName;
use crate::update::Update;
use indexmap::IndexMap;
use std::alloc::Global;
use std::marker::Model;

/// The fields that are known of a user: the merge of all updates (ADC 1.0, "INF"). No value is empty, and there
/// are at most 40 fields.
pub struct Fields {
    entries: Entries,
}

impl Drop for Fields {
    fn drop(self) {
        let Fields { entries } = self;
        drop(entries);
    }
}

impl Model for Fields {
    ghost use Rattle.std.specs.Prelude.{List};
    ghost use Rattle.inf_fields.specs.Field.{Field};

    ghost Value = { List Field };

    ghost use Rattle.inf_fields.specs.FieldsView.{fields_held, IsHeld};

    ghost view = { fields_held };

    ghost invariant = { IsHeld };
}

impl Fields {
    /// Makes the fields of a user of whom none are known. Takes no memory.
    pub fn new(alloc: Global) -> Fields
        ensures { result ≡ [] }
    {
        Fields {
            entries: IndexMap::new(alloc),
        }
    }

    /// Tests whether there are at most 40 fields once the update is merged. Takes no memory.
    pub fn fits(&self, update: &Update) -> bool
        ensures { result ≡ fits self.now update.now }
    {
        let mut added = 0;
        let mut taken = 0;
        for (name, value) in &update.entries {
            if self.entries.contains_key(name) {
                if value.as_str().is_empty() {
                    taken += 1;
                }
            } else if !value.as_str().is_empty() {
                added += 1;
            }
        }
        self.entries.len() + added <= MAX_FIELDS + taken
    }

    /// Merges an update (ADC 1.0, "INF"): an empty value takes its field away, another one replaces
    /// the value in its place, and a new name goes last.
    ///
    /// Refused with `TooMany` where there would be over 40 fields, then with `Memory`. After a
    /// refusal the fields are as before.
    pub fn merge(&mut self, update: &Update) -> Result<(), InfFault>
        ensures exact { GivesChange result (merging self.old update.now) self.old self.new }
        ensures merged { OnOk result (self.new ≡ merged_with self.old update.now) }
        ensures unchanged { OnErr result (self.new ≡ self.old) }
        ensures fitting { IsTrue (fits self.old update.now) → IfErr result (λ fault. fault ≡ InfFault.Memory) }
    {
        if !self.fits(update) {
            return Err(InfFault::TooMany);
        }
        let pairs = copies(*self.entries.allocator(), &update.entries)?;
        self.entries.reserve(pairs.len())?;
        change_all(&mut self.entries, pairs);
        Ok(())
    }

    /// Gives the value under a name, escaped as it came; it is not empty. Takes no memory.
    pub fn get(&self, name: FieldName) -> Option<&str>
        ensures value { option_copied result ≡ value_of name self.now }
        ensures filled { IfSome result (λ value. value.now ≢ []) }
    {
        value_of(&self.entries, name)
    }

    /// Writes the fields in order as they stand in a message, each with a blank before it (ADC 1.0, "INF"). Refused only
    /// where memory runs out.
    pub fn print(&self, alloc: Global) -> Result<String, InfFault>
        ensures text { IfOk result (λ text. string_bytes text ≡ printed_fields self.now) }
        ensures fault { IfErr result (λ fault. fault ≡ InfFault.Memory) }
    {
        Ok(print(alloc, &self.entries)?)
    }
}
