ghost use Rattle.std.specs.Prelude.{◌≡◌, ℕ, List, nat_eq, map, length, not, IfOk, IfErr, if◌then◌else◌};
ghost use Rattle.std.specs.Map.Iter.{deref};
ghost use Rattle.std.specs.Option.{option_copied};
ghost use Rattle.std.specs.Str.{bytes_eq};
ghost use Rattle.std.specs.String.{string_bytes};
ghost use Rattle.inf_fields.specs.Cleaning.{asks_for_address, clean, is_held_back};
ghost use Rattle.inf_fields.specs.Field.{field, printed_fields, value_of};
ghost use Rattle.inf_fields.specs.Gives.{GivesFields};
ghost use Rattle.inf_fields.specs.Updates.{reading};

use crate::address::dotted_decimal;
use crate::entries::{Entries, MAX_FIELDS, print, put, value_of};
use crate::fault::InfFault;
use crate::name::FieldName;
use crate::parameter::Parameter;
use indexmap::IndexMap;
use std::alloc::Global;
use std::marker::Model;

/// The fields that an INF message names, in order, each name once. A value may be empty (ADC 1.0, "INF").
pub struct Update {
    pub(crate) entries: Entries,
}

impl Drop for Update {
    fn drop(self) {
        let Update { entries } = self;
        drop(entries);
    }
}

impl Model for Update {
    ghost use Rattle.std.specs.Prelude.{List};
    ghost use Rattle.inf_fields.specs.Field.{Field};

    ghost Value = { List Field };

    ghost use Rattle.inf_fields.specs.UpdateView.{fields_said};

    ghost view = { fields_said };
}

impl Update {
    /// Reads words, each of which is a name of two characters and a value (ADC 1.0, "INF"). A
    /// name that stands twice keeps its first place and has its last value.
    ///
    /// Refused with the first of these that applies: `BadName` where a word begins with no name,
    /// `TooMany` where there are over 40 different names. `Memory` comes last.
    pub fn read(alloc: Global, words: &[&str]) -> Result<Update, InfFault>
        ensures { GivesFields result (reading (map deref words.now)) }
    {
        let mut entries = IndexMap::with_capacity(alloc, words.len().min(MAX_FIELDS))?;
        for word in words {
            let Some(parameter) = Parameter::read(word) else {
                return Err(InfFault::BadName);
            };
            put(alloc, &mut entries, parameter.name, parameter.value)?;
        }
        if entries.len() > MAX_FIELDS {
            return Err(InfFault::TooMany);
        }
        Ok(Update { entries })
    }

    /// Gives what a hub passes on of it: all but the private identifier (PD), what only a hub may say (CT) and what it
    /// cannot check (I6, U6). The client's address stands in place of an I4 of `0.0.0.0` (ADC 1.0, "INF"). Refused only
    /// where memory runs out.
    pub fn clean(&self, alloc: Global, peer: [u8; 4]) -> Result<Update, InfFault>
        ensures clean { IfOk result (λ update. update ≡ clean self.now peer) }
        ensures fault { IfErr result (λ fault. fault ≡ InfFault.Memory) }
    {
        let address = dotted_decimal(alloc, peer)?;
        let mut entries = IndexMap::with_capacity(alloc, self.entries.len())?;
        for (name, value) in &self.entries {
            if !is_held_back(*name) {
                let passed = passed_on(*name, value, &address);
                put(alloc, &mut entries, *name, passed)?;
            }
        }
        Ok(Update { entries })
    }

    /// Tests whether it has no field.
    pub fn is_empty(&self) -> bool
        ensures { result ≡ nat_eq (length self.now) 0 }
    {
        self.entries.is_empty()
    }

    /// Gives the value under a name, escaped as it came; it may be empty. Takes no memory.
    pub fn get(&self, name: FieldName) -> Option<&str>
        ensures { option_copied result ≡ value_of name self.now }
    {
        value_of(&self.entries, name)
    }

    /// Writes its fields in order as they stand in a message, each with a blank before it, the empty ones too (ADC 1.0,
    /// "INF"). Refused only where memory runs out.
    pub fn print(&self, alloc: Global) -> Result<String, InfFault>
        ensures text { IfOk result (λ text. string_bytes text ≡ printed_fields self.now) }
        ensures fault { IfErr result (λ fault. fault ≡ InfFault.Memory) }
    {
        Ok(print(alloc, &self.entries)?)
    }
}

/// Tests whether no other client may see the field: PD, CT, I6 and U6.
fn is_held_back(name: FieldName) -> bool
    ensures { (value : List ℕ) → result ≡ is_held_back (field name value) }
{
    name == FieldName::private_id()
        || name == FieldName::client_type()
        || name == FieldName::address6()
        || name == FieldName::port6()
}

/// Gives the value that is passed on: the address where an I4 asks for it.
fn passed_on<'a>(name: FieldName, value: &'a str, address: &'a str) -> &'a str
    ensures { result.now ≡ (if asks_for_address (field name value.entry.now) then address.entry.now else value.entry.now) }
{
    if name == FieldName::address() && value == "0.0.0.0" {
        address
    } else {
        value
    }
}
