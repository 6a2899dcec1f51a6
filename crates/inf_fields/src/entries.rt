ghost use Rattle.std.specs.Prelude.{◌≡◌, ◌<◌, ◌≤◌, ◌+◌, ◌++◌, length, IfOk, OnOk};
ghost use Rattle.std.specs.Option.{option_copied};
ghost use Rattle.std.specs.Str.{bytes_eq};
ghost use Rattle.std.specs.String.{string_bytes};
ghost use Rattle.indexmap.specs.IndexMap.{IsUnique, spare};
ghost use Rattle.inf_fields.specs.Changes.{all_changed, changed_fields, put};
ghost use Rattle.inf_fields.specs.Field.{field, printed_fields, printed_field, value_of};
ghost use Rattle.inf_fields.specs.Stored.{fields_of};

use crate::name::FieldName;
use indexmap::IndexMap;
use std::alloc::{AllocError, Global};

/// The fields that an update or a user may have.
pub(crate) const MAX_FIELDS: usize = 40;

/// The number of bytes for which room is made at once where fields are written: those of most users take fewer.
const USUAL_BYTES: usize = 256;

/// The names and values in order. Strangers choose the names, but there are only 936 of two characters, so a hasher with a
/// fixed seed serves.
pub(crate) type Entries = IndexMap<FieldName, String>;

/// Gives the value under a name.
pub(crate) fn value_of(entries: &Entries, name: FieldName) -> Option<&str>
    ensures { option_copied result ≡ value_of name (fields_of entries.now.entries) }
{
    match entries.get(&name) {
        Some(value) => Some(value.as_str()),
        None => None,
    }
}

/// Puts a copy of a value under a name: in the place that the name has, or else last.
pub(crate) fn put(
    alloc: Global,
    entries: &mut Entries,
    name: FieldName,
    value: &str,
) -> Result<(), AllocError>
    ensures { OnOk result (fields_of entries.new.entries ≡ put (field name value.now) (fields_of entries.old.entries)) }
{
    let value = String::from_str(alloc, value)?;
    match entries.insert(name, value) {
        Ok(_) => Ok(()),
        Err(_) => Err(AllocError),
    }
}

/// Copies the entries with their values.
pub(crate) fn copies(
    alloc: Global,
    entries: &Entries,
) -> Result<Vec<(FieldName, String)>, AllocError>
    ensures fields { IfOk result (λ pairs. fields_of pairs.items ≡ fields_of entries.now.entries) }
    ensures distinct { IsUnique bytes_eq entries.now }
{
    let mut pairs = Vec::with_capacity(alloc, entries.len())?;
    for (name, value) in entries {
        let value = String::from_str(alloc, value)?;
        pairs.push((*name, value)).map_err(|_| AllocError)?;
    }
    Ok(pairs)
}

/// Changes the entries by each pair in turn: an empty value takes its name out. There is room.
pub(crate) fn change_all(entries: &mut Entries, pairs: Vec<(FieldName, String)>)
    requires { length pairs.items ≤ spare entries.old }
    ensures { fields_of entries.new.entries ≡ all_changed (fields_of pairs.items) (fields_of entries.old.entries) }
{
    for (name, value) in pairs {
        change(entries, name, value);
    }
}

fn change(entries: &mut Entries, name: FieldName, value: String)
    requires { 0 < spare entries.old }
    ensures fields { fields_of entries.new.entries ≡ changed_fields (field name (string_bytes value)) (fields_of entries.old.entries) }
    ensures room { spare entries.old ≤ spare entries.new + 1 }
{
    let text = value.as_str();
    if text.is_empty() {
        entries.shift_remove(&name);
    } else {
        entries.insert(name, value).unwrap();
    }
}

/// Writes each entry with a blank before it, one after another.
pub(crate) fn print(alloc: Global, entries: &Entries) -> Result<String, AllocError>
    ensures { IfOk result (λ text. string_bytes text ≡ printed_fields (fields_of entries.now.entries)) }
{
    let mut text = String::with_capacity(alloc, USUAL_BYTES)?;
    for (name, value) in entries {
        push_entry(&mut text, *name, value)?;
    }
    Ok(text)
}

fn push_entry(text: &mut String, name: FieldName, value: &str) -> Result<(), AllocError>
    ensures { OnOk result (string_bytes text.new ≡ string_bytes text.old ++ printed_field (field name value.now)) }
{
    let [first, second] = name.bytes();
    text.push(' ')?;
    text.push(char::from(first))?;
    text.push(char::from(second))?;
    text.push_str(value)
}
