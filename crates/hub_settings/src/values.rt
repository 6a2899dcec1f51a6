ghost use Rattle.std.specs.Prelude.{◌≡◌, ◌≤◌, length, IfOk, IfSome};
ghost use Rattle.std.specs.Option.{option_and_then, option_map};
ghost use Rattle.toml.specs.Data.{get_member};
ghost use Rattle.toml.specs.View.{table_view, view};
ghost use Rattle.hub_settings.specs.Lists.{text_at};
ghost use Rattle.hub_settings.specs.Answers.{ReadsText};
ghost use Rattle.hub_settings.specs.Kinds.{HasFitDefault, IsWithin};
ghost use Rattle.hub_settings.specs.Settings.{kind_of, read};
ghost use Rattle.hub_settings.specs.Values.{address_for, hash_called, hash_for, not_empty, number_for, number_or, some_text_for, text_for, text_or, truth_for, truth_of, within};

use crate::hash_name::HashName;
use crate::keys::kind_of;
use crate::kinds::SettingKind;
use toml::{Table, Value};

/// Gives the value at a key.
pub(crate) fn value_at<'a>(table: &'a Table, key: &str) -> Option<&'a Value>
    ensures { option_map (λ v. view v.now) result ≡ get_member key.now (table_view table.entry.now) }
{
    table.get(key)
}

/// Gives the text at a key, or the default where there is none.
pub(crate) fn text_or<'a>(table: &'a Table, key: &str, default: &'a str) -> Option<&'a str>
    ensures { option_map (λ s. s.now) result ≡ text_or default.entry.now (get_member key.now (table_view table.entry.now)) }
{
    match value_at(table, key) {
        Some(value) => value.as_str(),
        None => Some(default),
    }
}

/// Gives the text at a key that has to be there.
pub(crate) fn text_at<'a>(table: &'a Table, key: &str) -> Option<&'a str>
    ensures { option_map (λ s. s.now) result ≡ text_at key.now (table_view table.entry.now) }
{
    match value_at(table, key) {
        Some(value) => value.as_str(),
        None => None,
    }
}

/// Answers whether true stands at a key; false where there is none.
pub(crate) fn truth_of(table: &Table, key: &str) -> Option<bool>
    ensures { result ≡ truth_of (get_member key.now (table_view table.now)) }
{
    match value_at(table, key) {
        Some(value) => value.as_bool(),
        None => Some(false),
    }
}

// A key that the table of keys gives another kind than the one asked for is at fault, here as in the definition.

/// Gives the text at a key, which is not empty.
///
/// Refused with the key where what stands there is no such text.
pub(crate) fn some_text<'a>(table: &'a Table, key: &'static str) -> Result<&'a str, &'static str>
    ensures some { IfOk result (λ s. 1 ≤ length s.now) }
    ensures exact { ReadsText (λ s. s.now) result (read some_text_for key.entry.now (table_view table.entry.now)) }
{
    match kind_of(key) {
        Some(SettingKind::SomeText(default)) => not_empty(text_or(table, key, default)).ok_or(key),
        _ => Err(key),
    }
}

fn not_empty(text: Option<&str>) -> Option<&str>
    ensures some { IfSome result (λ s. 1 ≤ length s.now) }
    ensures exact { option_map (λ s. s.now) result ≡ option_and_then not_empty (option_map (λ s. s.now) text.entry) }
{
    match text {
        Some(text) if !text.is_empty() => Some(text),
        _ => None,
    }
}

/// Gives the text at a key.
///
/// Refused with the key where what stands there is no text.
pub(crate) fn text<'a>(table: &'a Table, key: &'static str) -> Result<&'a str, &'static str>
    ensures { ReadsText (λ s. s.now) result (read text_for key.entry.now (table_view table.entry.now)) }
{
    match kind_of(key) {
        Some(SettingKind::Text(default)) => text_or(table, key, default).ok_or(key),
        _ => Err(key),
    }
}

/// Gives the text at the key of an address, whether it spells one or not; `None` where it is no text.
pub(crate) fn address_text<'a>(table: &'a Table, key: &'static str) -> Option<&'a str>
    ensures { option_map (λ s. s.now) result ≡ address_for (kind_of key.entry.now) (get_member key.entry.now (table_view table.entry.now)) }
{
    match kind_of(key) {
        Some(SettingKind::Address(default)) => text_or(table, key, default),
        _ => None,
    }
}

/// Gives the hash that is named at a key.
///
/// Refused with the key where what stands there names none.
pub(crate) fn hash(table: &Table, key: &'static str) -> Result<HashName, &'static str>
    ensures { ReadsText (λ hash. hash) result (read hash_for key.entry.now (table_view table.now)) }
{
    match kind_of(key) {
        Some(SettingKind::Hash(default)) => hash_or(table, key, default).ok_or(key),
        _ => Err(key),
    }
}

fn hash_or(table: &Table, key: &str, default: &str) -> Option<HashName>
    ensures { result ≡ option_and_then hash_called (text_or default.now (get_member key.now (table_view table.now))) }
{
    hash_called(text_or(table, key, default)?)
}

fn hash_called(name: &str) -> Option<HashName>
    ensures { result ≡ hash_called name.now }
{
    match name {
        "tiger" => Some(HashName::Tiger),
        "first24" => Some(HashName::First24),
        _ => None,
    }
}

/// Answers whether true stands at a key.
///
/// Refused with the key where what stands there is neither true nor false.
pub(crate) fn truth(table: &Table, key: &'static str) -> Result<bool, &'static str>
    ensures { ReadsText (λ b. b) result (read truth_for key.entry.now (table_view table.now)) }
{
    match kind_of(key) {
        Some(SettingKind::Truth) => truth_of(table, key).ok_or(key),
        _ => Err(key),
    }
}

/// Gives the number at a key.
///
/// Refused with the key where what stands there is no whole number in its range.
pub(crate) fn number(table: &Table, key: &'static str) -> Result<u32, &'static str>
    requires { HasFitDefault (kind_of key.now) }
    ensures within { IfOk result (λ n. IsWithin (kind_of key.entry.now) n) }
    ensures exact { ReadsText (λ n. n) result (read number_for key.entry.now (table_view table.now)) }
{
    match kind_of(key) {
        Some(SettingKind::Number(low, high, default)) => {
            number_or(table, key, low, high, default).ok_or(key)
        }
        _ => Err(key),
    }
}

fn number_or(table: &Table, key: &str, low: u32, high: u32, default: u32) -> Option<u32>
    requires { (low ≤ default) × (default ≤ high) }
    ensures within { IfSome result (λ n. (low ≤ n) × (n ≤ high)) }
    ensures exact { result ≡ number_or low high default (get_member key.now (table_view table.now)) }
{
    match value_at(table, key) {
        Some(value) => within(low, high, value.as_integer()?),
        None => Some(default),
    }
}

pub(crate) fn within(low: u32, high: u32, number: i64) -> Option<u32>
    ensures exact { result ≡ within low high number }
    ensures within { IfSome result (λ n. (low ≤ n) × (n ≤ high)) }
{
    match u32::try_from(number) {
        Ok(number) if low <= number && number <= high => Some(number),
        _ => None,
    }
}
