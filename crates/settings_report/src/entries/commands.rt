//! The faults of user commands.
ghost use Rattle.std.specs.Prelude.{◌≡◌, ◌↔◌, IfSome, IsSome, Some, None, codes};
ghost use Rattle.std.specs.Option.{option_and_then};
ghost use Rattle.toml.specs.Data.{get_member};
ghost use Rattle.toml.specs.View.{array_view, table_view, view};
ghost use Rattle.hub_settings.specs.Lists.{command_keys, context_from, item_in, text_at};
ghost use Rattle.hub_settings.specs.Values.{not_empty, truth_of};
ghost use Rattle.settings_report.specs.Findings.{BlamesUnknown, IsFlawIn, IsFlawOf, IsOfKnownKey, IsWhatStands, text_of, IsFoundAmong};

use super::{Flaw, is_some_text, surplus, truth_flaw, unknown_key};
use crate::allowed;
use crate::findings::{Finding, Found, value_at};
use hub_setup::MOST_COMMANDS;
use toml::{Table, Value};

/// Gives the first fault of the commands at this key.
pub(crate) fn command_finding<'a>(key: &'a str, items: &'a Vec<Value>) -> Option<Finding<'a>>
    ensures key { IfSome result (λ finding. finding.key.now ≡ key.entry.now) }
    ensures stands { IfSome result (IsFoundAmong (array_view items.entry.now)) }
    ensures inside { IfSome result (λ finding. IsSome finding.entry) }
{
    for (entry, item) in items.iter().enumerate() {
        if let Some(flaw) = command_flaw(item) {
            return Some(flaw.in_entry(key, entry));
        }
    }
    surplus(key, items, MOST_COMMANDS, allowed::COMMANDS)
}

fn command_flaw(item: &Value) -> Option<Flaw<'_>>
    ensures { IfSome result (IsFlawOf (view item.entry.now)) }
{
    let Some(table) = item.as_table() else {
        return Some(Flaw {
            inner: None,
            found: Found::Value(item),
            allowed: allowed::COMMAND_LIST,
        });
    };
    flaw_in_command(table)
}

fn flaw_in_command(table: &Table) -> Option<Flaw<'_>>
    ensures stands { IfSome result (IsFlawIn (table_view table.entry.now)) }
    ensures unknown { IfSome result (BlamesUnknown command_keys (table_view table.entry.now)) }
{
    if let Some(key) = unknown_key(table, &["name", "context", "text", "separator"]) {
        return Some(Flaw::at(key, Found::Unknown, allowed::COMMAND_KEYS));
    }
    if let Some(found) = name_flaw(table) {
        return Some(Flaw::at("name", found, allowed::SOME_TEXT));
    }
    if let Some(found) = context_flaw(table) {
        return Some(Flaw::at("context", found, allowed::CONTEXT));
    }
    if let Some(flaw) = truth_flaw(table, "separator") {
        return Some(flaw);
    }
    content_flaw(table)
}

fn name_flaw(table: &Table) -> Option<Found<'_>>
    ensures none { (result ≡ None) ↔ IsSome (option_and_then not_empty (text_at (codes "name") (table_view table.entry.now))) }
    ensures stands { IfSome result (IsWhatStands (get_member (codes "name") (table_view table.entry.now))) }
    ensures known { IfSome result IsOfKnownKey }
{
    match value_at(table, "name") {
        None => Some(Found::Nothing),
        Some(value) if is_some_text(value) => None,
        Some(value) => Some(Found::Value(value)),
    }
}

fn context_flaw(table: &Table) -> Option<Found<'_>>
    ensures none { (result ≡ None) ↔ IsSome (context_from (get_member (codes "context") (table_view table.entry.now))) }
    ensures stands { IfSome result (IsWhatStands (get_member (codes "context") (table_view table.entry.now))) }
    ensures known { IfSome result IsOfKnownKey }
{
    let Some(value) = value_at(table, "context") else {
        return Some(Found::Nothing);
    };
    match value.as_integer() {
        Some(number) if 1 <= number && number <= 15 => None,
        _ => Some(Found::Value(value)),
    }
}

/// A command has a text or is a separator, and not both.
fn content_flaw(table: &Table) -> Option<Flaw<'_>>
    ensures none { IsSome (truth_of (get_member (codes "separator") (table_view table.entry.now)))
        → ((result ≡ None) ↔ IsSome (item_in (table_view table.entry.now))) }
    ensures key { IfSome result (λ flaw. text_of flaw.inner ≡ Some (codes "text")) }
    ensures stands { IfSome result (λ flaw. IsWhatStands (get_member (codes "text") (table_view table.entry.now)) flaw.found) }
    ensures known { IfSome result (λ flaw. IsOfKnownKey flaw.found) }
{
    let is_separator = match value_at(table, "separator") {
        Some(value) => value.as_bool().unwrap_or(false),
        None => false,
    };
    match value_at(table, "text") {
        Some(value) if is_separator => Some(Flaw::at(
            "text",
            Found::Value(value),
            allowed::NO_TEXT,
        )),
        Some(value) if !value.is_str() => {
            Some(Flaw::at("text", Found::Value(value), allowed::TEXT))
        }
        None if !is_separator => Some(Flaw::at("text", Found::Nothing, allowed::CONTENT)),
        _ => None,
    }
}
