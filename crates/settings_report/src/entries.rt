ghost use Rattle.std.specs.Prelude.{◌≡◌, ◌↔◌, IfOk, IfSome, IsSome, Some, None, codes, is_some, length, map, ◌≤◌};
ghost use Rattle.std.specs.Option.{option_and_then, option_map};
ghost use Rattle.toml.specs.Data.{as_str, get, get_member};
ghost use Rattle.toml.specs.View.{array_view, items_view, table_view, view};
ghost use Rattle.hub_settings.specs.Kinds.{Accounts, kind_seen};
ghost use Rattle.hub_settings.specs.Lists.{account_keys, text_at};
ghost use Rattle.hub_settings.specs.Settings.{kind_of};
ghost use Rattle.hub_settings.specs.Unknown.{first_unknown, is_among};
ghost use Rattle.hub_settings.specs.Values.{not_empty, truth_of};
ghost use Rattle.settings_report.specs.Allowances.{IsAllowedAt};
ghost use Rattle.settings_report.specs.FaultWords.{IsConcealed};
ghost use Rattle.settings_report.specs.Findings.{BlamesUnknown, ConcealsAccount, FindingHidesPasswords, IsFlawIn, IsFlawOf, IsOfKnownKey, IsWhatStands, text_of, IsFoundAmong, IsFoundIn, IsFoundInList};

mod commands;

use self::commands::command_finding;
use crate::allowed::{self, Allowed, allowed_at};
use crate::findings::{Finding, Found, value_at};
use adc_ids::{Nick, NickFault};
use hub_settings::{SettingKind, kind_of};
use hub_setup::MOST_ACCOUNTS;
use std::alloc::{AllocError, Global};
use toml::{Table, Value};

/// The fault of an entry, and the key of it where it is, if at one.
#[derive(Drop)]
struct Flaw<'a> {
    inner: Option<&'a str>,
    found: Found<'a>,
    allowed: Allowed,
}

impl<'a> Flaw<'a> {
    fn at(inner: &'a str, found: Found<'a>, allowed: Allowed) -> Flaw<'a>
        ensures { result ≡ record { inner = Some inner.entry; found = found.entry; allowed = allowed } }
    {
        Flaw {
            inner: Some(inner),
            found,
            allowed,
        }
    }

    fn in_entry(self, key: &'a str, entry: usize) -> Finding<'a>
        ensures key { result.key ≡ key.entry }
        ensures entry { result.entry ≡ Some entry }
        ensures inner { result.inner ≡ self.entry.inner }
        ensures found { result.found ≡ self.entry.found }
        ensures allowed { result.allowed ≡ self.entry.allowed }
    {
        Finding {
            key,
            entry: Some(entry),
            inner: self.inner,
            found: self.found,
            allowed: self.allowed,
        }
    }
}

/// The fault at this key, which the settings have or do not know.
pub(crate) fn finding_at<'a>(
    alloc: Global,
    table: &'a Table,
    key: &'a str,
) -> Result<Finding<'a>, AllocError>
    ensures key { IfOk result (λ finding. finding.key.now ≡ key.entry.now) }
    ensures stands { IfOk result (IsFoundIn (table_view table.entry.now)) }
    ensures hides { IfOk result FindingHidesPasswords }
    ensures unknown { IfOk result (λ finding. kind_of key.entry.now ≡ None → IsConcealed finding.found) }
    ensures allowed { IfOk result (λ finding. finding.entry ≡ None → IsAllowedAt (kind_of key.entry.now) finding.allowed) }
{
    let (value, kind) = (value_at(table, key), kind_of(key));
    if let Some(finding) = finding_in_list(alloc, key, value, kind)? {
        return Ok(finding);
    }
    Ok(Finding {
        key,
        entry: None,
        inner: None,
        found: found_of_kind(value, kind),
        allowed: allowed_at(kind),
    })
}

/// What stands at a key of this kind. A list of accounts is not shown, nor what stands at a key that is none.
fn found_of_kind<'a>(value: Option<&'a Value>, kind: Option<SettingKind>) -> Found<'a>
    ensures stands { IsWhatStands (option_map (λ value. view value.now) value.entry) result }
    ensures accounts { option_map kind_seen kind ≡ Some Accounts → IsConcealed result }
    ensures unknown { option_map kind_seen kind ≡ None → IsConcealed result }
{
    match (value, kind) {
        (Some(_), None) => Found::Unknown,
        (Some(value), Some(SettingKind::Accounts)) => Found::Secret(value),
        (Some(value), Some(_)) => Found::Value(value),
        (None, _) => Found::Nothing,
    }
}

/// The first fault in the list that stands at a key of this kind.
fn finding_in_list<'a>(
    alloc: Global,
    key: &'a str,
    value: Option<&'a Value>,
    kind: Option<SettingKind>,
) -> Result<Option<Finding<'a>>, AllocError>
    ensures key { IfOk result (λ found. IfSome found (λ finding. finding.key.now ≡ key.entry.now)) }
    ensures stands { IfOk result (λ found. IfSome found (IsFoundInList (option_map (λ value. view value.now) value.entry))) }
    ensures accounts { option_map kind_seen kind ≡ Some Accounts
        → IfOk result (λ found. IfSome found (λ finding. ConcealsAccount (text_of finding.inner) finding.found)) }
    ensures unknown { option_map kind_seen kind ≡ None → IfOk result (λ found. found ≡ None) }
    ensures inside { IfOk result (λ found. IfSome found (λ finding. IsSome finding.entry)) }
{
    let Some(value) = value else {
        return Ok(None);
    };
    let Some(items) = value.as_array() else {
        return Ok(None);
    };
    match kind {
        Some(SettingKind::Accounts) => account_finding(alloc, key, items),
        Some(SettingKind::Commands) => Ok(command_finding(key, items)),
        _ => Ok(None),
    }
}

fn account_finding<'a>(
    alloc: Global,
    key: &'a str,
    items: &'a Vec<Value>,
) -> Result<Option<Finding<'a>>, AllocError>
    ensures key { IfOk result (λ found. IfSome found (λ finding. finding.key.now ≡ key.entry.now)) }
    ensures stands { IfOk result (λ found. IfSome found (IsFoundAmong (array_view items.entry.now))) }
    ensures hides { IfOk result (λ found. IfSome found (λ finding. ConcealsAccount (text_of finding.inner) finding.found)) }
    ensures inside { IfOk result (λ found. IfSome found (λ finding. IsSome finding.entry)) }
{
    for (entry, item) in items.iter().enumerate() {
        if let Some(flaw) = account_flaw(alloc, item)? {
            return Ok(Some(flaw.in_entry(key, entry)));
        }
    }
    if let Some(finding) = surplus(key, items, MOST_ACCOUNTS, allowed::ACCOUNTS) {
        return Ok(Some(finding));
    }
    repeated_nick(alloc, key, items)
}

/// The first entry of a list that is one too many.
#[tactic(auto, using(crate::proofs::Among::has_item, crate::proofs::Among::surplus_stands))]
fn surplus<'a>(key: &'a str, items: &[Value], most: usize, allowed: Allowed) -> Option<Finding<'a>>
    ensures none { (result ≡ None) ↔ (length items.now ≤ most) }
    ensures key { IfSome result (λ finding. finding.key.now ≡ key.entry.now) }
    ensures stands { IfSome result (IsFoundAmong (items_view items.now)) }
    ensures hidden { IfSome result (λ finding. IsConcealed finding.found) }
    ensures inside { IfSome result (λ finding. finding.entry ≡ Some most) }
{
    if items.len() <= most {
        return None;
    }
    Some(Finding {
        key,
        entry: Some(most),
        inner: None,
        found: Found::Surplus,
        allowed,
    })
}

/// The first account whose nick an earlier one has.
fn repeated_nick<'a>(
    alloc: Global,
    account: &'a str,
    items: &'a Vec<Value>,
) -> Result<Option<Finding<'a>>, AllocError>
    ensures key { IfOk result (λ found. IfSome found (λ finding. finding.key.now ≡ account.entry.now)) }
    ensures stands { IfOk result (λ found. IfSome found (IsFoundAmong (array_view items.entry.now))) }
    ensures nick { IfOk result (λ found. IfSome found (λ finding. text_of finding.inner ≡ Some (codes "nick"))) }
    ensures inside { IfOk result (λ found. IfSome found (λ finding. IsSome finding.entry)) }
{
    let mut keys = Vec::new(alloc);
    for (entry, item) in items.iter().enumerate() {
        let Some(nick) = nick_of(item) else {
            return Ok(None);
        };
        let Some(key) = nick_key(alloc, nick)? else {
            return Ok(None);
        };
        if keys.contains(&key) {
            let flaw = Flaw::at("nick", Found::Twice(nick), allowed::OTHER_NICK);
            return Ok(Some(flaw.in_entry(account, entry)));
        }
        keys.push(key)?;
    }
    Ok(None)
}

fn nick_of(account: &Value) -> Option<&Value>
    ensures { option_map (λ nick. view nick.now) result ≡ get (codes "nick") (view account.entry.now) }
{
    account.get("nick")
}

/// Gives what nicks that are the same share.
fn nick_key(alloc: Global, value: &Value) -> Result<Option<String>, AllocError> {
    let Some(text) = value.as_str() else {
        return Ok(None);
    };
    match Nick::parse(alloc, text) {
        Ok(nick) => Ok(Some(nick.key(alloc)?)),
        Err(NickFault::Memory) => Err(AllocError),
        Err(NickFault::Invalid) => Ok(None),
    }
}

fn account_flaw(alloc: Global, item: &Value) -> Result<Option<Flaw<'_>>, AllocError>
    ensures stands { IfOk result (λ found. IfSome found (IsFlawOf (view item.entry.now))) }
    ensures hides { IfOk result (λ found. IfSome found (λ flaw. ConcealsAccount (text_of flaw.inner) flaw.found)) }
{
    let Some(table) = item.as_table() else {
        return Ok(Some(Flaw {
            inner: None,
            found: Found::Secret(item),
            allowed: allowed::ACCOUNT_LIST,
        }));
    };
    flaw_in_account(alloc, table)
}

fn flaw_in_account(alloc: Global, table: &Table) -> Result<Option<Flaw<'_>>, AllocError>
    ensures stands { IfOk result (λ found. IfSome found (IsFlawIn (table_view table.entry.now))) }
    ensures hides { IfOk result (λ found. IfSome found (λ flaw. ConcealsAccount (text_of flaw.inner) flaw.found)) }
    ensures unknown { IfOk result (λ found. IfSome found (BlamesUnknown account_keys (table_view table.entry.now))) }
{
    if let Some(key) = unknown_key(table, &["nick", "password", "operator"]) {
        return Ok(Some(Flaw::at(key, Found::Unknown, allowed::ACCOUNT_KEYS)));
    }
    let Some(nick) = value_at(table, "nick") else {
        return Ok(Some(Flaw::at("nick", Found::Nothing, allowed::NICK)));
    };
    if nick_key(alloc, nick)?.is_none() {
        return Ok(Some(Flaw::at("nick", Found::Value(nick), allowed::NICK)));
    }
    if let Some(found) = password_flaw(table) {
        return Ok(Some(Flaw::at("password", found, allowed::SOME_TEXT)));
    }
    Ok(truth_flaw(table, "operator"))
}

fn password_flaw(table: &Table) -> Option<Found<'_>>
    ensures none { (result ≡ None) ↔ IsSome (option_and_then not_empty (text_at (codes "password") (table_view table.entry.now))) }
    ensures stands { IfSome result (IsWhatStands (get_member (codes "password") (table_view table.entry.now))) }
    ensures hidden { IfSome result IsConcealed }
    ensures known { IfSome result IsOfKnownKey }
{
    match value_at(table, "password") {
        None => Some(Found::Nothing),
        Some(value) if is_some_text(value) => None,
        Some(value) => Some(Found::Secret(value)),
    }
}

fn is_some_text(value: &Value) -> bool
    ensures { result ≡ is_some (option_and_then not_empty (as_str (view value.now))) }
{
    match value.as_str() {
        Some(text) => !text.is_empty(),
        None => false,
    }
}

fn truth_flaw<'a>(table: &'a Table, key: &'a str) -> Option<Flaw<'a>>
    ensures none { (result ≡ None) ↔ IsSome (truth_of (get_member key.entry.now (table_view table.entry.now))) }
    ensures key { IfSome result (λ flaw. text_of flaw.inner ≡ Some key.entry.now) }
    ensures stands { IfSome result (λ flaw. IsWhatStands (get_member key.entry.now (table_view table.entry.now)) flaw.found) }
    ensures known { IfSome result (λ flaw. IsOfKnownKey flaw.found) }
{
    match value_at(table, key) {
        Some(value) if !value.is_bool() => {
            Some(Flaw::at(key, Found::Value(value), allowed::TRUTH))
        }
        _ => None,
    }
}

/// The first key of a table, by bytes, that is none of these.
fn unknown_key<'a>(table: &'a Table, known: &[&str]) -> Option<&'a str>
    ensures { text_of result ≡ first_unknown (map (λ key. key.now) known.now) (table_view table.entry.now) }
{
    for (key, _value) in table.iter() {
        if !is_among(known, key.as_str()) {
            return Some(key.as_str());
        }
    }
    None
}

fn is_among(known: &[&str], key: &str) -> bool
    ensures { result ≡ is_among (map (λ word. word.now) known.now) key.now }
{
    for word in known {
        if key == *word {
            return true;
        }
    }
    false
}
