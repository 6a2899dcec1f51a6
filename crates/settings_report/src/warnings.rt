ghost use Rattle.std.specs.Prelude.{◌≡◌, ◌++◌, List, IfOk, OnOk, Some};
ghost use Rattle.std.specs.Option.{option_map};
ghost use Rattle.toml.specs.View.{items_view, table_view, view};
ghost use Rattle.settings_report.specs.Places.{after};
ghost use Rattle.settings_report.specs.Printed.{warning_text};
ghost use Rattle.settings_report.specs.Warned.{WarnsOf, WarnsOfEntry, WarnsOfItems, WarnsOfMenu, menu_in, text_in};
ghost use Rattle.settings_report.specs.declared.warnings.SettingsWarning.{SettingsWarning};

use crate::allowed::TEXT;
use crate::findings::{Finding, Found, value_at};
use crate::menu_texts::{TextFlaw, has_flaw};
use crate::places::{TextPlace, place_of};
use std::alloc::{AllocError, Global};
use std::fmt;
use toml::{Table, Value};

/// A warning of an entry of the menu, which a hub takes as it is.
#[derive(Clone, Copy, Debug, PartialEq, Eq)]
pub struct SettingsWarning {
    /// The entry, counted from 1.
    pub entry: usize,
    /// The place where the statement begins that has its text.
    pub place: TextPlace,
    /// The flaw of its text.
    pub flaw: TextFlaw,
}

impl fmt::Display for SettingsWarning {
    ghost output = { λ warning. Some (warning_text warning) };

    fn fmt<W: fmt::Write>(&self, f: &mut fmt::Formatter<W>) -> fmt::Result {
        let (line, column, entry) = (self.place.line, self.place.column, self.entry);
        let words = self.flaw.words();
        write!(f, "{line}:{column}: command {entry}, text: {words}")
    }
}

/// Lists the warnings of the menu of settings in which nothing is at fault, in the order of the entries.
pub(crate) fn warnings_of(
    alloc: Global,
    text: &str,
    table: &Table,
) -> Result<Vec<SettingsWarning>, AllocError>
    ensures { IfOk result (λ warnings. WarnsOfMenu (menu_in (table_view table.now)) warnings.items) }
{
    let Some(list) = value_at(table, "command") else {
        return Ok(Vec::new(alloc));
    };
    match list.as_array() {
        Some(items) => warnings_of_items(alloc, text, items),
        None => Ok(Vec::new(alloc)),
    }
}

fn warnings_of_items(
    alloc: Global,
    text: &str,
    items: &[Value],
) -> Result<Vec<SettingsWarning>, AllocError>
    ensures { IfOk result (λ warnings. WarnsOfItems 0 (items_view items.now) warnings.items) }
{
    let mut found = Vec::new(alloc);
    for (before, item) in items.iter().enumerate() {
        push_warnings(alloc, text, before, item.get("text"), &mut found)?;
    }
    Ok(found)
}

/// Adds the warnings of the entry behind so many others, whose text this is.
fn push_warnings(
    alloc: Global,
    text: &str,
    before: usize,
    value: Option<&Value>,
    found: &mut Vec<SettingsWarning>,
) -> Result<(), AllocError>
    ensures { OnOk result ((own : List SettingsWarning) × (found.new.items ≡ found.old.items ++ own)
        × WarnsOfEntry (after before) (option_map (λ value. view value.now) value.entry) own) }
{
    let Some(value) = value else {
        return Ok(());
    };
    push_warning(alloc, text, before, value, TextFlaw::Unended, found)?;
    push_warning(alloc, text, before, value, TextFlaw::CarriageReturn, found)?;
    push_warning(alloc, text, before, value, TextFlaw::NoMessage, found)
}

/// Adds the warning of this flaw, where the text of the entry has it.
fn push_warning(
    alloc: Global,
    text: &str,
    before: usize,
    value: &Value,
    flaw: TextFlaw,
    found: &mut Vec<SettingsWarning>,
) -> Result<(), AllocError>
    ensures { OnOk result ((own : List SettingsWarning) × (found.new.items ≡ found.old.items ++ own)
        × WarnsOf (after before) (text_in (view value.now)) flaw own) }
{
    if has_flaw(alloc, value.as_str().unwrap_or("\n"), flaw)? {
        found.push(warning_of(alloc, text, before, value, flaw)?)?;
    }
    Ok(())
}

fn warning_of(
    alloc: Global,
    text: &str,
    before: usize,
    value: &Value,
    flaw: TextFlaw,
) -> Result<SettingsWarning, AllocError>
    ensures entry { IfOk result (λ warning. warning.entry ≡ after before) }
    ensures flaw { IfOk result (λ warning. warning.flaw ≡ flaw) }
{
    let finding = Finding {
        key: "command",
        entry: Some(before),
        inner: Some("text"),
        found: Found::Value(value),
        allowed: TEXT,
    };
    Ok(SettingsWarning {
        entry: before.saturating_add(1),
        place: place_of(alloc, text, &finding)?,
        flaw,
    })
}
