ghost use Rattle.std.specs.Prelude.{◌≡◌, codes, map, IfOk};
ghost use Rattle.std.specs.Option.{option_and_then, option_map};
ghost use Rattle.toml.specs.Data.{as_table, get_member};
ghost use Rattle.toml.specs.View.{array_view, table_view, view};
ghost use Rattle.hub_setup.specs.Settings.{entry_of, text_of};
ghost use Rattle.hub_settings.specs.Lists.{all_commands, command_in, context_from, item_in, menu_at, written_commands};

use crate::unknown::first_unknown;
use crate::values::{text_at, truth_of, value_at, within};
use hub_setup::{ListRefused, Menu, MenuEntry, MenuItem};
use std::alloc::{AllocError, Global};
use toml::{Table, Value};

/// Reads the menu of a settings file; `None` where what stands at its key is no list of commands, or no hub can have these.
///
/// Refused only where memory runs out.
pub(crate) fn menu(alloc: Global, table: &Table) -> Result<Option<Menu>, AllocError>
    ensures { IfOk result (λ menu. menu ≡ menu_at (get_member (codes "command") (table_view table.now))) }
{
    let Some(written) = written_commands(alloc, table)? else {
        return Ok(None);
    };
    match Menu::new(alloc, &written) {
        Ok(menu) => Ok(Some(menu)),
        Err(ListRefused::Memory) => Err(AllocError),
        Err(ListRefused::Limit) => Ok(None),
        Err(ListRefused::Entry) => Ok(None),
    }
}

fn written_commands<'a>(
    alloc: Global,
    table: &'a Table,
) -> Result<Option<Vec<MenuEntry<'a>>>, AllocError>
    ensures { IfOk result (λ commands. option_map (λ all. map entry_of all.items) commands
        ≡ written_commands (get_member (codes "command") (table_view table.entry.now))) }
{
    let Some(value) = value_at(table, "command") else {
        return Ok(Some(Vec::new(alloc)));
    };
    let Some(items) = value.as_array() else {
        return Ok(None);
    };
    all_commands(alloc, items)
}

fn all_commands<'a>(
    alloc: Global,
    items: &'a Vec<Value>,
) -> Result<Option<Vec<MenuEntry<'a>>>, AllocError>
    ensures { IfOk result (λ commands. option_map (λ all. map entry_of all.items) commands ≡ all_commands (array_view items.entry.now)) }
{
    let mut commands = Vec::with_capacity(alloc, items.len())?;
    'items: for item in items.iter() {
        let Some(command) = command_of(item) else {
            return Ok(None);
        };
        commands.push(command).map_err(|_| AllocError)?;
    }
    Ok(Some(commands))
}

fn command_of(value: &Value) -> Option<MenuEntry<'_>>
    ensures { option_map entry_of result ≡ option_and_then command_in (as_table (view value.entry.now)) }
{
    match value.as_table() {
        Some(table) => command_in(table),
        None => None,
    }
}

fn command_in(table: &Table) -> Option<MenuEntry<'_>>
    ensures { option_map entry_of result ≡ command_in (table_view table.entry.now) }
{
    if first_unknown(table, &["name", "context", "text", "separator"]).is_some() {
        return None;
    }
    Some(MenuEntry {
        name: text_at(table, "name")?,
        context: context_of(table)?,
        item: item_of(table)?,
    })
}

fn context_of(table: &Table) -> Option<u8>
    ensures { result ≡ context_from (get_member (codes "context") (table_view table.now)) }
{
    match value_at(table, "context") {
        Some(value) => Some(within(1, 15, value.as_integer()?)? as u8),
        None => None,
    }
}

fn item_of(table: &Table) -> Option<MenuItem<'_>>
    ensures { option_map text_of result ≡ item_in (table_view table.entry.now) }
{
    let separator = truth_of(table, "separator")?;
    match value_at(table, "text") {
        Some(_) if separator => None,
        Some(value) => Some(MenuItem::Text(value.as_str()?)),
        None if separator => Some(MenuItem::Separator),
        None => None,
    }
}
