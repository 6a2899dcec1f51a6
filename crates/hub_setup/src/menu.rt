ghost use Rattle.std.specs.Prelude.{◌≡◌, ◌++◌, map, IfErr, IfOk, IsOk, OnOk};
ghost use Rattle.std.specs.List.{list_all};
ghost use Rattle.std.specs.Option.{option_map};
ghost use Rattle.std.specs.String.{string_bytes};
ghost use Rattle.hub_rules.specs.Texts.{menu_item, menu_line};
ghost use Rattle.hub_setup.specs.Settings.{GivesList, entry_of, is_command, menu_of, text_of};

use crate::options::{MOST_COMMANDS, MenuEntry, MenuItem};
use crate::refused::ListRefused;
use crate::texts::with_line_feed;
use adc_line::escape;
use bytes::Bytes;
use outboxes::Batch;
use std::alloc::{AllocError, Global};
use std::marker::Model;

/// An entry of the clients' menus, with the message that tells a client of it.
#[derive(Drop)]
pub struct MenuLine {
    name: String,
    context: u8,
    text: Option<String>,
    line: Bytes,
}

impl Model for MenuLine {
    ghost use Rattle.hub_rules.specs.Configured.{ConfiguredEntry};

    ghost Value = { ConfiguredEntry };

    ghost use Rattle.hub_setup.specs.MenuLines.{entry_said, TellsOfEntry};

    ghost view = { entry_said };

    ghost invariant = { TellsOfEntry };
}

impl MenuLine {
    /// Writes the message of an entry.
    fn new(alloc: Global, entry: &MenuEntry<'_>) -> Result<MenuLine, AllocError>
        ensures { IfOk result (λ line. line ≡ entry_of entry.now) }
    {
        Ok(MenuLine {
            name: String::from_str(alloc, entry.name)?,
            context: entry.context,
            text: text_of(alloc, &entry.item)?,
            line: menu_line(alloc, entry)?,
        })
    }

    /// Gives the message; its bytes are shared and not copied.
    fn line(&self) -> Result<Bytes, AllocError>
        ensures { IfOk result (λ line. line ≡ menu_line self.now) }
    {
        self.line.clone()
    }
}

/// The entries for the clients' menus: at most 64.
#[derive(Drop)]
pub struct Menu {
    lines: Vec<MenuLine>,
}

impl Model for Menu {
    ghost use Rattle.std.specs.Prelude.{List};
    ghost use Rattle.hub_rules.specs.Configured.{ConfiguredEntry};

    ghost Value = { List ConfiguredEntry };

    ghost view = { λ m. m.lines.items };
}

impl Menu {
    /// Makes the menu of these entries, whose messages are written here, once.
    ///
    /// Refused, by the first that applies: `Limit` over 64 entries; `Entry` where one has no name or a context that is not
    /// 1 to 15 (ADC-EXT, "UCMD"). `Memory` where memory runs out for a menu without a fault.
    #[tactic(auto, unfolding(crate::specs::Settings::menu_of))]
    pub fn new(alloc: Global, entries: &[MenuEntry<'_>]) -> Result<Menu, ListRefused>
        ensures exact { GivesList (λ menu. menu) result (menu_of (map entry_of entries.now)) }
        ensures memory { IfErr result (λ fault. fault ≡ ListRefused.Memory → IsOk (menu_of (map entry_of entries.now))) }
    {
        if entries.len() > MOST_COMMANDS {
            return Err(ListRefused::Limit);
        }
        if !are_commands(entries) {
            return Err(ListRefused::Entry);
        }
        let lines = menu_lines(alloc, entries)?;
        Ok(Menu { lines })
    }

    /// Adds the messages behind those of a batch, in order.
    pub(crate) fn add_to(&self, batch: Batch) -> Result<Batch, AllocError>
        ensures { IfOk result (λ all. all ≡ batch ++ map menu_line self.now) }
    {
        add_lines(&self.lines, batch)
    }
}

/// Writes the messages of all entries, in order.
fn menu_lines(alloc: Global, entries: &[MenuEntry<'_>]) -> Result<Vec<MenuLine>, AllocError>
    ensures { IfOk result (λ lines. lines.items ≡ map entry_of entries.now) }
{
    let mut lines = Vec::with_capacity(alloc, entries.len())?;
    for entry in entries {
        lines
            .push(MenuLine::new(alloc, entry)?)
            .map_err(|_| AllocError)?;
    }
    Ok(lines)
}

fn add_lines(menu: &[MenuLine], batch: Batch) -> Result<Batch, AllocError>
    ensures { IfOk result (λ all. all ≡ batch ++ map menu_line menu.now) }
{
    let mut batch = batch;
    for entry in menu {
        batch.push(entry.line()?).map_err(|_| AllocError)?;
    }
    Ok(batch)
}

/// Answers whether each entry has a name, and a context of 1 to 15.
fn are_commands(entries: &[MenuEntry<'_>]) -> bool
    ensures { result ≡ list_all is_command (map entry_of entries.now) }
{
    'entries: for entry in entries {
        if !is_command(entry) {
            return false;
        }
    }
    true
}

fn is_command(entry: &MenuEntry<'_>) -> bool
    ensures { result ≡ is_command (entry_of entry.now) }
{
    !entry.name.is_empty() && entry.context != 0 && entry.context <= 15
}

fn text_of(alloc: Global, item: &MenuItem<'_>) -> Result<Option<String>, AllocError>
    ensures { IfOk result (λ text. option_map string_bytes text ≡ text_of item.now) }
{
    match item {
        MenuItem::Text(text) => Ok(Some(String::from_str(alloc, text)?)),
        MenuItem::Separator => Ok(None),
    }
}

/// Writes the message that tells a client of an entry (ADC-EXT, "UCMD").
#[tactic(auto, unfolding(hub_rules::specs::Texts::menu_line))]
fn menu_line(alloc: Global, entry: &MenuEntry<'_>) -> Result<Bytes, AllocError>
    ensures { IfOk result (λ line. line ≡ menu_line (entry_of entry.now)) }
{
    let name = escape(alloc, entry.name)?;
    let context = entry.context;
    let mut line = Vec::with_capacity(alloc, name.len().saturating_add(32))?;
    line.extend_from_slice(b"ICMD ")?;
    line.extend_from_slice(name.as_bytes())?;
    line.extend_from_slice(b" CT")?;
    line.extend_from_slice(format!(in alloc; "{context}")?.as_bytes())?;
    push_item(alloc, &mut line, &entry.item)?;
    with_line_feed(line)
}

/// Adds what the entry stands for.
fn push_item(alloc: Global, line: &mut Vec<u8>, item: &MenuItem<'_>) -> Result<(), AllocError>
    ensures { OnOk result (line.new.items ≡ line.old.items ++ menu_item (text_of item.now)) }
{
    match item {
        MenuItem::Text(text) => {
            line.extend_from_slice(b" TT")?;
            line.extend_from_slice(escape(alloc, text)?.as_bytes())
        }
        MenuItem::Separator => line.extend_from_slice(b" SP1"),
    }
}
