use crate::hub::Hub;
use crate::refusal::*;
use hub_core::{MenuEntry, MenuItem};

/// Opens the hub that the first lines of a conversation describe, or tells why it is refused.
pub(crate) fn open(rt: &impl Abort, alloc: Global, text: &str) -> Result<Hub, SetupRefused> {
    let lines = setting_lines(rt, alloc, text);
    let (mut accounts, mut commands) = (Vec::new(alloc), Vec::new(alloc));
    for line in &lines {
        match line.as_str().split_once(' ') {
            Some(("account", told)) => keep(rt, &mut accounts, account(told).expect(rt, told)),
            Some(("menu", told)) => keep(rt, &mut commands, menu_entry(told).expect(rt, told)),
            _ => {}
        }
    }
    let options = Options {
        accounts: &accounts,
        commands: &commands,
        ..options_of(rt, &lines)
    };
    Hub::open(rt, alloc, &options)
}

/// Reads all options but the lists of accounts and of menu entries.
fn options_of<'a>(rt: &impl Abort, lines: &'a [String]) -> Options<'a> {
    let mut options = Options::named("Hub");
    for line in lines {
        let (name, rest) = line.as_str().split_once(' ').unwrap_or((line.as_str(), ""));
        if name != "account" && name != "menu" {
            options = set(rt, options, name, rest);
        }
    }
    options
}

/// Gives what stands behind `with` in the lines before the first step.
fn setting_lines(rt: &impl Abort, alloc: Global, text: &str) -> Vec<String> {
    let mut lines = Vec::new(alloc);
    for (number, line) in text.lines().enumerate() {
        let line = line.trim();
        if number == 0 || line.is_empty() {
            continue;
        }
        match line.strip_prefix("with ") {
            Some(told) => keep(rt, &mut lines, spell_text(rt, alloc, told)),
            None => break,
        }
    }
    lines
}

/// Sets what one line sets, the lists of accounts and of menu entries apart.
fn set<'a>(rt: &impl Abort, mut options: Options<'a>, name: &str, rest: &'a str) -> Options<'a> {
    match name {
        "name" => options.name = rest,
        "topic" => options.topic = rest,
        "interval" => options.plain.search_interval = number(rt, rest),
        "max_users" => options.plain.max_users = number(rt, rest),
        "opening" => options.plain.opening = u64::from(number(rt, rest)),
        "registered_only" if rest.is_empty() => options.plain.registered_only = true,
        _ => unknown(rt, "setting", name),
    }
    options
}

fn number(rt: &impl Abort, told: &str) -> u32 {
    told.parse::<u32>().expect(rt, told)
}

/// Reads `NICK PASSWORD`, and `operator` behind them for one.
fn account<'a>(told: &'a str) -> Option<Account<'a>> {
    let (nick, rest) = told.split_once(' ')?;
    let (password, operator) = match rest.strip_suffix(" operator") {
        Some(password) => (password, true),
        None => (rest, false),
    };
    Some(Account {
        nick,
        password,
        operator,
    })
}

/// Reads `NAME CONTEXT separator`, or `NAME CONTEXT text TEXT`.
fn menu_entry<'a>(told: &'a str) -> Option<MenuEntry<'a>> {
    let (name, rest) = told.split_once(' ')?;
    let (context, told) = rest.split_once(' ')?;
    let item = match told.strip_prefix("text ") {
        Some(text) => MenuItem::Text(text),
        None if told == "separator" => MenuItem::Separator,
        None => return None,
    };
    Some(MenuEntry {
        name,
        context: context.parse().ok()?,
        item,
    })
}
