pub(crate) mod given;
pub(crate) mod prepared;
pub(crate) mod texts;

use crate::rows::*;
use bytes::Bytes;
use hub_setup::{
    Account, Accounts, ListRefused, Menu, MenuEntry, MenuItem, Options, PlainOptions, Setup,
    SetupRefused,
};

/// Gives the options of a hub of this name, with no accounts and no menu, for one connection.
fn options<'a>(name: &'a str) -> Options<'a> {
    Options {
        plain: PlainOptions::for_users(1),
        ..Options::named(name)
    }
}

fn account<'a>(nick: &'a str, password: &'a str, operator: bool) -> Account<'a> {
    Account {
        nick,
        password,
        operator,
    }
}

fn entry<'a>(name: &'a str, context: u8, item: MenuItem<'a>) -> MenuEntry<'a> {
    MenuEntry {
        name,
        context,
        item,
    }
}

/// Gives the options of a hub with these lists.
fn with_lists<'a>(accounts: &'a [Account<'a>], commands: &'a [MenuEntry<'a>]) -> Options<'a> {
    Options {
        accounts,
        commands,
        ..options("Hub")
    }
}

fn set_up(rt: &impl Machine, options: &Options<'_>) -> Result<Setup, SetupRefused> {
    twice!(rt; "hub_setup::Setup::new", SetupRefused::Memory, Setup::new(rt.alloc(), options))
}

/// Makes a setup of options that have no fault.
fn setup(rt: &impl Machine, options: &Options<'_>) -> Setup {
    set_up(rt, options).expect(rt, "options")
}

/// Makes a setup of lists that have no fault.
fn of_lists(rt: &impl Machine, accounts: &[Account<'_>], commands: &[MenuEntry<'_>]) -> Setup {
    let options = Options::named("Hub");
    got!(rt; "hub_setup::Setup::with_lists", AllocError,
        Setup::with_lists(rt.alloc(), &options, accounts_of(rt, accounts), menu_of(rt, commands)))
}

fn accounts_of(rt: &impl Machine, accounts: &[Account<'_>]) -> Accounts {
    got!(rt; "hub_setup::Accounts::new", ListRefused::Memory, Accounts::new(rt.alloc(), accounts))
}

fn menu_of(rt: &impl Machine, commands: &[MenuEntry<'_>]) -> Menu {
    got!(rt; "hub_setup::Menu::new", ListRefused::Memory, Menu::new(rt.alloc(), commands))
}

/// Says a line without its line feed.
fn say_line(rt: &impl Abort, said: &mut Vec<u8>, line: &Bytes) {
    match line.as_slice().split_last() {
        Some((b'\n', text)) => say_bytes(rt, said, text),
        _ => unknown(rt, "line"),
    }
}
