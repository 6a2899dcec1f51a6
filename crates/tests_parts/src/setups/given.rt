use super::*;
use crate::queues::{batch, writes};
use hub_rules::Topic;

/// The things that a hub is set up with.
#[derive(Drop)]
pub(crate) struct Given;

impl Part for Given {
    fn call(&mut self, rt: &impl Machine, row: Row<'_>, said: &mut Vec<u8>) {
        match row.name {
            "tells" => tells(rt, row.text, said),
            "menu" => menu(rt, said),
            "listed" => listed(rt, said),
            "topic" => topic(rt, row.text, said),
            _ => refusal(rt, row.name, row.text, said),
        }
    }
}

/// Says why some options are refused.
fn refusal<R: Machine>(rt: &R, name: &str, text: &str, said: &mut Vec<u8>) {
    match name {
        "max_users" => max_users(rt, small(rt, text), said),
        "lists" => lists(rt, text, said),
        "accounts" => accounts(rt, text, said),
        "command" => command(rt, text, said),
        "faults" => faults(rt, text, said),
        _ => unknown(rt, name),
    }
}

/// Says why the options are refused.
fn say_refusal(rt: &impl Machine, said: &mut Vec<u8>, options: &Options<'_>) {
    match set_up(rt, options) {
        Ok(_) => say(rt, said, "ok"),
        Err(refused) => say_shown(rt, said, &refused),
    }
}

fn max_users(rt: &impl Machine, max_users: u32, said: &mut Vec<u8>) {
    let mut options = options("Hub");
    options.plain.max_users = max_users;
    say_refusal(rt, said, &options);
}

/// Says the answer to options with an account for each letter, and so many lines between menu entries.
fn lists(rt: &impl Machine, text: &str, said: &mut Vec<u8>) {
    let (nicks, count) = pair(text, ' ');
    let accounts = again!(rt; accounts_called(rt.alloc(), nicks));
    let commands = again!(rt; separators(rt.alloc(), small(rt, count)));
    say_refusal(rt, said, &with_lists(&accounts, &commands));
}

fn accounts_called<'a>(alloc: Global, nicks: &'a str) -> Result<Vec<Account<'a>>, AllocError> {
    let mut accounts = Vec::new(alloc);
    for nick in nicks.split(',') {
        accounts.extend_from_slice(&[account(nick, "secret", true)])?;
    }
    Ok(accounts)
}

fn separators(alloc: Global, count: u32) -> Result<Vec<MenuEntry<'static>>, AllocError> {
    let mut commands = Vec::new(alloc);
    for _ in 0..count {
        commands.extend_from_slice(&[entry("Help", 1, MenuItem::Separator)])?;
    }
    Ok(commands)
}

/// Says the answer to options with two accounts, `nick=password` each.
fn accounts(rt: &impl Machine, text: &str, said: &mut Vec<u8>) {
    let (first, second) = pair(text, ';');
    let ((nick, password), (other, word)) = (pair(first, '='), pair(second, '='));
    let accounts = [account(nick, password, true), account(other, word, true)];
    say_refusal(rt, said, &with_lists(&accounts, &[]));
}

fn command(rt: &impl Machine, text: &str, said: &mut Vec<u8>) {
    let (context, name) = pair(text, ' ');
    let commands = [entry(name, byte(rt, context), MenuItem::Text("HMSG !help\n"))];
    say_refusal(rt, said, &with_lists(&[], &commands));
}

/// Says the answer to options with some of the faults.
fn faults(rt: &impl Machine, text: &str, said: &mut Vec<u8>) {
    let accounts = [account("a b", "secret", true)];
    let commands = [entry("", 0, MenuItem::Separator)];
    let name = if text.contains("name") { "" } else { "Hub" };
    let mut options = options(name);
    if text.contains("account") {
        options.accounts = &accounts;
    }
    if text.contains("command") {
        options.commands = &commands;
    }
    if text.contains("limit") {
        options.plain.max_users = 0;
    }
    say_refusal(rt, said, &options);
}

/// Says what a setup tells of what it was given, or of who has a nick.
fn tells(rt: &impl Machine, text: &str, said: &mut Vec<u8>) {
    let setup = of_two(rt);
    match text {
        "name" => say(rt, said, setup.name()),
        "topic" => say(rt, said, setup.topic()),
        "registered_only" => say_whether(rt, said, setup.registered_only()),
        "search_interval" => say_number(rt, said, setup.search_interval() as u128),
        "max_users" => say_number(rt, said, setup.max_users() as u128),
        "opening" => say_number(rt, said, setup.opening() as u128),
        nick => say(rt, said, kind_of(&setup, nick)),
    }
}

/// Makes a setup with two accounts.
fn of_two(rt: &impl Machine) -> Setup {
    let bob = account("bob", "another", false);
    let accounts = [account("\u{e9}", "secret", true), bob];
    let options = Options {
        topic: "new one",
        accounts: &accounts,
        plain: PlainOptions {
            registered_only: true,
            search_interval: 7,
            opening: 1_000,
            ..PlainOptions::for_users(512)
        },
        ..options("Hub")
    };
    setup(rt, &options)
}

fn kind_of(setup: &Setup, nick: &str) -> &'static str {
    match setup.account(nick) {
        Some(account) if account.is_operator() => "an operator",
        Some(_) => "a user",
        None => "nobody",
    }
}

fn commands() -> [MenuEntry<'static>; 2] {
    let help = MenuItem::Text("HMSG !help\n");
    [entry("Help", 1, help), entry("Sep", 2, MenuItem::Separator)]
}

/// Says the menu of a setup of options.
fn menu(rt: &impl Machine, said: &mut Vec<u8>) {
    let setup = setup(rt, &with_lists(&[], &commands()));
    say_menu(rt, &setup, said);
}

/// Says the menu of a setup of lists.
fn listed(rt: &impl Machine, said: &mut Vec<u8>) {
    let setup = of_lists(rt, &[account("ana", "secret", true)], &commands());
    say_menu(rt, &setup, said);
}

/// Says the lines of a menu behind another line, each with its line feed.
fn say_menu(rt: &impl Machine, setup: &Setup, said: &mut Vec<u8>) {
    let lines =
        got!(rt; "hub_setup::Setup::menu", AllocError, setup.menu(batch(rt, "ISTA 000 Done")));
    writes(rt, &lines, said);
}

fn topic(rt: &impl Machine, text: &str, said: &mut Vec<u8>) {
    let topic = got!(rt; "hub_rules::Topic::new", AllocError, Topic::new(rt.alloc(), text));
    say(rt, said, topic.as_str());
}

#[test]
fn setups_tell_what_they_were_given(rt: HostRuntime) {
    rows! { rt, Given, r"
        == has room for 1 to 900 users ==
        max_users 0 -> Limit | 1 | 900 -> ok | 901 -> Limit
        == takes 32 accounts and 64 commands ==
        lists a,b,c,d,e,f,g,h,i,j,k,l,m,n,o,p,q,r,s,t,u,v,w,x,y,z,A,B,C,D,E,F 64 -> ok
        lists a,b,c,d,e,f,g,h,i,j,k,l,m,n,o,p,q,r,s,t,u,v,w,x,y,z,A,B,C,D,E,F,G 64 -> Limit
        lists a,b,c,d,e,f,g,h,i,j,k,l,m,n,o,p,q,r,s,t,u,v,w,x,y,z,A,B,C,D,E,F 65 -> Limit
        == refuses accounts ==
        accounts ana=secret;bob=secret | Ana=secret;ana=secret -> ok
        accounts ana=secret;a b=secret | =secret;ana=secret | ana=secret;bob= | op=secret;op=another -> Account | é=secret;é=secret -> Account
        == refuses commands ==
        command 1 Help | 15 Help -> ok | 1 | 0 Help | 16 Help -> Command
        == looks for faults in order ==
        faults limit name account command -> Limit | name account command -> Name | account command -> Account | command -> Command
        == tells what it was given ==
        tells name -> Hub | topic -> new one | registered_only -> yes | search_interval -> 7 | max_users -> 512 | opening -> 1000
        tells é -> an operator | bob -> a user | Bob | é -> nobody
        == tells of the menu ==
        menu -> ISTA 000 Done<x0a>ICMD Help CT1 TTHMSG\s!help\n<x0a>ICMD Sep CT2 SP1<x0a>
    " }
}
