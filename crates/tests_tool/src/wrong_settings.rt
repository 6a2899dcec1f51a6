use hub_settings::KEYS;
use settings_report::{SettingsReport, SettingsWarning, Summary, report_file};
use std::alloc::{AllocError, Global};
use tests_support::{Machine, again};

/// Reports on settings, in which `;` stands for the end of a line.
pub(crate) fn report_on(alloc: Global, text: &str) -> Result<String, AllocError> {
    let mut lines = String::with_capacity(alloc, text.len())?;
    for c in text.chars() {
        lines.push(if c == ';' { '\n' } else { c })?;
    }
    said_of_bytes(alloc, lines.as_bytes())
}

fn said_of_bytes(alloc: Global, bytes: &[u8]) -> Result<String, AllocError> {
    match report_file(alloc, bytes)? {
        SettingsReport::Well(summary, warnings) => said_well(alloc, &summary, &warnings),
        SettingsReport::Faulty(fault) => fault.to_string(alloc).map_err(|_| AllocError),
    }
}

/// The summary, and behind it the warnings.
fn said_well(
    alloc: Global,
    summary: &Summary,
    warnings: &[SettingsWarning],
) -> Result<String, AllocError> {
    let (listen, hash) = (summary.listen, summary.hash_name());
    let (accounts, commands) = (summary.accounts, summary.commands);
    let descriptors = summary.descriptors;
    let mut said = format!(in alloc; "{listen} {hash} {accounts} {commands} {descriptors}")?;
    for warning in warnings {
        said.push_str("|")?;
        said.push_str(&warning.to_string(alloc)?)?;
    }
    Ok(said)
}

/// Compares what is said of the settings of each row, `SETTINGS -> WHAT IS SAID`, at whose end `KEYS` stands for the names of all keys.
pub(crate) fn play(rt: &impl Machine, rows: &str) {
    for row in rows.lines() {
        let row = row.trim();
        if !row.is_empty() {
            play_row(rt, row);
        }
    }
}

fn play_row(rt: &impl Machine, row: &str) {
    let (text, wanted) = row.split_once("-> ").expect(rt, row);
    let got = again!(rt; report_on(rt.alloc(), text.trim_end()));
    let wanted = again!(rt; with_keys(rt.alloc(), wanted));
    assert_eq!(rt; got.as_str(), wanted.as_str(), "{text}");
}

/// Plays rows that stand in a test.
macro_rules! settings {
    ($rt:ident, $rows:expr) => {
        crate::wrong_settings::play(&$rt, $rows)
    };
}

pub(crate) use settings;

fn with_keys(alloc: Global, wanted: &str) -> Result<String, AllocError> {
    let Some(start) = wanted.strip_suffix("KEYS") else {
        return String::from_str(alloc, wanted);
    };
    let mut text = String::from_str(alloc, start)?;
    let mut between = "";
    for (key, _) in KEYS {
        text.push_str(between)?;
        text.push_str(key)?;
        between = ", ";
    }
    Ok(text)
}

#[test]
fn nothing_is_wrong(rt: HostRuntime) {
    settings! { rt, r#"
        -> 127.0.0.1:4111 tiger 0 0 544
        hash = "first24";listen = "0.0.0.0:511";max_users = 900 -> 0.0.0.0:511 first24 0 0 932
        [[account]];nick = "op";password = "p";operator = true;[[command]];name = "Topic";context = 3;text = "HMSG !topic\n" -> 127.0.0.1:4111 tiger 1 1 544
    "# }
}

#[test]
fn menu_texts_warn(rt: HostRuntime) {
    for (written, flaws) in [
        ("HMSG !kick\\\\s%[userNI]\\n", [false, false, false]),
        (
            "DMSG %[mySID] %[userSID] hi\\n\\nBMSG %[mySID] %[line:What to say]\\n",
            [false, false, false],
        ),
        ("HMSG 100%[\\n", [false, false, false]),
        ("%[line:A message]\\n", [false, false, false]),
        ("HMSG !topic", [true, false, false]),
        ("HMSG !topic\\r\\n", [false, true, false]),
        ("!topic\\n", [false, false, true]),
        ("ISTA 000 x\\n", [false, false, true]),
        ("DMSG %[mySID] %[userNI] hi\\n", [false, false, true]),
        ("HMSG a\\r\\nb", [true, true, true]),
    ] {
        let text = again!(&rt; menu_of(rt.alloc(), written));
        let got = again!(&rt; report_on(rt.alloc(), &text));
        let wanted = again!(&rt; warned(rt.alloc(), flaws));
        assert_eq!(rt; got.as_str(), wanted.as_str(), "{text}");
    }
}

/// A menu of one entry with this text.
fn menu_of(alloc: Global, written: &str) -> Result<String, AllocError> {
    format!(in alloc; "[[command]];name = \"n\";context = 1;text = \"{written}\"")
}

/// The summary of such a menu, with the warnings of these flaws of its text.
fn warned(alloc: Global, flaws: [bool; 3]) -> Result<String, AllocError> {
    let words = [
        "it does not end with \\n, so it swallows what the client sends next",
        "it has \\r\\n, and \\r becomes part of the message",
        "it is no message that a client can send to a hub",
    ];
    let mut text = String::from_str(alloc, "127.0.0.1:4111 tiger 0 1 544")?;
    for (has_flaw, words) in flaws.into_iter().zip(words) {
        if has_flaw {
            text.push_str("|4:1: command 1, text: ")?;
            text.push_str(words)?;
        }
    }
    Ok(text)
}

#[test]
fn values_are_wrong(rt: HostRuntime) {
    settings! { rt, r#"
        name = "" -> 1:1: name: found ""; allowed: a text that is not empty
        name = 7 -> 1:1: name: found 7; allowed: a text that is not empty
        topic = true -> 1:1: topic: found true; allowed: a text
        ;  listen = "localhost:4111" -> 2:3: listen: found "localhost:4111"; allowed: an IPv4 address and a port, as 127.0.0.1:4111
        listen = "127.0.0.1" -> 1:1: listen: found "127.0.0.1"; allowed: an IPv4 address and a port, as 127.0.0.1:4111
        hash = "md5" -> 1:1: hash: found "md5"; allowed: tiger or first24
        tables = 8192 -> 1:1: tables: found 8192; allowed: a text
        seed_file = [] -> 1:1: seed_file: found a list; allowed: a text
        registered_only = "yes" -> 1:1: registered_only: found "yes"; allowed: true or false
        registered_only = 1 -> 1:1: registered_only: found 1; allowed: true or false
        search_interval = -1 -> 1:1: search_interval: found -1; allowed: a whole number from 0 to 4294967295
        search_interval = 4294967296 -> 1:1: search_interval: found 4294967296; allowed: a whole number from 0 to 4294967295
        max_users = 0 -> 1:1: max_users: found 0; allowed: a whole number from 1 to 900
        max_users = 901 -> 1:1: max_users: found 901; allowed: a whole number from 1 to 900
        max_users = 12.5 -> 1:1: max_users: found 12.5; allowed: a whole number from 1 to 900
        threads = 65 -> 1:1: threads: found 65; allowed: a whole number from 1 to 64
        threads = "2" -> 1:1: threads: found "2"; allowed: a whole number from 1 to 64
        stop_after = 65537 -> 1:1: stop_after: found 65537; allowed: a whole number from 0 to 65536
    "# }
}

#[test]
fn keys_are_unknown_and_statements_long(rt: HostRuntime) {
    settings! { rt, r##"
        name = "Hub";nam = "x" -> 2:1: nam: found an unknown key; allowed: KEYS
        max_users = 0;name = "" -> 2:1: name: found ""; allowed: a text that is not empty
        # a comment;;topic = """;two lines;""";max_users = 901 -> 6:1: max_users: found 901; allowed: a whole number from 1 to 900
        topic = """;# no comment, "" \""" [[account]];"""";tables = '''[\;''' # ];name = '\' # """;topic2 = 0 -> 7:1: topic2: found an unknown key; allowed: KEYS
        command = [ # ];{ name = "a]", context = 1, text = "" }, ;];[[account]] # [;# ;  nick = '';password = "#" -> 6:3: account 1, nick: found ""; allowed: a text of 1 to 64 characters, none of them a blank
        ;# é;stop_after = [;1,;2 ] -> 3:1: stop_after: found a list; allowed: a whole number from 0 to 65536
    "## }
}

#[test]
fn texts_are_no_toml(rt: HostRuntime) {
    settings! { rt, r#"
        name "Hub" -> 1:6: no TOML: key with no value, expected `=`
        max_users = 5;name = "Hub" "x" -> 2:14: no TOML: unexpected key or value, expected newline, `#`
        [[account] -> 1:11: no TOML: unclosed array table, expected `]]`
        ;= 5 -> 2:1: no TOML: invalid key, expected letters, numbers, `-`, `_` or a quoted key
        topic = "é" x -> 1:13: no TOML: unexpected key or value, expected newline, `#`
        max_users = 5;max_users = 6 -> 2:1: no TOML: duplicate key
    "# }
    let got = again!(&rt; said_of_bytes(rt.alloc(), b"\nname = \"\xff\""));
    assert_eq!(rt; got.as_str(), "2:9: no TOML: a byte that is not UTF-8");
}
