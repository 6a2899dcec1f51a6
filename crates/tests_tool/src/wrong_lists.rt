use crate::wrong_settings::{report_on, settings};
use std::alloc::{AllocError, Global};
use tests_support::again;

#[test]
fn accounts_are_wrong(rt: HostRuntime) {
    settings! { rt, r#"
        account = "op:secret" -> 1:1: account: found a text; allowed: a list of tables, [[account]]
        [account];nick = "op" -> 1:1: account: found a table; allowed: a list of tables, [[account]]
        account = [{nick = "op", password = "p"}, "bob:secret"] -> 1:1: account 2: found a text; allowed: a list of tables, [[account]]
        [[account]];nick = "op";password = "p";pasword = "q" -> 4:1: account 1, pasword: found an unknown key; allowed: nick, password, operator
        [[account]];nick = "op" -> 1:1: account 1, password: found nothing; allowed: a text that is not empty
        [[account]];nick = "op";password = "" -> 3:1: account 1, password: found an empty text; allowed: a text that is not empty
        [[account]];nick = "op";password = 12345 -> 3:1: account 1, password: found a whole number; allowed: a text that is not empty
        [[account]];nick = "op";password = "p";operator = "yes" -> 4:1: account 1, operator: found "yes"; allowed: true or false
        [[account]];nick = "op";password = "p";[[account]];nick = "op";password = "q" -> 5:1: account 2, nick: found "op" once more; allowed: a nick that no other account has
        [[account]];nick = "op";password = "p";;[[account]];  nick = "a b";password = "p" -> 6:3: account 2, nick: found "a b"; allowed: a text of 1 to 64 characters, none of them a blank
        [[account]];password = "p" -> 1:1: account 1, nick: found nothing; allowed: a text of 1 to 64 characters, none of them a blank
        [[account]];nick = 5;password = "p" -> 2:1: account 1, nick: found 5; allowed: a text of 1 to 64 characters, none of them a blank
        [[account]];password = "p";nick = "" -> 3:1: account 1, nick: found ""; allowed: a text of 1 to 64 characters, none of them a blank
    "# }
}

#[test]
fn commands_are_wrong(rt: HostRuntime) {
    settings! { rt, r#"
        command = 5 -> 1:1: command: found 5; allowed: a list of tables, [[command]]
        command = [5] -> 1:1: command 1: found 5; allowed: a list of tables, [[command]]
        [[command]];context = 1;text = "t" -> 1:1: command 1, name: found nothing; allowed: a text that is not empty
        [[command]];name = "";context = 1;text = "t" -> 2:1: command 1, name: found ""; allowed: a text that is not empty
        [[command]];name = "n";text = "t" -> 1:1: command 1, context: found nothing; allowed: a whole number from 1 to 15
        [[command]];name = "n";context = 16;text = "t" -> 3:1: command 1, context: found 16; allowed: a whole number from 1 to 15
        [[command]];name = "n";context = 1 -> 1:1: command 1, text: found nothing; allowed: a text, or separator = true
        [[command]];name = "n";context = 1;text = "t";separator = true -> 4:1: command 1, text: found "t"; allowed: no text beside separator = true
        [[command]];name = "n";context = 1;text = 5 -> 4:1: command 1, text: found 5; allowed: a text
        [[command]];name = "n";context = 1;separator = 1 -> 4:1: command 1, separator: found 1; allowed: true or false
        [[command]];name = "n";context = 1;text = "t";[[command]];icon = 3 -> 6:1: command 2, icon: found an unknown key; allowed: name, context, text, separator
    "# }
}

/// So many entries of a list, three or four lines each.
fn entries(alloc: Global, count: usize, key: &str) -> Result<String, AllocError> {
    let mut text = String::new(alloc);
    for number in 0..count {
        let entry = match key {
            "account" => format!(in alloc; "[[account]];nick = \"n{number}\";password = \"p\";")?,
            _ => format!(in alloc;
                "[[command]];name = \"n{number}\";context = 1;text = \"HMSG t\\n\";"
            )?,
        };
        text.push_str(&entry)?;
    }
    Ok(text)
}

#[test]
fn lists_are_too_long(rt: HostRuntime) {
    let accounts = "97:1: account 33: found one more; allowed: at most 32 accounts";
    let commands = "257:1: command 65: found one more; allowed: at most 64 entries";
    for (key, count, wanted) in [
        ("account", 32, "127.0.0.1:4111 tiger 32 0 544"),
        ("account", 33, accounts),
        ("command", 64, "127.0.0.1:4111 tiger 0 64 544"),
        ("command", 65, commands),
    ] {
        let text = again!(&rt; entries(rt.alloc(), count, key));
        let got = again!(&rt; report_on(rt.alloc(), &text));
        assert_eq!(rt; got.as_str(), wanted, "{count} {key}");
    }
}
