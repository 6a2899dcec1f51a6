use crate::rows::*;
use hub_settings::{Settings, SettingsFault, read_settings};

/// The settings that a file says, which is read at the moment 7.
#[derive(Drop)]
pub(crate) struct File {
    settings: Settings,
}

impl Part for File {
    fn call(&mut self, rt: &impl Machine, row: Row<'_>, said: &mut Vec<u8>) {
        match row.name {
            "read" => self.read(rt, row.text, said),
            "list" => self.list(rt, row.text, said),
            "hub" => self.say_hub(rt, row.text, said),
            "program" => self.say_program(rt, row.text, said),
            _ => unknown(rt, row.name),
        }
    }
}

/// Reads a text, in which `;` stands for the end of a line.
fn read(rt: &impl Machine, text: &str) -> Result<Settings, SettingsFault> {
    let mut lines = again!(rt; String::with_capacity(rt.alloc(), text.len()));
    for c in text.chars() {
        again!(rt; lines.push(if c == ';' { '\n' } else { c }));
    }
    twice!(rt; "hub_settings::read_settings", SettingsFault::Memory, read_settings(rt.alloc(), &lines, 7))
}

impl File {
    fn read(&mut self, rt: &impl Machine, text: &str, said: &mut Vec<u8>) {
        match read(rt, text) {
            Ok(settings) => {
                self.settings = settings;
                say(rt, said, "ok");
            }
            Err(SettingsFault::Key(key)) => {
                say(rt, said, "key ");
                say(rt, said, key.as_str());
            }
            Err(SettingsFault::Text) => say(rt, said, "Text"),
            Err(_) => say(rt, said, "another fault"),
        }
    }

    /// Reads so many accounts or commands, which have numbers for names.
    fn list(&mut self, rt: &impl Machine, text: &str, said: &mut Vec<u8>) {
        let (count, what) = pair(text, ' ');
        let text = again!(rt; write_entries(rt.alloc(), small(rt, count), what));
        self.read(rt, &text, said);
    }

    fn say_hub(&self, rt: &impl Machine, text: &str, said: &mut Vec<u8>) {
        let setup = self.settings.setup();
        match pair(text, ' ') {
            ("name", _) => say(rt, said, setup.name()),
            ("topic", _) => say(rt, said, setup.topic()),
            ("max_users", _) => say_number(rt, said, setup.max_users() as u128),
            ("search_interval", _) => say_number(rt, said, setup.search_interval() as u128),
            ("registered_only", _) => say_whether(rt, said, setup.registered_only()),
            ("opening", _) => say_number(rt, said, setup.opening() as u128),
            ("operator", nick) => match setup.account(nick) {
                Some(account) => say_whether(rt, said, account.is_operator()),
                None => say(rt, said, "nobody"),
            },
            _ => unknown(rt, text),
        }
    }

    fn say_program(&self, rt: &impl Machine, text: &str, said: &mut Vec<u8>) {
        match text {
            "listen" => {
                let address = self.settings.listen();
                say(rt, said, &again!(rt; format!(in rt.alloc(); "{address}")));
            }
            "hash" => say_shown(rt, said, &self.settings.hash()),
            "tables" => say(rt, said, self.settings.tables()),
            "threads" => say_number(rt, said, self.settings.threads() as u128),
            "stop_after" => say_number(rt, said, self.settings.stop_after() as u128),
            "seed_file" => say(rt, said, self.settings.seed_file()),
            _ => unknown(rt, text),
        }
    }
}

/// Writes so many entries of a list.
fn write_entries(alloc: Global, count: u32, what: &str) -> Result<String, AllocError> {
    let mut text = String::new(alloc);
    for number in 0..count {
        let entry = match what {
            "accounts" => format!(in alloc; "[[account]];nick = \"n{number}\";password = \"p\";")?,
            _ => format!(in alloc; "[[command]];name = \"n{number}\";context = 1;text = \"t\";")?,
        };
        text.push_str(&entry)?;
    }
    Ok(text)
}

pub(crate) fn play_file<R: Machine>(rt: &R, rows: &str) {
    let settings = read(rt, "").expect(rt, "an empty text");
    play(rt, &mut File { settings }, rows);
}

#[test]
fn settings_are_read(rt: HostRuntime) {
    rows! { play_file(rt) r#"
        == an empty text gives the defaults ==
        read <> -> ok
        program listen -> 127.0.0.1:4111 | hash -> Tiger | tables -> tiger.bin | threads -> 2 | stop_after -> 0 | seed_file -> /dev/urandom
        hub name -> Hub | topic -> <> | max_users -> 512 | search_interval -> 0 | registered_only -> no | opening -> 7
        == every key is read ==
        read name = "My hub";topic = "All";listen = "0.0.0.0:65535";hash = "first24";tables = "t";registered_only = true;search_interval = 4294967295;max_users = 900;threads = 64;stop_after = 65536;seed_file = "s";[[account]];nick = "op";password = "secret";operator = true;[[account]];nick = "reg";password = "x";[[command]];name = "Help";context = 15;text = "HMSG !help";separator = false;[[command]];name = "Sep";context = 2;separator = true -> ok
        program listen -> 0.0.0.0:65535 | hash -> First24 | tables -> t | seed_file -> s | threads -> 64 | stop_after -> 65536
        hub name -> My hub | topic -> All | max_users -> 900 | search_interval -> 4294967295 | registered_only | operator op -> yes
        hub operator reg -> no
    "# }
}

#[test]
fn each_fault_is_named_by_its_key(rt: HostRuntime) {
    rows! { play_file(rt) r#"
        == no TOML ==
        read a = <> | name | name = "a";name = "b" -> Text
        == keys ==
        read name = "" | name = 1 -> key name | topic = [] -> key topic
        read listen = "127.0.0.1" | listen = "localhost:4111" | listen = "127.0.0.1:65536" | listen = "256.0.0.1:4111" -> key listen
        read listen = "[::1]:4111" | listen = 4111 -> key listen | hash = "md5" | hash = "Tiger" | hash = true -> key hash
        read tables = 1 -> key tables | registered_only = "yes" | registered_only = 1 -> key registered_only
        read search_interval = -1 | search_interval = 4294967296 | search_interval = "10" -> key search_interval
        read max_users = 0 | max_users = 901 | max_users = 1.0 -> key max_users | threads = 0 | threads = 65 -> key threads
        read stop_after = -1 | stop_after = 65537 -> key stop_after | seed_file = 1 -> key seed_file | nam = "x" -> key nam
        read b = 1;a = 1;B = 1 -> key B | max_users = 901;threads = 65;name = "" -> key name | stop_after = -1;hash = 1;a = 1 -> key hash
        read a = 1;seed_file = 1 -> key seed_file
        == lists ==
        read account = 1 | account = [1] | [account];nick = "a";password = "p" | [[account]];nick = "a" | [[account]];password = "p" -> key account
        read [[account]];nick = "a";password = "" | [[account]];nick = "";password = "p" | [[account]];nick = "a b";password = "p" -> key account
        read [[account]];nick = "a";password = 1 | [[account]];nick = "a";password = "p";operator = 1 -> key account
        read [[account]];nick = "a";password = "p";class = 1 -> key account
        read [[account]];nick = "op";password = "p";[[account]];nick = "op";password = "q" -> key account
        read command = "x" | command = ["x"] | [[command]];context = 1;text = "t" | [[command]];name = "";context = 1;text = "t" -> key command
        read [[command]];name = "n";text = "t" | [[command]];name = "n";context = 0;text = "t" -> key command
        read [[command]];name = "n";context = 16;text = "t" | [[command]];name = "n";context = 1 -> key command
        read [[command]];name = "n";context = 1;separator = false | [[command]];name = "n";context = 1;text = "t";separator = true -> key command
        read [[command]];name = "n";context = 1;text = 1 | [[command]];name = "n";context = 1;text = "t";key = 1 -> key command
        read command = 1;[[account]];nick = "a b";password = "p" -> key account | a = 1;command = 1 -> key command
        list 32 accounts -> ok | 33 accounts -> key account | 64 commands -> ok | 65 commands -> key command
    "# }
}
