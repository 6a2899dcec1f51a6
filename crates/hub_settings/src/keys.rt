ghost use Rattle.std.specs.Prelude.{◌≡◌, ◌≤◌, map, IfOk};
ghost use Rattle.std.specs.Option.{option_map};
ghost use Rattle.toml.specs.View.{table_view};
ghost use Rattle.hub_rules.specs.Configured.{most_users};
ghost use Rattle.hub_settings.specs.Answers.{ReadsText};
ghost use Rattle.hub_settings.specs.Kinds.{key_seen, kind_among, kind_seen, names};
ghost use Rattle.hub_settings.specs.Settings.{kind_of, known_keys, plain_keys, plain_options, settings_of};
ghost use Rattle.hub_settings.specs.Unknown.{first_unknown, is_among};

use crate::kinds::SettingKind;
use crate::plain_keys::PlainKeys;
use crate::values::{hash, number, some_text, text, truth};
use hub_setup::{DEFAULT_USERS, MOST_USERS, Options, PlainOptions};
use std::net::SocketAddrV4;
use toml::Table;

/// The keys of a settings file, each with what may stand there, in the order in which their faults are looked for.
pub const KEYS: [(&str, SettingKind); 13] = [
    ("name", SettingKind::SomeText("Hub")),
    ("topic", SettingKind::Text("")),
    ("listen", SettingKind::Address("127.0.0.1:4111")),
    ("hash", SettingKind::Hash("tiger")),
    ("tables", SettingKind::Text("tiger.bin")),
    ("registered_only", SettingKind::Truth),
    ("search_interval", SettingKind::Number(0, u32::MAX, 0)),
    (
        "max_users",
        SettingKind::Number(1, MOST_USERS, DEFAULT_USERS),
    ),
    ("threads", SettingKind::Number(1, 64, 2)),
    ("stop_after", SettingKind::Number(0, 65_536, 0)),
    ("seed_file", SettingKind::Text("/dev/urandom")),
    ("account", SettingKind::Accounts),
    ("command", SettingKind::Commands),
];

/// Reads the keys that are no lists, or gives the first whose value is not one that it may have. The value of the key `listen`
/// was read before.
#[tactic(auto, unfolding(crate::specs::Settings::plain_keys, crate::specs::Settings::kind_of))]
pub(crate) fn plain_keys(
    table: &Table,
    listen: Option<SocketAddrV4>,
    opening: u64,
) -> Result<PlainKeys<'_>, &'static str>
    ensures { ReadsText settings_of result (plain_keys opening listen (table_view table.entry.now)) }
{
    let name = some_text(table, "name")?;
    let topic = text(table, "topic")?;
    let listen = listen.ok_or("listen")?;
    let hash = hash(table, "hash")?;
    let tables = text(table, "tables")?;
    let plain = plain_options(table, opening)?;
    let threads = number(table, "threads")?;
    let stop_after = number(table, "stop_after")?;
    let seed_file = text(table, "seed_file")?;
    Ok(PlainKeys {
        options: Options {
            topic,
            plain,
            ..Options::named(name)
        },
        listen,
        hash,
        tables,
        threads,
        stop_after,
        seed_file,
    })
}

/// Reads the keys of the options that are neither texts nor lists, or gives the first whose value is not one that it may have.
#[tactic(auto, unfolding(crate::specs::Settings::plain_options, crate::specs::Settings::kind_of))]
fn plain_options(table: &Table, opening: u64) -> Result<PlainOptions, &'static str>
    ensures some { IfOk result (λ plain. 1 ≤ plain.max_users) }
    ensures few { IfOk result (λ plain. plain.max_users ≤ most_users) }
    ensures exact { ReadsText (λ plain. plain) result (plain_options opening (table_view table.entry.now)) }
{
    let registered_only = truth(table, "registered_only")?;
    let search_interval = number(table, "search_interval")?;
    let max_users = number(table, "max_users")?;
    Ok(PlainOptions {
        registered_only,
        search_interval,
        max_users,
        opening,
    })
}

/// Gives what may stand at the key of this name; `None` where there is no such key.
#[tactic(auto, unfolding(crate::specs::Settings::kind_of))]
pub fn kind_of(name: &str) -> Option<SettingKind>
    ensures { option_map kind_seen result ≡ kind_of name.now }
{
    kind_among(&KEYS, name)
}

fn kind_among(keys: &[(&str, SettingKind)], name: &str) -> Option<SettingKind>
    ensures { option_map kind_seen result ≡ kind_among (map key_seen keys.now) name.now }
{
    'keys: for (key, kind) in keys {
        if name == *key {
            return Some(*kind);
        }
    }
    None
}

/// Finds the first key of a table, by bytes, that is none of a settings file.
pub(crate) fn unknown_key(table: &Table) -> Option<&str>
    ensures { option_map (λ s. s.now) result ≡ first_unknown known_keys (table_view table.entry.now) }
{
    unknown_among(&KEYS, table)
}

fn unknown_among<'a>(keys: &[(&str, SettingKind)], table: &'a Table) -> Option<&'a str>
    ensures { option_map (λ s. s.now) result ≡ first_unknown (names (map key_seen keys.now)) (table_view table.entry.now) }
{
    for (key, _value) in table.iter() {
        if !is_among(keys, key.as_str()) {
            return Some(key.as_str());
        }
    }
    None
}

#[tactic(auto, using(crate::proofs::Known::known))]
fn is_among(keys: &[(&str, SettingKind)], name: &str) -> bool
    ensures { result ≡ is_among (names (map key_seen keys.now)) name.now }
{
    kind_among(keys, name).is_some()
}
