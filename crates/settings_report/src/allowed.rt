ghost use Rattle.std.specs.Prelude.{◌≡◌, Some, map};
ghost use Rattle.hub_settings.specs.Kinds.{key_seen, kind_seen, names};
ghost use Rattle.std.specs.Fmt.{WritesOnOk};
ghost use Rattle.std.specs.Option.{option_map};
ghost use Rattle.settings_report.specs.Allowances.{IsAllowedAt, IsAllowedFor};
ghost use Rattle.settings_report.specs.Printed.{allowed_text, with_commas};

use hub_settings::{KEYS, SettingKind};
use std::fmt;

/// What may stand at a place of the settings.
#[derive(Clone, Copy, Debug)]
pub enum Allowed {
    /// What these words say.
    Words(&'static str),
    /// An IPv4 address and a port, as this one.
    Address(&'static str),
    /// A whole number from the first to the second.
    Number(u32, u32),
    /// One of the keys of the settings.
    Keys,
}

impl fmt::Display for Allowed {
    ghost output = { λ allowed. Some (allowed_text allowed) };

    fn fmt<W: fmt::Write>(&self, f: &mut fmt::Formatter<W>) -> fmt::Result {
        match *self {
            Allowed::Words(words) => f.write_str(words),
            Allowed::Address(example) => write!(f, "an IPv4 address and a port, as {example}"),
            Allowed::Number(low, high) => write!(f, "a whole number from {low} to {high}"),
            Allowed::Keys => write_names(f, &KEYS),
        }
    }
}

/// Writes the names of keys, with a comma and a blank between each two.
fn write_names<W: fmt::Write>(
    f: &mut fmt::Formatter<W>,
    keys: &[(&str, SettingKind)],
) -> fmt::Result
    ensures { WritesOnOk W.write_str_gives f.old result (with_commas (names (map key_seen keys.now))) f.new }
{
    let mut comma = "";
    for key in keys {
        let name = name_of(key);
        write!(f, "{comma}{name}")?;
        comma = ", ";
    }
    Ok(())
}

fn name_of<'a>(key: &(&'a str, SettingKind)) -> &'a str
    ensures { result.now ≡ (key_seen key.now).name }
{
    key.0
}

pub(crate) const TOML: Allowed = Allowed::Words("TOML");

pub(crate) const ACCOUNT_LIST: Allowed = Allowed::Words("a list of tables, [[account]]");

pub(crate) const COMMAND_LIST: Allowed = Allowed::Words("a list of tables, [[command]]");

pub(crate) const ACCOUNT_KEYS: Allowed = Allowed::Words("nick, password, operator");

pub(crate) const COMMAND_KEYS: Allowed = Allowed::Words("name, context, text, separator");

pub(crate) const ACCOUNTS: Allowed = Allowed::Words("at most 32 accounts");

pub(crate) const COMMANDS: Allowed = Allowed::Words("at most 64 entries");

pub(crate) const NICK: Allowed = Allowed::Words(
    "a text of 1 to 64 characters, none of them a blank",
);

pub(crate) const OTHER_NICK: Allowed = Allowed::Words("a nick that no other account has");

pub(crate) const TEXT: Allowed = Allowed::Words("a text");

pub(crate) const SOME_TEXT: Allowed = Allowed::Words("a text that is not empty");

pub(crate) const TRUTH: Allowed = Allowed::Words("true or false");

pub(crate) const HASH: Allowed = Allowed::Words("tiger or first24");

pub(crate) const CONTEXT: Allowed = Allowed::Number(1, 15);

pub(crate) const CONTENT: Allowed = Allowed::Words("a text, or separator = true");

pub(crate) const NO_TEXT: Allowed = Allowed::Words("no text beside separator = true");

/// Gives what may stand at a key of this kind; the keys, if there is no such key.
pub(crate) fn allowed_at(kind: Option<SettingKind>) -> Allowed
    ensures { IsAllowedAt (option_map kind_seen kind) result }
{
    match kind {
        Some(kind) => allowed_for(kind),
        None => Allowed::Keys,
    }
}

/// Gives what may stand at a key of this kind.
fn allowed_for(kind: SettingKind) -> Allowed
    ensures { IsAllowedFor (kind_seen kind) result }
{
    match kind {
        SettingKind::SomeText(_) => SOME_TEXT,
        SettingKind::Text(_) => TEXT,
        SettingKind::Address(example) => Allowed::Address(example),
        SettingKind::Hash(_) => HASH,
        SettingKind::Truth => TRUTH,
        SettingKind::Number(low, high, _) => Allowed::Number(low, high),
        SettingKind::Accounts => ACCOUNT_LIST,
        SettingKind::Commands => COMMAND_LIST,
    }
}
