ghost use Rattle.std.specs.Prelude.{◌≡◌};
ghost use Rattle.toml.specs.View.{table_view};
ghost use Rattle.hub_settings.specs.Answers.{ReadsUnlessMemory};
ghost use Rattle.hub_settings.specs.Reading.{ReadsSettings};
ghost use Rattle.hub_settings.specs.Settings.{ListensAt, settings};

use crate::account_list::accounts;
use crate::command_list::menu;
use crate::fault::{KeyName, SettingRefusal, SettingsFault};
use crate::keys::{plain_keys, unknown_key};
use crate::settings::Settings;
use crate::values::address_text;
use hub_setup::Setup;
use std::alloc::Global;
use std::net::SocketAddrV4;
use toml::Table;

/// Reads the text of a settings file (TOML), for a hub that opens at this moment, in seconds.
///
/// Each of the keys may be missing. [`KEYS`](crate::KEYS) says what may stand at each, and the order in which their faults are
/// looked for. An account or a menu entry that no hub can have is a fault of its list.
///
/// Refused: `Text` where it is no TOML; `Key` with the first key whose value is of another kind or out of range. Where
/// there is none such, it is `Key` with the least key by bytes that is none of these; then `Memory`.
pub fn read_settings(alloc: Global, text: &str, opening: u64) -> Result<Settings, SettingsFault>
    ensures { ReadsSettings text.now opening result }
{
    let table = match toml::table_from_str(alloc, text) {
        Ok(table) => table,
        Err(error) => {
            if error.is_memory() {
                return Err(SettingsFault::Memory);
            }
            return Err(SettingsFault::Text);
        }
    };
    let listen = listen_at(&table);
    match read_table(alloc, &table, listen, opening) {
        Ok(settings) => Ok(settings),
        Err(SettingRefusal::Memory) => Err(SettingsFault::Memory),
        Err(SettingRefusal::Key(key)) => match String::from_str(alloc, key) {
            Ok(name) => Err(SettingsFault::Key(KeyName::new(name))),
            Err(_) => Err(SettingsFault::Memory),
        },
    }
}

/// Reads what a table of settings says. The value of its key `listen` was read before.
#[tactic(auto, unfolding(crate::specs::Settings::settings))]
fn read_table<'a>(
    alloc: Global,
    table: &'a Table,
    listen: Option<SocketAddrV4>,
    opening: u64,
) -> Result<Settings, SettingRefusal<'a>>
    ensures { ReadsUnlessMemory result (settings opening listen (table_view table.entry.now)) }
{
    let keys = match plain_keys(table, listen, opening) {
        Ok(keys) => keys,
        Err(key) => return Err(SettingRefusal::Key(key)),
    };
    let Some(accounts) = accounts(alloc, table)? else {
        return Err(SettingRefusal::Key("account"));
    };
    let Some(menu) = menu(alloc, table)? else {
        return Err(SettingRefusal::Key("command"));
    };
    if let Some(key) = unknown_key(table) {
        return Err(SettingRefusal::Key(key));
    }
    let setup = Setup::with_lists(alloc, &keys.options, accounts, menu)?;
    Ok(Settings::new(alloc, setup, &keys)?)
}

/// Reads the address and port to listen at.
fn listen_at(table: &Table) -> Option<SocketAddrV4>
    ensures { ListensAt (table_view table.now) result }
{
    let text = address_text(table, "listen")?;
    match SocketAddrV4::parse_ascii(text.as_bytes()) {
        Ok(address) => Some(address),
        Err(_) => None,
    }
}
