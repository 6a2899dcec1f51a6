ghost use Rattle.std.specs.Prelude.{◌≡◌, codes, map, IfOk};
ghost use Rattle.std.specs.Option.{option_and_then, option_map};
ghost use Rattle.toml.specs.Data.{as_table, get_member};
ghost use Rattle.toml.specs.View.{array_view, table_view, view};
ghost use Rattle.hub_setup.specs.Settings.{account_text};
ghost use Rattle.hub_settings.specs.Lists.{account_in, accounts_at, all_accounts, written_accounts};

use crate::unknown::first_unknown;
use crate::values::{text_at, truth_of, value_at};
use hub_setup::{Account, Accounts, ListRefused};
use std::alloc::{AllocError, Global};
use toml::{Table, Value};

/// Reads the registered users of a settings file; `None` where what stands at their key is no list of accounts, or no hub can
/// have these.
///
/// Refused only where memory runs out.
pub(crate) fn accounts(alloc: Global, table: &Table) -> Result<Option<Accounts>, AllocError>
    ensures { IfOk result (λ accounts. accounts ≡ accounts_at (get_member (codes "account") (table_view table.now))) }
{
    let Some(written) = written_accounts(alloc, table)? else {
        return Ok(None);
    };
    match Accounts::new(alloc, &written) {
        Ok(accounts) => Ok(Some(accounts)),
        Err(ListRefused::Memory) => Err(AllocError),
        Err(ListRefused::Limit) => Ok(None),
        Err(ListRefused::Entry) => Ok(None),
    }
}

fn written_accounts<'a>(
    alloc: Global,
    table: &'a Table,
) -> Result<Option<Vec<Account<'a>>>, AllocError>
    ensures { IfOk result (λ accounts. option_map (λ all. map account_text all.items) accounts
        ≡ written_accounts (get_member (codes "account") (table_view table.entry.now))) }
{
    let Some(value) = value_at(table, "account") else {
        return Ok(Some(Vec::new(alloc)));
    };
    let Some(items) = value.as_array() else {
        return Ok(None);
    };
    all_accounts(alloc, items)
}

fn all_accounts<'a>(
    alloc: Global,
    items: &'a Vec<Value>,
) -> Result<Option<Vec<Account<'a>>>, AllocError>
    ensures { IfOk result (λ accounts. option_map (λ all. map account_text all.items) accounts ≡ all_accounts (array_view items.entry.now)) }
{
    let mut accounts = Vec::with_capacity(alloc, items.len())?;
    'items: for item in items.iter() {
        let Some(account) = account_of(item) else {
            return Ok(None);
        };
        accounts.push(account).map_err(|_| AllocError)?;
    }
    Ok(Some(accounts))
}

fn account_of(value: &Value) -> Option<Account<'_>>
    ensures { option_map account_text result ≡ option_and_then account_in (as_table (view value.entry.now)) }
{
    match value.as_table() {
        Some(table) => account_in(table),
        None => None,
    }
}

fn account_in(table: &Table) -> Option<Account<'_>>
    ensures { option_map account_text result ≡ account_in (table_view table.entry.now) }
{
    if first_unknown(table, &["nick", "password", "operator"]).is_some() {
        return None;
    }
    Some(Account {
        nick: text_at(table, "nick")?,
        password: text_at(table, "password")?,
        operator: truth_of(table, "operator")?,
    })
}
