ghost use Rattle.std.specs.Prelude.{◌≡◌, ◌≤◌, length, map, IfErr};
ghost use Rattle.std.specs.List.{list_any};
ghost use Rattle.std.specs.Option.{option_copied};
ghost use Rattle.std.specs.Str.{bytes_eq};
ghost use Rattle.hub_rules.specs.Accounts.{account_with};
ghost use Rattle.hub_setup.specs.Settings.{GivesList, account_text, accounts_of, are_distinct, most_accounts, registered_user, registered_users};

use crate::options::{Account, MOST_ACCOUNTS};
use crate::refused::ListRefused;
use adc_ids::{Nick, NickFault};
use std::alloc::Global;
use std::marker::Model;

/// A registered user of a hub.
#[derive(Drop)]
pub struct Registered {
    key: String,
    password: String,
    operator: bool,
}

impl Model for Registered {
    ghost use Rattle.hub_rules.specs.Configured.{ConfiguredAccount};

    ghost Value = { ConfiguredAccount };

    ghost use Rattle.std.specs.String.{string_bytes};

    ghost view = { λ r. record { key = string_bytes r.key; password = string_bytes r.password; operator = r.operator } };
}

impl Registered {
    /// Answers whether the user may kick and ban, and set the topic.
    pub fn is_operator(&self) -> bool
        ensures { result ≡ self.now.operator }
    {
        self.operator
    }

    /// Gives the key by which its nick is found.
    pub(crate) fn key(&self) -> &str
        ensures { result.now ≡ self.now.key }
    {
        &self.key
    }

    /// Gives the password, which is not empty.
    pub(crate) fn password(&self) -> &str
        ensures { result.now ≡ self.now.password }
    {
        &self.password
    }
}

/// The registered users of a hub: at most 32, no two of them with nicks of one normal form C.
#[derive(Drop)]
pub struct Accounts {
    users: Vec<Registered>,
}

impl Model for Accounts {
    ghost use Rattle.std.specs.Prelude.{List};
    ghost use Rattle.hub_rules.specs.Configured.{ConfiguredAccount};

    ghost Value = { List ConfiguredAccount };

    ghost view = { λ a. a.users.items };
}

impl Accounts {
    /// Makes the registered users that these accounts describe.
    ///
    /// Refused, by the first that applies: `Limit` over 32 accounts; `Entry` where a nick is none (1 to 64 code points, each
    /// above 32: ADC 1.0, "INF"), a password is empty, or two nicks have one normal form C. `Memory` where memory runs out
    /// before it was seen that an entry is at fault.
    #[tactic(auto, unfolding(crate::specs::Settings::accounts_of))]
    pub fn new(alloc: Global, accounts: &[Account<'_>]) -> Result<Accounts, ListRefused>
        ensures exact { GivesList (λ users. users) result (accounts_of (map account_text accounts.now)) }
        ensures memory { IfErr result (λ fault. fault ≡ ListRefused.Memory → length accounts.now ≤ most_accounts) }
    {
        if accounts.len() > MOST_ACCOUNTS {
            return Err(ListRefused::Limit);
        }
        let users = registered_users(alloc, accounts)?;
        if !are_distinct(&users) {
            return Err(ListRefused::Entry);
        }
        Ok(Accounts { users })
    }

    /// Finds the user whose nick has this key, its normal form C. Takes no memory.
    pub(crate) fn find(&self, key: &str) -> Option<&Registered>
        ensures { option_copied result ≡ account_with key.now self.now }
    {
        find_user(&self.users, key)
    }
}

fn registered_users(alloc: Global, accounts: &[Account<'_>]) -> Result<Vec<Registered>, ListRefused>
    ensures { GivesList (λ users. users.items) result (registered_users (map account_text accounts.now)) }
{
    let mut users = Vec::with_capacity(alloc, accounts.len())?;
    for account in accounts {
        users
            .push(registered_user(alloc, account)?)
            .map_err(|_| ListRefused::Memory)?;
    }
    Ok(users)
}

fn registered_user(alloc: Global, account: &Account<'_>) -> Result<Registered, ListRefused>
    ensures { GivesList (λ user. user) result (registered_user (account_text account.now)) }
{
    if account.password.is_empty() {
        return Err(ListRefused::Entry);
    }
    let nick = match Nick::parse(alloc, account.nick) {
        Ok(nick) => nick,
        Err(NickFault::Memory) => return Err(ListRefused::Memory),
        Err(NickFault::Invalid) => return Err(ListRefused::Entry),
    };
    Ok(Registered {
        key: nick.key(alloc)?,
        password: String::from_str(alloc, account.password)?,
        operator: account.operator,
    })
}

/// Answers whether no two have one key.
#[tactic(auto, unfolding(crate::specs::Settings::are_distinct))]
fn are_distinct(users: &[Registered]) -> bool
    ensures { result ≡ are_distinct (map (λ user. user.key) users.now) }
{
    let mut left = users;
    'users: while let [user, others @ ..] = left {
        if has_key(others, user.key()) {
            return false;
        }
        left = others;
    }
    true
}

/// Answers whether one of them has the key.
fn has_key(users: &[Registered], key: &str) -> bool
    ensures { result ≡ list_any (bytes_eq key.now) (map (λ user. user.key) users.now) }
{
    'users: for user in users {
        if key == user.key() {
            return true;
        }
    }
    false
}

#[tactic(auto, unfolding(hub_rules::specs::Accounts::account_with))]
fn find_user<'a>(users: &'a [Registered], key: &str) -> Option<&'a Registered>
    ensures { option_copied result ≡ account_with key.entry.now users.entry.now }
{
    'users: for user in users {
        if user.key() == key {
            return Some(user);
        }
    }
    None
}
