ghost use Rattle.std.specs.Prelude.{◌≡◌, ◌≢◌, ◌≤◌, ◌++◌, length, map, IfOk, IfErr};
ghost use Rattle.std.specs.Option.{option_copied};
ghost use Rattle.hub_rules.specs.Accounts.{account_with};
ghost use Rattle.hub_rules.specs.Texts.{menu_line};
ghost use Rattle.hub_rules.specs.Configured.{most_users};
ghost use Rattle.hub_setup.specs.Settings.{configured_hub, hub_with, is_past_limit, IsConfigured, IsNamedWithinLimits};

use crate::accounts::{Accounts, Registered};
use crate::menu::Menu;
use crate::options::{MOST_ACCOUNTS, MOST_COMMANDS, MOST_USERS, Options};
use crate::refused::{ListRefused, SetupRefused};
use hub_rules::PlainOptions;
use outboxes::Batch;
use std::alloc::{AllocError, Global};
use std::marker::Model;

/// The setup of a hub.
pub struct Setup {
    name: String,
    topic: String,
    accounts: Accounts,
    menu: Menu,
    plain: PlainOptions,
}

impl Drop for Setup {
    fn drop(self) {
        let Setup {
            name,
            topic,
            accounts,
            menu,
            plain: _,
        } = self;
        drop(name);
        drop(topic);
        drop(accounts);
        drop(menu);
    }
}

impl Model for Setup {
    ghost use Rattle.std.specs.Prelude.{◌≤◌};
    ghost use Rattle.std.specs.String.{string_bytes};
    ghost use Rattle.hub_rules.specs.Configured.{Configured};
    ghost use Rattle.hub_rules.specs.Configured.{most_users};
    ghost use Rattle.hub_setup.specs.Settings.{hub_of};

    ghost Value = { Configured };

    ghost view = { λ s. hub_of (string_bytes s.name) (string_bytes s.topic) s.accounts s.menu s.plain };

    ghost invariant = { λ s. (1 ≤ s.plain.max_users) × (s.plain.max_users ≤ most_users) };
}

impl Setup {
    /// Makes the setup that the options describe. The messages of the menu are written here, once.
    ///
    /// Refused, by the first that applies: `Limit` over 32 accounts, over 64 menu entries, or where not 1 to 900
    /// connections are to be admitted; `Name` where the name is empty. Then `Account`: a nick is none (1 to 64 code points,
    /// each above 32: ADC 1.0, "INF"), a password is empty, or two nicks have one normal form C. Then `Command`: a menu
    /// entry has no name or a context that is not 1 to 15 (ADC-EXT, "UCMD"). `Memory` where memory runs out before a fault
    /// that is looked for later was found.
    #[tactic(auto, unfolding(crate::specs::Settings::configured_hub))]
    pub fn new(alloc: Global, options: &Options<'_>) -> Result<Setup, SetupRefused>
        ensures exact { IsConfigured result (configured_hub options.now) }
        ensures memory { IfErr result (λ fault. fault ≡ SetupRefused.Memory → IsNamedWithinLimits options.now) }
    {
        if is_past_limit(options) {
            return Err(SetupRefused::Limit);
        }
        if options.name.is_empty() {
            return Err(SetupRefused::Name);
        }
        let accounts = match Accounts::new(alloc, options.accounts) {
            Ok(accounts) => accounts,
            Err(ListRefused::Memory) => return Err(SetupRefused::Memory),
            Err(ListRefused::Limit) => return Err(SetupRefused::Limit),
            Err(ListRefused::Entry) => return Err(SetupRefused::Account),
        };
        let menu = match Menu::new(alloc, options.commands) {
            Ok(menu) => menu,
            Err(ListRefused::Memory) => return Err(SetupRefused::Memory),
            Err(ListRefused::Limit) => return Err(SetupRefused::Limit),
            Err(ListRefused::Entry) => return Err(SetupRefused::Command),
        };
        Ok(Setup::with_lists(alloc, options, accounts, menu)?)
    }

    /// Makes the setup of options that have a name and admit 1 to 900 connections, with these accounts and this menu in
    /// place of their lists, which are not looked at. Refused only where memory runs out.
    pub fn with_lists(
        alloc: Global,
        options: &Options<'_>,
        accounts: Accounts,
        menu: Menu,
    ) -> Result<Setup, AllocError>
        requires named { length options.now.name.now ≢ 0 }
        requires some { 1 ≤ options.now.plain.max_users }
        requires few { options.now.plain.max_users ≤ most_users }
        ensures { IfOk result (λ setup. setup ≡ hub_with options.now accounts menu) }
    {
        Ok(Setup {
            name: String::from_str(alloc, options.name)?,
            topic: String::from_str(alloc, options.topic)?,
            accounts,
            menu,
            plain: options.plain,
        })
    }

    /// Gives the hub's name, not empty.
    pub fn name(&self) -> &str
        ensures { result.now ≡ self.now.name }
    {
        self.name.as_str()
    }

    /// Gives the topic at the opening; it may be empty.
    pub fn topic(&self) -> &str
        ensures { result.now ≡ self.now.topic }
    {
        self.topic.as_str()
    }

    /// Gives what is set beside texts and lists.
    pub fn plain(&self) -> PlainOptions
        ensures { result ≡ self.now.plain }
    {
        self.plain
    }

    /// Answers whether only registered users are admitted.
    pub fn registered_only(&self) -> bool
        ensures { result ≡ self.now.plain.registered_only }
    {
        self.plain.registered_only
    }

    /// Gives how many seconds lie between two searches of one user, at least.
    pub fn search_interval(&self) -> u64
        ensures { result ≡ self.now.plain.search_interval }
    {
        u64::from(self.plain.search_interval)
    }

    /// Gives the moment at which the hub opens, in seconds.
    pub fn opening(&self) -> u64
        ensures { result ≡ self.now.plain.opening }
    {
        self.plain.opening
    }

    /// Gives how many connections are admitted at once, from 1 to 900.
    pub fn max_users(&self) -> u32
        ensures exact { result ≡ self.now.plain.max_users }
        ensures some { 1 ≤ self.now.plain.max_users }
        ensures few { self.now.plain.max_users ≤ most_users }
    {
        self.plain.max_users
    }

    /// Gives the registered user whose nick has this key, its normal form C. Takes no memory.
    pub fn account(&self, key: &str) -> Option<&Registered>
        ensures { option_copied result ≡ account_with key.now self.now.accounts }
    {
        self.accounts.find(key)
    }

    /// Makes a batch with the messages behind its own that tell a client of the menu (ADC-EXT, "UCMD"). They are shared and
    /// not written again. Refused only where memory runs out; the batch is then lost.
    pub fn menu(&self, batch: Batch) -> Result<Batch, AllocError>
        ensures { IfOk result (λ all. all ≡ batch ++ map menu_line self.now.menu) }
    {
        self.menu.add_to(batch)
    }
}

fn is_past_limit(options: &Options<'_>) -> bool
    ensures { result ≡ is_past_limit options.now }
{
    options.accounts.len() > MOST_ACCOUNTS
        || options.commands.len() > MOST_COMMANDS
        || options.plain.max_users == 0
        || options.plain.max_users > MOST_USERS
}
