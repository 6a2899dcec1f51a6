ghost use Rattle.std.specs.Prelude.{◌≡◌, ◌≢◌, [], Ok, length};
ghost use Rattle.hub_rules.specs.Configured.{plain_hub};
ghost use Rattle.hub_setup.specs.Settings.{configured_hub, hub_with};

use hub_rules::PlainOptions;

/// The most registered users that a hub may have.
pub const MOST_ACCOUNTS: usize = 32;

/// The most entries that a hub may have for the clients' menus.
pub const MOST_COMMANDS: usize = 64;

/// The most connections that a hub may be set up to admit.
pub const MOST_USERS: u32 = 900;

/// The number of connections that a hub admits at once where its settings say no other.
pub const DEFAULT_USERS: u32 = 512;

/// A registered user.
#[derive(Clone, Copy)]
pub struct Account<'a> {
    /// The nick: 1 to 64 code points, each above 32 (ADC 1.0, the field NI of "INF").
    pub nick: &'a str,
    /// The password, which is not empty.
    pub password: &'a str,
    /// The right to kick and ban, and to set the topic, where it is true.
    pub operator: bool,
}

/// The item for which a menu entry of a client stands (ADC-EXT, "UCMD").
#[derive(Clone, Copy)]
pub enum MenuItem<'a> {
    /// The text that the client sends.
    Text(&'a str),
    /// A line between entries.
    Separator,
}

/// An entry for the clients' menus (ADC-EXT, "UCMD").
#[derive(Clone, Copy)]
pub struct MenuEntry<'a> {
    /// The name of the entry, which is not empty.
    pub name: &'a str,
    /// The places where it is shown, 1 to 15: the sum of 1 (hub), 2 (user), 4 (search) and 8 (file list).
    pub context: u8,
    /// The item for which it stands.
    pub item: MenuItem<'a>,
}

/// The options with which a hub is to be set up.
#[derive(Clone, Copy)]
pub struct Options<'a> {
    /// The hub's name, not empty.
    pub name: &'a str,
    /// The topic, which may be empty.
    pub topic: &'a str,
    /// The registered users, at most 32, no two with nicks of one normal form C.
    pub accounts: &'a [Account<'a>],
    /// The entries for the clients' menus, at most 64.
    pub commands: &'a [MenuEntry<'a>],
    /// What is neither a text nor a list.
    pub plain: PlainOptions,
}

impl<'a> Options<'a> {
    /// Gives the options of a hub of this name with nothing that settings may add, for 512 users, that opens at moment 0.
    /// An empty name is kept, and refused by `Setup::new`.
    #[tactic(auto, unfolding(crate::specs::Settings::configured_hub, crate::specs::Settings::accounts_of, crate::specs::Settings::are_distinct, crate::specs::Settings::menu_of))]
    pub fn named(name: &'a str) -> Options<'a>
        ensures hub { hub_with result [] [] ≡ plain_hub name.entry.now }
        ensures accounts { result.accounts.now ≡ [] }
        ensures commands { result.commands.now ≡ [] }
        ensures configured { length name.entry.now ≢ 0 → configured_hub result ≡ Ok (plain_hub name.entry.now) }
    {
        Options {
            name,
            topic: "",
            accounts: &[],
            commands: &[],
            plain: PlainOptions::for_users(DEFAULT_USERS),
        }
    }
}
