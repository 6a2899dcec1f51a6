ghost use Rattle.std.specs.Prelude.{◌≡◌};
ghost use Rattle.hub_rules.specs.Configured.{plain_for};

/// The options of a hub that are neither texts nor lists.
#[derive(Clone, Copy)]
pub struct PlainOptions {
    /// Admission of registered users alone, where it is true.
    pub registered_only: bool,
    /// The number of seconds between two searches of one user, at least.
    pub search_interval: u32,
    /// The number of connections that are admitted at once, from 1 to 900.
    pub max_users: u32,
    /// The moment at which the hub opens, in seconds.
    pub opening: u64,
}

impl PlainOptions {
    /// Gives those of a hub for so many users with nothing that settings may add, which opens at moment 0.
    pub fn for_users(max_users: u32) -> PlainOptions
        ensures { result ≡ plain_for max_users }
    {
        PlainOptions {
            registered_only: false,
            search_interval: 0,
            max_users,
            opening: 0,
        }
    }
}
