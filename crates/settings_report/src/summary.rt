use hub_settings::{HashName, Settings};
use std::net::SocketAddrV4;

/// A summary of settings in which nothing is at fault.
#[derive(Clone, Copy, Debug)]
pub struct Summary {
    /// The address at which the hub listens.
    pub listen: SocketAddrV4,
    /// By which hash identifiers and passwords are checked.
    pub hash: HashName,
    /// The number of accounts.
    pub accounts: usize,
    /// The number of entries of the menu.
    pub commands: usize,
    /// The number of descriptors that the hub needs: one for each connection that it admits, and 32.
    pub descriptors: u32,
}

/// The descriptors that a hub takes beside those of its connections.
const OWN_DESCRIPTORS: u32 = 32;

impl Summary {
    ghost use Rattle.std.specs.Prelude.{◌≡◌};
    ghost use Rattle.settings_report.specs.Summaries.{Summarizes, hash_word};

    pub(crate) fn of(settings: &Settings, accounts: usize, commands: usize) -> Summary
        ensures settings { Summarizes settings.now result }
        ensures accounts { result.accounts ≡ accounts }
        ensures commands { result.commands ≡ commands }
    {
        Summary {
            listen: settings.listen(),
            hash: settings.hash(),
            accounts,
            commands,
            descriptors: settings.setup().max_users() + OWN_DESCRIPTORS,
        }
    }

    /// The hash as the settings call it.
    pub fn hash_name(&self) -> &'static str
        ensures { result.now ≡ hash_word self.now.hash }
    {
        match self.hash {
            HashName::Tiger => "tiger",
            HashName::First24 => "first24",
        }
    }
}
