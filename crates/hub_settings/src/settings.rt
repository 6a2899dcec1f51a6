ghost use Rattle.std.specs.Prelude.{◌≡◌, IfOk};
ghost use Rattle.std.specs.Arc.{arc_value};
ghost use Rattle.hub_settings.specs.Settings.{settings_of};

use crate::hash_name::HashName;
use crate::plain_keys::PlainKeys;
use hub_setup::Setup;
use std::alloc::{AllocError, Global};
use std::marker::Model;
use std::net::SocketAddrV4;
use std::sync::Arc;

/// The settings that a file says.
pub struct Settings {
    setup: Arc<Setup>,
    listen: SocketAddrV4,
    hash: HashName,
    tables: String,
    threads: u32,
    stop_after: u32,
    seed_file: String,
}

impl Drop for Settings {
    fn drop(self) {
        let Settings {
            setup,
            listen: _,
            hash: _,
            tables,
            threads: _,
            stop_after: _,
            seed_file,
        } = self;
        drop(setup);
        drop(tables);
        drop(seed_file);
    }
}

impl Model for Settings {
    ghost use Rattle.std.specs.Arc.{arc_value};
    ghost use Rattle.std.specs.String.{string_bytes};
    ghost use Rattle.hub_settings.specs.Settings.{ServerSettings};

    ghost Value = { ServerSettings };

    ghost view = { λ s. record {
      hub = arc_value s.setup;
      listen = s.listen;
      hash = s.hash;
      tables = string_bytes s.tables;
      threads = s.threads;
      stop_after = s.stop_after;
      seed_file = string_bytes s.seed_file;
    } };
}

impl Settings {
    pub(crate) fn new(
        alloc: Global,
        setup: Setup,
        keys: &PlainKeys<'_>,
    ) -> Result<Settings, AllocError>
        ensures { IfOk result (λ s. s ≡ record (settings_of keys.now) { hub = setup }) }
    {
        Ok(Settings {
            setup: Arc::new(alloc, setup).map_err(|_| AllocError)?,
            listen: keys.listen,
            hash: keys.hash,
            tables: String::from_str(alloc, keys.tables)?,
            threads: keys.threads,
            stop_after: keys.stop_after,
            seed_file: String::from_str(alloc, keys.seed_file)?,
        })
    }

    /// Gives the hub's setup.
    pub fn setup(&self) -> &Arc<Setup>
        ensures { arc_value result.now ≡ self.now.hub }
    {
        &self.setup
    }

    /// Gives the address and port where the hub listens.
    pub fn listen(&self) -> SocketAddrV4
        ensures { result ≡ self.now.listen }
    {
        self.listen
    }

    /// Gives the session hash.
    pub fn hash(&self) -> HashName
        ensures { result ≡ self.now.hash }
    {
        self.hash
    }

    /// Gives the file of Tiger's tables.
    pub fn tables(&self) -> &str
        ensures { result.now ≡ self.now.tables }
    {
        self.tables.as_str()
    }

    /// Gives how many threads serve.
    pub fn threads(&self) -> u32
        ensures { result ≡ self.now.threads }
    {
        self.threads
    }

    /// Gives the number of accepted connections after which the hub closes; 0 is never.
    pub fn stop_after(&self) -> u32
        ensures { result ≡ self.now.stop_after }
    {
        self.stop_after
    }

    /// Gives the file whose first 32 bytes seed the challenges.
    pub fn seed_file(&self) -> &str
        ensures { result.now ≡ self.now.seed_file }
    {
        self.seed_file.as_str()
    }
}
