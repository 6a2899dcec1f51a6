use std::alloc::AllocError;
use std::marker::Model;
use thiserror::Error;

/// A key of a settings file.
#[derive(Debug, Drop)]
pub struct KeyName {
    name: String,
}

impl Model for KeyName {
    ghost use Rattle.std.specs.Prelude.{ℕ, List};
    ghost use Rattle.std.specs.String.{string_bytes};

    ghost Value = { List ℕ };

    ghost view = { λ key. string_bytes key.name };
}

impl KeyName {
    ghost use Rattle.std.specs.Prelude.{◌≡◌};
    ghost use Rattle.std.specs.String.{string_bytes};

    pub(crate) fn new(name: String) -> KeyName
        ensures { result ≡ string_bytes name }
    {
        KeyName { name }
    }

    /// Gives the key as it is written.
    pub fn as_str(&self) -> &str
        ensures { result.now ≡ self.now }
    {
        self.name.as_str()
    }
}

/// The cause for which a settings file was refused, looked for in the order 2, 3, 1.
#[derive(Debug, Drop, Error)]
pub enum SettingsFault {
    /// 1: memory ran out.
    #[error("memory ran out")]
    Memory,
    /// 2: it is no TOML.
    #[error("the settings are no TOML")]
    Text,
    /// 3: the value at this key is of another kind or out of range, or the key is none that is known.
    #[error("a key of the settings is not allowed")]
    Key(KeyName),
}

/// The cause for which a table was refused.
#[derive(Clone, Copy)]
pub(crate) enum SettingRefusal<'a> {
    /// Memory ran out.
    Memory,
    /// The value at this key, or the key itself.
    Key(&'a str),
}

impl From<AllocError> for SettingRefusal<'_> {
    ghost use Rattle.std.specs.Prelude.{◌≡◌};
    ghost use Rattle.hub_settings.specs.declared.fault.SettingRefusal.TheVariants.{Memory};

    ghost from_gives = { λ _ refusal. refusal ≡ Memory };

    fn from(_: AllocError) -> Self {
        SettingRefusal::Memory
    }
}
