ghost use Rattle.std.specs.Prelude.{◌≡◌, ◌≢◌};
ghost use Rattle.std.specs.IoError.{error_kind};
ghost use Rattle.counted_io.specs.Parts.{AppendsFront};
ghost use Rattle.hub_startup.specs.Endings.{status_by, message_by, key_message};
ghost use Rattle.hub_startup.specs.Files.{IsFileFault, IsTablesFault};

use counted_io::write_and_flush;
use hub_endings::Ending;
use hub_settings::KeyName;
use std::alloc::{AllocError, AllocFailed};
use std::io::{self, ErrorKind, Write};

/// The cause for which no server was started.
#[derive(Drop)]
pub enum StartFault {
    /// The settings, or a file that they name, by this word.
    Settings(&'static str),
    /// The settings, by this key of theirs.
    Key(KeyName),
    /// Another cause, by which the program ends.
    Ended(Ending),
}

impl StartFault {
    /// Says in one line on `errors` what is at fault, and gives the exit status: 1 for the settings, and else that of the ending. That
    /// it cannot be written changes nothing.
    pub fn tell<E: Write>(self, errors: &mut E) -> u8
        ensures status { result ≡ status_by self }
        ensures tells { AppendsFront (E.contents errors.old) (E.contents errors.new) (message_by self) }
    {
        match self {
            StartFault::Settings(word) => say_key(word, errors),
            StartFault::Key(key) => say_key(key.as_str(), errors),
            StartFault::Ended(ending) => ending.tell(errors),
        }
    }

    /// Tells what it means that a file could not be read which this word stands for.
    pub(crate) fn of_file(error: &io::Error, word: &'static str) -> StartFault
        ensures file { IsFileFault word.now result }
        ensures memory { error_kind error.now ≡ ErrorKind.OutOfMemory → result ≡ StartFault.Ended Ending.Memory }
        ensures other { error_kind error.now ≢ ErrorKind.OutOfMemory → result ≡ StartFault.Settings word.entry }
    {
        match error.kind() {
            ErrorKind::OutOfMemory => StartFault::Ended(Ending::Memory),
            _ => StartFault::Settings(word),
        }
    }

    /// Tells what it means that the file of Tiger's tables could not be read.
    pub(crate) fn of_tables(error: &io::Error) -> StartFault
        ensures tables { IsTablesFault result }
        ensures memory { error_kind error.now ≡ ErrorKind.OutOfMemory → result ≡ StartFault.Ended Ending.Memory }
        ensures other { error_kind error.now ≢ ErrorKind.OutOfMemory → result ≡ StartFault.Ended Ending.Tables }
    {
        match error.kind() {
            ErrorKind::OutOfMemory => StartFault::Ended(Ending::Memory),
            _ => StartFault::Ended(Ending::Tables),
        }
    }
}

impl From<AllocError> for StartFault {
    ghost use Rattle.std.specs.Prelude.{◌≡◌};
    ghost use Rattle.hub_endings.specs.declared.ending.Ending.TheVariants.{Memory};
    ghost use Rattle.hub_startup.specs.declared.fault.StartFault.TheVariants.{Ended};

    ghost from_gives = { λ _ fault. fault ≡ Ended Memory };

    fn from(_: AllocError) -> StartFault {
        StartFault::Ended(Ending::Memory)
    }
}

impl<T: Drop> From<AllocFailed<T>> for StartFault {
    ghost use Rattle.std.specs.Prelude.{◌≡◌};
    ghost use Rattle.hub_endings.specs.declared.ending.Ending.TheVariants.{Memory};
    ghost use Rattle.hub_startup.specs.declared.fault.StartFault.TheVariants.{Ended};

    ghost from_gives = { λ _ fault. fault ≡ Ended Memory };

    fn from(_: AllocFailed<T>) -> StartFault {
        StartFault::Ended(Ending::Memory)
    }
}

/// Says which key of the settings is at fault, and gives the status.
fn say_key<E: Write>(key: &str, errors: &mut E) -> u8
    ensures status { result ≡ 1 }
    ensures tells { AppendsFront (E.contents errors.old) (E.contents errors.new) (key_message key.now) }
{
    // Nobody is left to hear that the message could not be written.
    let _ = write_key(key, errors);
    1
}

/// Writes which key of the settings is at fault.
fn write_key<E: Write>(key: &str, errors: &mut E) -> io::Result<()>
    ensures { AppendsFront (E.contents errors.old) (E.contents errors.new) (key_message key.now) }
{
    write_and_flush(errors, b"adc_hub: settings: ")?;
    write_and_flush(errors, key.as_bytes())?;
    write_and_flush(errors, b"\n")
}
