//! What a server is given by readers: its settings, the seed of its challenges, and Tiger's tables.
ghost use Rattle.std.specs.Prelude.{◌≡◌, ◌≢◌, length, IfOk, IfErr, IsErrOf, OnOk};
ghost use Rattle.std.specs.Io.KnownBytes.{Consumes};
ghost use Rattle.session_hash.specs.Tables.{words_from};
ghost use Rattle.hub_startup.specs.Files.{IsSeed, AreAllBytes, AreFirstBytes, AreTables, IsTablesFault, IsStartOf, StartsBy};

use crate::fault::StartFault;
use hub_endings::Ending;
use hub_settings::{Settings, SettingsFault, read_settings};
use session_hash::{TableTiger, TablesFault};
use std::alloc::Global;
use std::io::{self, Read};
use std::str;

/// One byte more than tables have, so that a file is seen that has too many.
const MOST_OF_TABLES: u64 = 8_193;

/// Reads the settings of a hub that opens at this moment, in seconds, to the reader's end.
pub(crate) fn settings_from<F: Read + Drop>(
    alloc: Global,
    reader: F,
    opening: u64,
) -> Result<Settings, StartFault>
    ensures { StartsBy (F.remaining reader) opening result }
{
    match all_of(alloc, reader) {
        Ok(bytes) => settings_of(alloc, &bytes, opening),
        Err(error) => Err(StartFault::of_file(&error, "file")),
    }
}

/// Reads all that is left.
fn all_of<F: Read + Drop>(alloc: Global, reader: F) -> io::Result<Vec<u8>>
    ensures { IfOk result (λ bytes. AreAllBytes (F.remaining reader) bytes.items) }
{
    let mut reader = reader;
    let mut bytes = Vec::new(alloc);
    reader.read_to_end(&mut bytes)?;
    Ok(bytes)
}

/// Reads the settings that these bytes are, for a hub that opens at this moment, in seconds.
fn settings_of(alloc: Global, bytes: &[u8], opening: u64) -> Result<Settings, StartFault>
    ensures { IsStartOf bytes.now opening result }
{
    let Ok(text) = str::from_utf8(bytes) else {
        return Err(StartFault::Settings("text"));
    };
    match read_settings(alloc, text, opening) {
        Ok(settings) => Ok(settings),
        Err(SettingsFault::Memory) => Err(StartFault::Ended(Ending::Memory)),
        Err(SettingsFault::Text) => Err(StartFault::Settings("text")),
        Err(SettingsFault::Key(key)) => Err(StartFault::Key(key)),
    }
}

/// Reads the next 32 bytes. It fails where fewer are left.
pub(crate) fn seed_from<F: Read>(reader: &mut F) -> io::Result<[u8; 32]>
    ensures seed { IfOk result (λ seed. IsSeed (F.remaining reader.old) seed) }
    ensures taken { IfOk result (λ seed. Consumes (F.remaining reader.old) (F.remaining reader.new) seed) }
{
    let mut seed = [0; 32];
    reader.read_exact(&mut seed)?;
    Ok(seed)
}

/// Reads the first bytes that are left, so many at most.
fn first_of<F: Read + Drop>(alloc: Global, reader: F, most: u64) -> io::Result<Vec<u8>>
    ensures { IfOk result (λ bytes. AreFirstBytes most (F.remaining reader) bytes.items) }
{
    let mut reader = reader.take(most);
    let mut bytes = Vec::new(alloc);
    reader.read_to_end(&mut bytes)?;
    Ok(bytes)
}

/// Makes Tiger with the tables that are left, to the reader's end.
pub(crate) fn tables_from<F: Read + Drop>(
    alloc: Global,
    reader: F,
) -> Result<TableTiger, StartFault>
    ensures tables { IfOk result (λ tables. AreTables (F.remaining reader) tables) }
    ensures faults { IfErr result IsTablesFault }
{
    match first_of(alloc, reader, MOST_OF_TABLES) {
        Ok(bytes) => tables_of(alloc, &bytes),
        Err(error) => Err(StartFault::of_tables(&error)),
    }
}

/// Makes Tiger with the tables that these bytes are.
fn tables_of(alloc: Global, bytes: &[u8]) -> Result<TableTiger, StartFault>
    ensures length { OnOk result (length bytes.now ≡ 8_192) }
    ensures words { IfOk result (λ tables. tables ≡ words_from 1024 bytes.now) }
    ensures other_length { length bytes.now ≢ 8_192 → IsErrOf result (StartFault.Ended Ending.Tables) }
    ensures faults { IfErr result IsTablesFault }
{
    match TableTiger::from_bytes(alloc, bytes) {
        Ok(tables) => Ok(tables),
        Err(TablesFault::Length) => Err(StartFault::Ended(Ending::Tables)),
        Err(TablesFault::Memory) => Err(StartFault::Ended(Ending::Memory)),
    }
}
