//! What a server is given by files. Each is opened here, and read by what reads any reader.
ghost use Rattle.std.specs.Prelude.{IfOk, IfErr, codes, ℕ};
ghost use Rattle.hub_startup.specs.Files.{IsFileFault, IsSeed, AreTables, IsTablesFault, StartsAt, HasAt};

use crate::fault::StartFault;
use crate::opens::Opens;
use crate::reading::{seed_from, settings_from, tables_from};
use hub_listener::Moments;
use hub_settings::Settings;
use session_hash::TableTiger;
use std::alloc::AllocGlobal;

/// Reads the settings of this file, for a hub that opens now.
pub fn settings_in<R: Moments + AllocGlobal + Opens>(
    rt: &R,
    path: &str,
) -> Result<Settings, StartFault>
    ensures { (opening : ℕ) × R.may_read rt.now opening × StartsAt R.opens R.Opened.remaining rt.now path.now opening result }
{
    let opening = rt.moment_of_call().into_seconds();
    match rt.open_at(path).into_inner() {
        Ok(file) => settings_from(rt.alloc(), file, opening),
        Err(error) => Err(StartFault::of_file(&error, "file")),
    }
}

/// Reads the first 32 bytes of this file.
pub fn seed_in<R: Opens>(rt: &R, path: &str) -> Result<[u8; 32], StartFault>
    ensures seed { IfOk result (λ seed. HasAt R.opens R.Opened.remaining rt.now path.now (λ left. IsSeed left seed)) }
    ensures faults { IfErr result (IsFileFault (codes "seed_file")) }
{
    let read = match rt.open_at(path).into_inner() {
        Ok(file) => {
            let mut file = file;
            seed_from(&mut file)
        }
        Err(error) => Err(error),
    };
    match read {
        Ok(seed) => Ok(seed),
        Err(error) => Err(StartFault::of_file(&error, "seed_file")),
    }
}

/// Makes Tiger with the tables of this file.
pub fn tables_in<R: AllocGlobal + Opens>(rt: &R, path: &str) -> Result<TableTiger, StartFault>
    ensures tables { IfOk result (λ tables. HasAt R.opens R.Opened.remaining rt.now path.now (λ left. AreTables left tables)) }
    ensures faults { IfErr result IsTablesFault }
{
    match rt.open_at(path).into_inner() {
        Ok(file) => tables_from(rt.alloc(), file),
        Err(error) => Err(StartFault::of_tables(&error)),
    }
}
