ghost use Rattle.std.specs.Prelude.{◌≡◌, ℕ, IfOk, IfErr, MatchResult};
ghost use Rattle.std.specs.Arc.{arc_value};
ghost use Rattle.counted_io.specs.Parts.{AppendsFront};
ghost use Rattle.hub_startup.specs.Endings.{status_by, message_by, KeepsFromStarting};
ghost use Rattle.hub_program.specs.Starting.{AreAt, EndsServer, IsHash, IsSeedAt};
ghost use Rattle.hub_server.specs.ServerEnd.{EndsServing, Reports};

use hub_server::{serve_for_journal, serve_on};
use hub_settings::{HashName, Settings};
use hub_startup::{Opens, StartFault, has_journal, seed_in, settings_in, tables_in};
use session_hash::{First24, SessionHash};
use std::alloc::AllocGlobal;
use std::env::Env;
use std::io::Write;
use std::net::Net;
use std::random::RandomSource;
use std::sync::{Arc, Wait};
use std::thread::Threads;
use std::time::Clock;

/// Serves the hub of this settings file, and gives the exit status. Faults are looked for in the settings, the seed file,
/// the file of Tiger's tables if the hash is Tiger, and then the address.
pub(crate) fn serve_file<R, W, E>(rt: &R, path: &str, output: &mut W, errors: &mut E) -> u8
where
    R: Wait + Threads + Clock + Net + RandomSource + AllocGlobal + Opens + Env + Sync,
    W: Write,
    E: Write + Send,
    ensures status { EndsServer E.contents errors.new result }
    ensures served { result ≡ 0 → (joins : ℕ) × Reports W.contents output.new joins }
{
    let served = start(rt, path, output, errors);
    end(served, errors)
}

/// Gives the exit status of a server that served, and says what kept it from its start, if anything did.
fn end<E: Write>(served: Result<u8, StartFault>, errors: &mut E) -> u8
    ensures status { MatchResult served (λ status. result ≡ status) (λ fault. result ≡ status_by fault) }
    ensures tells { MatchResult served (λ _. errors.new ≡ errors.old)
        (λ fault. AppendsFront (E.contents errors.old) (E.contents errors.new) (message_by fault)) }
{
    match served {
        Ok(status) => status,
        Err(fault) => fault.tell(errors),
    }
}

/// Reads the settings of this file and serves their hub.
fn start<R, W, E>(rt: &R, path: &str, output: &mut W, errors: &mut E) -> Result<u8, StartFault>
where
    R: Wait + Threads + Clock + Net + RandomSource + AllocGlobal + Opens + Env + Sync,
    W: Write,
    E: Write + Send,
    ensures fault { IfErr result KeepsFromStarting }
    ensures status { IfOk result (EndsServing E.contents errors.new) }
    ensures served { IfOk result (λ status. status ≡ 0 → (joins : ℕ) × Reports W.contents output.new joins) }
{
    let settings = settings_in(rt, path)?;
    let served = serve_hashing(rt, &settings, path, output, errors);
    drop(settings);
    served
}

/// Serves the hub of these settings, which stand in this file, with their seed and their hash.
fn serve_hashing<R, W, E>(
    rt: &R,
    settings: &Settings,
    path: &str,
    output: &mut W,
    errors: &mut E,
) -> Result<u8, StartFault>
where
    R: Wait + Threads + Clock + Net + RandomSource + AllocGlobal + Opens + Env + Sync,
    W: Write,
    E: Write + Send,
    requires { AreAt R.opens R.Opened.remaining rt.now path.now settings.now }
    ensures fault { IfErr result KeepsFromStarting }
    ensures status { IfOk result (EndsServing E.contents errors.new) }
    ensures served { IfOk result (λ status. status ≡ 0 → (joins : ℕ) × Reports W.contents output.new joins) }
{
    let seed = seed_in(rt, settings.seed_file())?;
    match settings.hash() {
        HashName::First24 => {
            let hash = Arc::new(rt.alloc(), First24)?;
            Ok(serve(rt, settings, path, hash, seed, output, errors))
        }
        HashName::Tiger => {
            let hash = Arc::new(rt.alloc(), tables_in(rt, settings.tables())?)?;
            Ok(serve(rt, settings, path, hash, seed, output, errors))
        }
    }
}

/// Serves the hub of these settings, which stand in this file, with the hash that they name, and a seed that was read.
fn serve<H, R, W, E>(
    rt: &R,
    settings: &Settings,
    path: &str,
    hash: Arc<H>,
    seed: [u8; 32],
    output: &mut W,
    errors: &mut E,
) -> u8
where
    H: SessionHash + Send + Sync + Drop,
    R: Wait + Threads + Clock + Net + RandomSource + AllocGlobal + Opens + Env + Sync,
    W: Write,
    E: Write + Send,
    requires settings { AreAt R.opens R.Opened.remaining rt.now path.now settings.now }
    requires hash { IsHash R.opens R.Opened.remaining rt.now settings.now.hash settings.now.tables (H.digest_of (arc_value hash)) }
    requires seed { IsSeedAt R.opens R.Opened.remaining rt.now settings.now.seed_file seed }
    ensures status { EndsServing E.contents errors.new result }
    ensures served { result ≡ 0 → (joins : ℕ) × Reports W.contents output.new joins }
{
    if has_journal(rt) {
        let (status, _said) = serve_for_journal(rt, settings, path, hash, seed, output, errors);
        status
    } else {
        serve_on(rt, settings, hash, seed, output, errors)
    }
}
