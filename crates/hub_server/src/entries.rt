ghost use Rattle.std.specs.Prelude.{◌≡◌, ℕ, IfSome, IsSomeAnd, IfOk, IfErr, OnOk};
ghost use Rattle.std.specs.Arc.{arc_value};
ghost use Rattle.std.specs.Io.KnownBytes.{Appends, Keeps};
ghost use Rattle.hub_endings.specs.declared.ending.Ending.TheVariants.{Served};
ghost use Rattle.hub_connections.specs.Faults.{IsServerFault};
ghost use Rattle.hub_warnings.specs.Logged.{said_line};
ghost use Rattle.hub_server.specs.ServerEnd.{EndsServing, HasServed, IsServerEnding, report_line};

use crate::lifetime::serve_hub;
use adc_sessions::Stream;
use hub_connections::{BindPort, HubPort, Started, TcpPort, TcpTicket, Ticket};
use hub_endings::Ending;
use hub_listener::{Moments, Socket, moment};
use hub_settings::Settings;
use hub_shared::Report;
use hub_warnings::{EndLine, Journal, Moment, Warnings};
use log::{Level, Log, Logged, info};
use session_hash::SessionHash;
use std::alloc::AllocGlobal;
use std::io::Write;
use std::net::Net;
use std::random::RandomSource;
use std::sync::{Arc, Wait};
use std::thread::Threads;
use std::time::Clock;
use tokio::net::TcpStream;

/// Serves a hub with these settings, this hash, and challenges of this seed, and gives the exit status. With status 0 all that came
/// were served, as many as the settings say, and the output ends with the report (`specs/Reporting` has all that is promised).
///
/// On `output` it says `listening` and the address that was bound, as `a.b.c.d:port`, once all of its tasks came to be, and
/// at the end `joins`, the number of joins that were accepted, `present 0`. On `errors` goes a warning for each session
/// that ends by a fault of its connection or for want of memory, with the time, the peer's address and the cause. One more goes
/// there at the start where the system allows fewer descriptors than as many users need as the settings admit. Who writes
/// there waits: a writer that may take long is to keep the lines, as [`hub_warnings::QueueWriter`] does.
///
/// The status is 0 once as many connections were accepted as the settings say, and all are over. It is 3 where the address
/// cannot be had, or accepting failed 64 times in a row by a fault of the listener. It is 4 where memory or threads cannot
/// be had at the start, or the runtime cannot go on; 5 where the output failed. One line on `errors` says what went wrong.
pub fn serve_on<H, R, W, E>(
    rt: &R,
    settings: &Settings,
    hash: Arc<H>,
    seed: [u8; 32],
    output: &mut W,
    errors: &mut E,
) -> u8
where
    H: SessionHash + Send + Sync + Drop,
    R: Wait + Threads + Clock + Net + RandomSource + AllocGlobal + Sync,
    W: Write,
    E: Write + Send,
    ensures status { EndsServing E.contents errors.new result }
    ensures served { result ≡ 0 → (joins : ℕ) × HasServed
        ⟦<TcpTicket<H, R> as Ticket<TcpStream, H, R>>⟧.terms ⟦<TcpTicket<H, R> as Ticket<TcpStream, H, R>>⟧.number
        ⟦<TcpTicket<H, R> as Ticket<TcpStream, H, R>>⟧.peer ⟦<TcpTicket<H, R> as Ticket<TcpStream, H, R>>⟧.began ⟦<TcpStream as Stream>⟧.reports
        ⟦<TcpPort<H, R> as HubPort<TcpStream, TcpTicket<H, R>, H, R>>⟧.terms
        ⟦<TcpPort<H, R> as HubPort<TcpStream, TcpTicket<H, R>, H, R>>⟧.accepted ⟦<R as Moments>⟧.may_read W.contents settings.now.hub
        H.digest_of (arc_value hash) rt.now seed settings.now.listen settings.now.stop_after output.new joins }
{
    let address = settings.listen();
    serve_at::<TcpStream, TcpTicket<H, R>, TcpPort<H, R>, H, R, W, E>(
        rt, settings, hash, seed, address, output, errors,
    )
}

/// Serves as [`serve_on`] does, but listens at this address, wherever the settings say to listen.
pub fn serve_at<S, T, I, H, R, W, E>(
    rt: &R,
    settings: &Settings,
    hash: Arc<H>,
    seed: [u8; 32],
    address: I::Address,
    output: &mut W,
    errors: &mut E,
) -> u8
where
    S: Socket + Send,
    T: Ticket<S, H, R> + Send,
    I: BindPort<S, T, H, R> + Send,
    H: SessionHash + Send + Sync + Drop,
    R: Wait + Threads + Clock + Net + RandomSource + AllocGlobal + Sync,
    W: Write,
    E: Write + Send,
    ensures status { EndsServing E.contents errors.new result }
    ensures served { result ≡ 0 → (joins : ℕ) × HasServed T.terms T.number T.peer T.began ⟦<S as Stream>⟧.reports I.terms I.accepted ⟦<R as Moments>⟧.may_read
        W.contents settings.now.hub H.digest_of (arc_value hash) rt.now seed (I.place_of address) settings.now.stop_after output.new joins }
{
    let (status, _started) = run_to_status::<S, T, I, H, R, W, E>(
        rt, settings, hash, seed, address, None, output, errors,
    );
    status
}

/// Serves as [`serve_on`] does, where `errors` is the journal of systemd. Each warning begins with its priority there, as
/// `<4>`. A line at the start has the version, the path of the settings' file, the address, and how many descriptors are
/// needed and allowed; one at the end says why the server ended, and how many joins were accepted. Beside the status it gives what
/// was said at the start: with status 0 something was, with that path.
pub fn serve_for_journal<'p, H, R, W, E>(
    rt: &R,
    settings: &Settings,
    settings_file: &'p str,
    hash: Arc<H>,
    seed: [u8; 32],
    output: &mut W,
    errors: &mut E,
) -> (u8, Started<'p>)
where
    H: SessionHash + Send + Sync + Drop,
    R: Wait + Threads + Clock + Net + RandomSource + AllocGlobal + Sync,
    W: Write,
    E: Write + Send,
    ensures status { EndsServing E.contents errors.new result.0 }
    ensures served { result.0 ≡ 0 → (joins : ℕ) × HasServed
        ⟦<TcpTicket<H, R> as Ticket<TcpStream, H, R>>⟧.terms ⟦<TcpTicket<H, R> as Ticket<TcpStream, H, R>>⟧.number
        ⟦<TcpTicket<H, R> as Ticket<TcpStream, H, R>>⟧.peer ⟦<TcpTicket<H, R> as Ticket<TcpStream, H, R>>⟧.began ⟦<TcpStream as Stream>⟧.reports
        ⟦<TcpPort<H, R> as HubPort<TcpStream, TcpTicket<H, R>, H, R>>⟧.terms
        ⟦<TcpPort<H, R> as HubPort<TcpStream, TcpTicket<H, R>, H, R>>⟧.accepted ⟦<R as Moments>⟧.may_read W.contents settings.now.hub
        H.digest_of (arc_value hash) rt.now seed settings.now.listen settings.now.stop_after output.new joins }
    ensures told { result.0 ≡ 0 → IsSomeAnd result.1 (λ said. (said_line said).settings.now ≡ settings_file.now) }
{
    let address = settings.listen();
    let file = Some(settings_file);
    run_to_status::<TcpStream, TcpTicket<H, R>, TcpPort<H, R>, H, R, W, E>(
        rt, settings, hash, seed, address, file, output, errors,
    )
}

/// Serves, for the journal where there is a path of the settings' file, which it names.
fn run_to_status<'p, S, T, I, H, R, W, E>(
    rt: &R,
    settings: &Settings,
    hash: Arc<H>,
    seed: [u8; 32],
    address: I::Address,
    settings_file: Option<&'p str>,
    output: &mut W,
    errors: &mut E,
) -> (u8, Started<'p>)
where
    S: Socket + Send,
    T: Ticket<S, H, R> + Send,
    I: BindPort<S, T, H, R> + Send,
    H: SessionHash + Send + Sync + Drop,
    R: Wait + Threads + Clock + Net + RandomSource + AllocGlobal + Sync,
    W: Write,
    E: Write + Send,
    ensures status { EndsServing E.contents errors.new result.0 }
    ensures served { result.0 ≡ 0 → (joins : ℕ) × HasServed T.terms T.number T.peer T.began ⟦<S as Stream>⟧.reports I.terms I.accepted ⟦<R as Moments>⟧.may_read
        W.contents settings.now.hub H.digest_of (arc_value hash) rt.now seed (I.place_of address) settings.now.stop_after output.new joins }
    ensures told { result.0 ≡ 0 → IfSome settings_file.entry (λ path. IsSomeAnd result.1 (λ said. (said_line said).settings.now ≡ path.now)) }
{
    let log = Logged::new(
        (),
        Level::Info,
        Journal::new(rt, settings_file.is_some(), &mut *errors),
    );
    let (ending, started) = run_and_log_end::<S, T, I, H, R, W, _>(
        rt,
        settings,
        &*hash,
        seed,
        address,
        settings_file,
        output,
        log,
    );
    (ending.tell(errors), started)
}

/// Serves with this log, and says there at the end, for the journal, why it ended.
fn run_and_log_end<'p, S, T, I, H, R, W, L>(
    rt: &R,
    settings: &Settings,
    hash: &H,
    seed: [u8; 32],
    address: I::Address,
    settings_file: Option<&'p str>,
    output: &mut W,
    log: L,
) -> (Ending, Started<'p>)
where
    S: Socket + Send,
    T: Ticket<S, H, R> + Send,
    I: BindPort<S, T, H, R> + Send,
    H: SessionHash + Send + Sync,
    R: Wait + Threads + Clock + Net + RandomSource + AllocGlobal + Sync,
    W: Write,
    L: Log + Sync + Drop,
    ensures ending { IsServerEnding result.0 }
    ensures served { result.0 ≡ Served → (joins : ℕ) × HasServed T.terms T.number T.peer T.began ⟦<S as Stream>⟧.reports I.terms I.accepted ⟦<R as Moments>⟧.may_read
        W.contents settings.now.hub H.digest_of hash.now rt.now seed (I.place_of address) settings.now.stop_after output.new joins }
    ensures told { result.0 ≡ Served → IfSome settings_file.entry (λ path. IsSomeAnd result.1 (λ said. (said_line said).settings.now ≡ path.now)) }
{
    let warnings = Warnings::new(log);
    let served = run_and_report::<S, T, I, H, R, W, L>(
        rt,
        settings,
        hash,
        seed,
        address,
        settings_file,
        output,
        &warnings,
    );
    if settings_file.is_some() {
        say_end(rt, &warnings.log, &served);
    }
    drop(warnings);
    match served {
        Ok((_, started)) => (Ending::Served, started),
        Err(ending) => (ending, None),
    }
}

/// Says why a server ended, and how many joins were accepted, for who reads the journal.
fn say_end<R: Clock, L: Log>(rt: &R, log: &L, served: &Result<(u64, Started<'_>), Ending>) {
    let (ending, joins) = match served {
        Ok((joins, _)) => (Ending::Served, Some(*joins)),
        Err(ending) => (*ending, None),
    };
    let end = EndLine {
        moment: Moment::from_seconds(moment(rt)),
        why: reason_of(ending),
        joins,
    };
    info!(log; "{}", end);
}

/// Says why a server ended, for who reads the journal.
fn reason_of(ending: Ending) -> &'static str {
    match ending {
        Ending::Served => "as many connections were served as stop_after says",
        Ending::Address => "the address cannot be had, or accepting failed",
        Ending::Memory => "memory or threads cannot be had",
        Ending::Transfer => "standard output failed",
        Ending::Usage | Ending::Tables => "it was not started",
    }
}

/// Serves, says the report, and gives the number of joins that were accepted, and what the journal was told at the start.
fn run_and_report<'p, S, T, I, H, R, W, L>(
    rt: &R,
    settings: &Settings,
    hash: &H,
    seed: [u8; 32],
    address: I::Address,
    settings_file: Option<&'p str>,
    output: &mut W,
    warnings: &Warnings<L>,
) -> Result<(u64, Started<'p>), Ending>
where
    S: Socket + Send,
    T: Ticket<S, H, R> + Send,
    I: BindPort<S, T, H, R> + Send,
    H: SessionHash + Send + Sync,
    R: Wait + Threads + Clock + Net + RandomSource + AllocGlobal + Sync,
    W: Write,
    L: Log + Sync,
    ensures served { IfOk result (λ it. HasServed T.terms T.number T.peer T.began ⟦<S as Stream>⟧.reports I.terms I.accepted ⟦<R as Moments>⟧.may_read
        W.contents settings.now.hub H.digest_of hash.now rt.now seed (I.place_of address) settings.now.stop_after output.new it.0) }
    ensures told { IfOk result (λ it. IfSome settings_file.entry (λ path. IsSomeAnd it.1 (λ said. (said_line said).settings.now ≡ path.now))) }
    ensures ending { IfErr result IsServerFault }
{
    let served = serve_hub::<S, T, I, H, R, R, W, L>(
        rt,
        rt,
        settings,
        hash,
        seed,
        address,
        settings_file,
        output,
        warnings,
    )?;
    say_report(&served.report, output)?;
    Ok((served.report.joins, served.started))
}

fn say_report<W: Write>(report: &Report, output: &mut W) -> Result<(), Ending>
    ensures said { OnOk result (Appends (W.contents output.old) (W.contents output.new) (report_line report.now.joins report.now.present)) }
    ensures ending { IfErr result IsServerFault }
{
    match writeln!(output, "joins {} present {}", report.joins, report.present) {
        Ok(()) => flush(output),
        Err(_) => Err(Ending::Transfer),
    }
}

fn flush<W: Write>(output: &mut W) -> Result<(), Ending>
    ensures kept { OnOk result (Keeps (W.contents output.old) (W.contents output.new)) }
    ensures ending { IfErr result IsServerFault }
{
    match output.flush() {
        Ok(()) => Ok(()),
        Err(_) => Err(Ending::Transfer),
    }
}
