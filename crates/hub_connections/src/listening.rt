ghost use Rattle.std.specs.Prelude.{◌≡◌, ◌≢◌, ℕ, List, Some, None, Err, IfSome, IsSomeAnd, IfOk, IfErr, OnOk};
ghost use Rattle.std.specs.IoError.{error_kind};
ghost use Rattle.hub_warnings.specs.Logged.{said_line};
ghost use Rattle.server_tasks.specs.declared.state.ServerFault.{ServerFault};
ghost use Rattle.hub_connections.specs.Faults.{IsServerFault, ending_by};
ghost use Rattle.hub_connections.specs.Arrivals.{Arrives};
ghost use Rattle.hub_connections.specs.Stop.{AreTerms, HasStopped, stop_of};

use crate::acceptor::Acceptor;
use crate::arrivals::Arrivals;
use crate::free_slot::OfHub;
use crate::plan::{Plan, slot_count};
use crate::port::{BindPort, HubPort};
use crate::server::Server;
use crate::task::AcceptTask;
use crate::tasks::Tasks;
use crate::terms::Terms;
use crate::ticket::Ticket;
use adc_sessions::Accept;
use hub_endings::Ending;
use hub_listener::{Listener, Moments, Socket, say_start, warn_of_descriptors};
use hub_settings::Settings;
use hub_warnings::{Said, Start, Warnings};
use hub_workers::Workers;
use log::Log;
use server_tasks::{ServerFault, Startup, Ticker};
use session_hash::SessionHash;
use std::alloc::AllocGlobal;
use std::io::{self, ErrorKind, Write};
use std::net::{Net, SocketAddr};
use std::snapshot::Snapshot;
use std::sync::Wait;
use std::time::{Clock, Duration};
use tokio::time::{self, Sleep};

/// What the journal was told as a server began to listen, where it is to have it.
pub type Started<'p> = Option<Said<Start<'p>>>;

/// All tasks of a server, and what the journal was told at its start.
type Made<'a, 'p, B, S, T, H, R, C, L, I, W> = (Tasks<'a, B, S, T, H, R, C, L, I, W>, Started<'p>);

/// Listens at this address, and makes all tasks of the server, with timers and a socket of these workers. The task that accepts
/// connections deals them the challenges of this seed, in their order, and stops once as many came as the settings say. Where the
/// plan has the path of the settings' file, the journal was told it.
///
/// The server's end is `Address` where the address cannot be had, and `Memory` where memory runs out.
pub fn make_tasks<'a, 'p, B, S, T, I, H, R, C, W, L>(
    plan: &Plan<'_, 'p, H, R, C, L>,
    workers: &Workers,
    server: &'a Server<'a, B, S, T, H, R, C>,
    warnings: &'a Warnings<L>,
    address: I::Address,
    seed: [u8; 32],
    terms: &Terms<H, C>,
    output: &'a mut W,
) -> Result<Made<'a, 'p, B, S, T, H, R, C, L, I, W>, Ending>
where
    B: OfHub<H, S>,
    S: Socket,
    T: Ticket<S, H, C>,
    I: BindPort<S, T, H, C>,
    H: SessionHash,
    R: Wait + Clock + Net + AllocGlobal,
    C: Moments,
    W: Write,
    L: Log,
    requires terms { AreTerms server.now.hub.now server.now.clock.now seed terms.now }
    requires there { terms.now.place.value ≡ I.place_of address }
    requires arrives { (peer challenge : List ℕ) (stream : S)
        → Arrives T.terms T.number T.peer T.began terms.now peer challenge stream → ∥ B.arrives peer challenge stream ∥₁ }
    requires stops { HasStopped I.terms I.accepted terms.now plan.now.settings.now.stop_after → ∥ B.stops ∥₁ }
    ensures told { IfOk result (λ made. IfSome plan.now.settings_file (λ path. IsSomeAnd made.1 (λ said. (said_line said).settings.now ≡ path.now))) }
    ensures ending { IfErr result IsServerFault }
{
    let Listening {
        listener,
        address,
        timers,
        started,
    } = listen::<S, T, I, H, R, C, L>(plan, workers, address, terms)?;
    let Timers { accepting, ticking } = timers;
    let settings = plan.settings;
    let accept = accept_task(settings, server, warnings, listener, seed, terms, accepting);
    let startup = Startup::new(&server.shared, server.rt, output, address);
    let ticker = Ticker::new(&server.shared, server.rt, ticking);
    let count = slot_count(settings);
    let tasks = Tasks::new(ticker, count, accept, startup, server, warnings);
    Ok((tasks, started))
}

/// Makes the timers of the tasks, listens at this address, and says so to the journal, where it is to have it.
fn listen<'p, S, T, I, H, R, C, L>(
    plan: &Plan<'_, 'p, H, R, C, L>,
    workers: &Workers,
    address: I::Address,
    terms: &Terms<H, C>,
) -> Result<Listening<'p, I>, Ending>
where
    S: Socket,
    T: Ticket<S, H, C>,
    I: BindPort<S, T, H, C>,
    H: SessionHash,
    R: Clock + Net,
    C: Moments,
    L: Log,
    requires there { terms.now.place.value ≡ I.place_of address }
    ensures promised { IfOk result (λ it. I.terms it.listener ≡ terms.now) }
    ensures none { IfOk result (λ it. I.accepted it.listener ≡ 0) }
    ensures told { IfOk result (λ it. IfSome plan.now.settings_file (λ path. IsSomeAnd it.started (λ said. (said_line said).settings.now ≡ path.now))) }
    ensures ending { IfErr result IsServerFault }
{
    let timers = make_timers(plan.rt, workers.time())?;
    let users = plan.settings.setup().max_users();
    warn_of_descriptors(plan.rt, &plan.warnings.log, users);
    let listener = match I::bind(plan.rt, address, workers.reactor(), Snapshot::of(terms)) {
        Ok(listener) => listener,
        Err(failed) => return Err(ending_of(&failed.into_inner())),
    };
    let address = match listener.address() {
        Ok(address) => address,
        Err(error) => return Err(ending_of(&error)),
    };
    let started = match plan.settings_file {
        Some(path) => Some(say_start(plan.rt, &plan.warnings.log, path, address, users)),
        None => None,
    };
    Ok(Listening {
        listener,
        address,
        timers,
        started,
    })
}

/// A listener, the address at which it listens, the timers of the tasks, and what the journal was told.
#[derive(Drop)]
struct Listening<'p, I> {
    listener: I,
    address: SocketAddr,
    timers: Timers,
    started: Started<'p>,
}

/// The timers of the tasks, which are not set yet.
#[derive(Drop)]
struct Timers {
    accepting: Sleep,
    ticking: Sleep,
}

/// Makes the timers of the tasks.
fn make_timers<R: Clock>(rt: &R, time: &time::Handle) -> Result<Timers, Ending>
    ensures ending { IfErr result IsServerFault }
{
    Ok(Timers {
        accepting: timer(rt, time)?,
        ticking: timer(rt, time)?,
    })
}

/// Makes a timer that is not set.
fn timer<R: Clock>(rt: &R, time: &time::Handle) -> Result<Sleep, Ending>
    ensures ending { IfErr result IsServerFault }
{
    time.sleep(rt, Duration::ZERO).map_err(|_| Ending::Memory)
}

/// Makes the task that accepts connections.
fn accept_task<'a, B, S, T, H, R, C, L, I>(
    settings: &Settings,
    server: &'a Server<'a, B, S, T, H, R, C>,
    warnings: &'a Warnings<L>,
    listener: I,
    seed: [u8; 32],
    terms: &Terms<H, C>,
    timer: Sleep,
) -> AcceptTask<'a, B, S, T, H, R, C, L, I>
where
    B: OfHub<H, S>,
    S: Socket,
    T: Ticket<S, H, C>,
    H: SessionHash,
    R: Wait + Clock + AllocGlobal,
    C: Moments,
    L: Log,
    I: HubPort<S, T, H, C>,
    requires terms { AreTerms server.now.hub.now server.now.clock.now seed terms.now }
    requires promised { I.terms listener ≡ terms.now }
    requires none { I.accepted listener ≡ 0 }
    requires arrives { (peer challenge : List ℕ) (stream : S)
        → Arrives T.terms T.number T.peer T.began terms.now peer challenge stream → ∥ B.arrives peer challenge stream ∥₁ }
    requires stops { HasStopped I.terms I.accepted terms.now settings.now.stop_after → ∥ B.stops ∥₁ }
{
    // It only says what the listener promises.
    let _ = terms;
    let stop_after = stop_after(settings);
    let listener = Listener::new(listener, &server.shared.wakers, server.rt, warnings, timer);
    let arrivals = Arrivals::new(listener, seed, server);
    let accept = Accept::new(arrivals, Acceptor::new(server, warnings), stop_after);
    AcceptTask::new(accept, server)
}

/// Gives the number of connections after which no more are accepted, if there is one.
fn stop_after(settings: &Settings) -> Option<u64>
    ensures { result ≡ stop_of settings.now.stop_after }
{
    match settings.stop_after() {
        0 => None,
        count => Some(u64::from(count)),
    }
}

/// Says how the server ends where no more connections came because of this.
pub(crate) fn ending_by(fault: Option<ServerFault>) -> Result<(), Ending>
    ensures by { (met : ServerFault) → fault ≡ Some met → result ≡ Err (ending_by met) }
    ensures none { OnOk result (fault ≡ None) }
    ensures ending { IfErr result IsServerFault }
{
    match fault {
        None => Ok(()),
        Some(ServerFault::Accepting) => Err(Ending::Address),
        Some(ServerFault::Output) => Err(Ending::Transfer),
        Some(ServerFault::Start) => Err(Ending::Memory),
    }
}

/// Says how the server ends where its address cannot be had.
fn ending_of(error: &io::Error) -> Ending
    ensures memory { error_kind error.now ≡ ErrorKind.OutOfMemory → result ≡ Ending.Memory }
    ensures others { error_kind error.now ≢ ErrorKind.OutOfMemory → result ≡ Ending.Address }
    ensures ending { IsServerFault result }
{
    match error.kind() {
        ErrorKind::OutOfMemory => Ending::Memory,
        _ => Ending::Address,
    }
}
