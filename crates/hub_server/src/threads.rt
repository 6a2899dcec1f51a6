ghost use Rattle.std.specs.Prelude.{◌≡◌, ℕ, List, None, IfSome, IsSomeAnd, IfOk, IfErr, OnOk};
ghost use Rattle.hub_warnings.specs.Logged.{said_line};
ghost use Rattle.server_tasks.specs.declared.state.Told.TheVariants.{Asked};
ghost use Rattle.hub_connections.specs.Faults.{IsServerFault};
ghost use Rattle.hub_connections.specs.Arrivals.{Arrives};
ghost use Rattle.hub_connections.specs.Stop.{AreTerms, HasStopped};

use hub_connections::{
    BindPort, HubPort, NoFault, OfHub, Plan, Server, Started, Tasks, Terms, Ticket, make_tasks,
};
use hub_endings::Ending;
use hub_listener::{Moments, Socket};
use hub_warnings::Warnings;
use hub_workers::Workers;
use log::Log;
use session_hash::SessionHash;
use std::alloc::AllocGlobal;
use std::io::Write;
use std::net::Net;
use std::random::RandomSource;
use std::sync::Wait;
use std::thread::Threads;
use std::time::Clock;

/// Runs the tasks of a server that listens at this address, with as many threads as its settings say, and gives the word that
/// they met no fault, and what the journal was told at the start.
pub(crate) fn run_on_threads<'a, 'p, B, S, T, I, H, R, C, W, L>(
    plan: &Plan<'_, 'p, H, R, C, L>,
    server: &'a Server<'a, B, S, T, H, R, C>,
    warnings: &'a Warnings<L>,
    address: I::Address,
    seed: [u8; 32],
    terms: &Terms<H, C>,
    output: &'a mut W,
) -> (Result<NoFault, Ending>, Started<'p>)
where
    B: OfHub<H, S> + Send + Sync,
    S: Socket + Send,
    T: Ticket<S, H, C> + Send,
    I: BindPort<S, T, H, C> + Send,
    H: SessionHash + Send + Sync,
    R: Wait + Threads + Clock + Net + RandomSource + AllocGlobal + Sync,
    C: Moments + Sync,
    W: Write,
    L: Log + Sync,
    requires terms { AreTerms server.now.hub.now server.now.clock.now seed terms.now }
    requires there { terms.now.place.value ≡ I.place_of address }
    requires arrives { (peer challenge : List ℕ) (stream : S)
        → Arrives T.terms T.number T.peer T.began terms.now peer challenge stream → ∥ B.arrives peer challenge stream ∥₁ }
    requires stops { HasStopped I.terms I.accepted terms.now plan.now.settings.now.stop_after → ∥ B.stops ∥₁ }
    ensures asked { IfOk result.0 (λ asked. IfOk asked (λ word. word ≡ Asked None)) }
    ensures told { OnOk result.0 (IfSome plan.now.settings_file (λ path. IsSomeAnd result.1 (λ said. (said_line said).settings.now ≡ path.now))) }
    ensures ending { IfErr result.0 IsServerFault }
{
    // Settings ask for one at least.
    let threads = plan.settings.threads().max(1) as usize;
    let Ok(mut workers) = Workers::new(plan.rt, threads) else {
        return (Err(Ending::Memory), None);
    };
    let made = make_tasks::<B, S, T, I, H, R, C, W, L>(
        plan, &workers, server, warnings, address, seed, terms, output,
    );
    let served = match made {
        Ok((tasks, started)) => (run_tasks(plan.rt, &mut workers, server, tasks), started),
        Err(ending) => (Err(ending), None),
    };
    drop(workers);
    served
}

/// Runs these tasks to their end, and gives the word that no fault was met; or says how the server ends.
fn run_tasks<'a, B, S, T, I, H, R, C, W, L>(
    rt: &R,
    workers: &mut Workers,
    server: &'a Server<'a, B, S, T, H, R, C>,
    tasks: Tasks<'a, B, S, T, H, R, C, L, I, W>,
) -> Result<NoFault, Ending>
where
    B: OfHub<H, S> + Send + Sync,
    S: Socket + Send,
    T: Ticket<S, H, C> + Send,
    I: HubPort<S, T, H, C> + Send,
    H: SessionHash + Send + Sync,
    R: Wait + Threads + Clock + Net + RandomSource + AllocGlobal + Sync,
    C: Moments + Sync,
    W: Write,
    L: Log + Sync,
    ensures asked { IfOk result (λ asked. IfOk asked (λ word. word ≡ Asked None)) }
    ensures ending { IfErr result IsServerFault }
{
    match workers.run_all(rt, tasks) {
        Ok(_ended) => server.no_fault(),
        Err(_) => Err(Ending::Memory),
    }
}
