ghost use Rattle.std.specs.Prelude.{◌≡◌, Some, ℕ, List, IfSome, IsSomeAnd, IfOk, IfErr, OnOk};
ghost use Rattle.std.specs.List.{All};
ghost use Rattle.hub_connections.specs.Arrivals.{Arrives};
ghost use Rattle.hub_connections.specs.Faults.{IsServerFault};
ghost use Rattle.hub_connections.specs.NamedHub.{hub_in};
ghost use Rattle.hub_connections.specs.Stop.{AreTerms, HasStopped};
ghost use Rattle.hub_connections.specs.Visits.{HasVisited};
ghost use Rattle.hub_server.specs.ServedAll.{ServedAll};
ghost use Rattle.hub_warnings.specs.Logged.{said_line};

use crate::served::ServedVisits;
use crate::threads::run_on_threads;
use adc_sessions::Stream;
use hub_connections::{
    AllFree, BindPort, OfHub, Plan, Server, Started, Stop, Terms, Ticket, leave, open, slot_count,
};
use hub_endings::Ending;
use hub_listener::{Moments, Socket};
use hub_settings::Settings;
use hub_shared::{Host, Hub, Visitor};
use hub_warnings::Warnings;
use log::Log;
use session_hash::SessionHash;
use std::alloc::AllocGlobal;
use std::io::Write;
use std::marker::Brand;
use std::net::Net;
use std::random::RandomSource;
use std::snapshot::Snapshot;
use std::sync::Wait;
use std::thread::Threads;
use std::time::Clock;
use tokio::io::{AsyncRead, AsyncWrite};

/// Serves all connections that come to a hub of these settings and this hash, until as many were accepted as the settings say
/// and all are over, and gives the report of the hub.
///
/// While it runs, each connection that the listener accepts ends by one call of its ticket, and what the server owes it is that
/// call's condition. At the end all calls of the hub stand in one legal history of a hub for one thread, and nobody is present
/// in it. The calls of each visitor in it are visits of connections that came, one after another and in their order
/// (`specs/ServedAll`, and `specs/Visits` and `specs/Owed` of `hub_connections`, have all that is promised).
pub fn serve_hub<'p, S, T, I, H, R, C, W, L>(
    rt: &R,
    clock: &C,
    settings: &Settings,
    hash: &H,
    seed: [u8; 32],
    address: I::Address,
    settings_file: Option<&'p str>,
    output: &mut W,
    warnings: &Warnings<L>,
) -> Result<ServedVisits<'p, H, C>, Ending>
where
    S: Socket + Send,
    T: Ticket<S, H, C> + Send,
    I: BindPort<S, T, H, C> + Send,
    H: SessionHash + Send + Sync,
    R: Wait + Threads + Clock + Net + RandomSource + AllocGlobal + Sync,
    C: Moments + Sync,
    W: Write,
    L: Log + Sync,
    ensures all { IfOk result (λ it. ServedAll T.terms T.number T.peer T.began ⟦<S as Stream>⟧.reports (C.may_read clock.now)
        settings.now.hub (H.digest_of hash.now) it.terms it.visitors.value.items it.report.joins) }
    ensures terms { IfOk result (λ it. (it.terms.setup.value ≡ settings.now.hub) × (it.terms.hash.value ≡ hash.now)
        × (it.terms.clock.value ≡ clock.now) × (it.terms.seed.value ≡ seed) × (it.terms.place.value ≡ I.place_of address)) }
    ensures stopped { IfOk result (λ it. ∥ HasStopped I.terms I.accepted it.terms settings.now.stop_after ∥₁) }
    ensures nobody { IfOk result (λ it. it.report.present ≡ 0) }
    ensures told { IfOk result (λ it. IfSome settings_file.entry (λ path. IsSomeAnd it.started (λ said. (said_line said).settings.now ≡ path.now))) }
    ensures ending { IfErr result IsServerFault }
{
    let plan = Plan {
        rt,
        clock,
        settings,
        hash,
        settings_file,
        warnings,
    };
    let (hub, mut host) = open(&plan)?;
    let terms = Terms {
        host: Snapshot::of(&host),
        setup: Snapshot::of(&**settings.setup()),
        hash: Snapshot::of(hash),
        clock: Snapshot::of(clock),
        seed: Snapshot::of(&seed),
        place: Snapshot::of(&I::place(&address)),
    };
    let (visitors, started) = run::<Brand, S, T, I, H, R, C, W, L>(
        &plan, &hub, &mut host, seed, &terms, address, output,
    )?;
    close::<S, T, H, R, C, L>(&plan, hub, host, visitors, terms, started)
}

/// Runs the server, and gives all visitors of the hub back, or those that are left where memory ran out; and what the journal was
/// told at the start.
fn run<'a, 'p, B, S, T, I, H, R, C, W, L>(
    plan: &Plan<'a, 'p, H, R, C, L>,
    hub: &'a Hub<H>,
    host: &mut Host<H>,
    seed: [u8; 32],
    terms: &Terms<H, C>,
    address: I::Address,
    output: &mut W,
) -> Result<(Vec<Visitor<H>>, Started<'p>), Ending>
where
    B: OfHub<H, S> + Send + Sync,
    S: Socket + Send,
    T: Ticket<S, H, C> + Send,
    I: BindPort<S, T, H, C> + Send,
    H: SessionHash + Send + Sync,
    R: Wait + Threads + Clock + Net + RandomSource + AllocGlobal + Sync,
    C: Moments + Sync,
    W: Write,
    L: Log + Sync,
    requires here { B.hub ≡ Some hub.now }
    requires timed { (moment : ℕ) → C.may_read plan.now.clock.now moment → ∥ B.may_read moment ∥₁ }
    requires timely { (moment : ℕ) → B.may_read moment → ∥ C.may_read plan.now.clock.now moment ∥₁ }
    requires terms { AreTerms hub.now plan.now.clock.now seed terms.now }
    requires there { terms.now.place.value ≡ I.place_of address }
    requires arrives { (peer challenge : List ℕ) (stream : S)
        → Arrives T.terms T.number T.peer T.began terms.now peer challenge stream → ∥ B.arrives peer challenge stream ∥₁ }
    requires stops { HasStopped I.terms I.accepted terms.now plan.now.settings.now.stop_after → ∥ B.stops ∥₁ }
    requires host { host.old ≡ record { home = hub.now.home; admitted = 0 } }
    requires set { hub.now.setup ≡ plan.now.settings.now.hub }
    requires hashed { hub.now.hash ≡ plan.now.hash.now }
    ensures host { OnOk result (host.new.home ≡ hub.now.home) }
    ensures visitors { IfOk result (λ it. All (λ v. v.home ≡ hub.now.home) it.0.items) }
    ensures visits { IfOk result (λ it. All (λ v. HasVisited ⟦<S as Stream>⟧.reports B.may_read B.arrives v) it.0.items) }
    ensures stopped { OnOk result ∥ B.stops ∥₁ }
    ensures told { IfOk result (λ it. IfSome plan.now.settings_file (λ path. IsSomeAnd it.1 (λ said. (said_line said).settings.now ≡ path.now))) }
    ensures ending { IfErr result IsServerFault }
{
    let alloc = plan.rt.alloc();
    let count = slot_count(plan.settings);
    let visitors = Vec::with_capacity(alloc, count)?;
    let (free, _stop, started) = run_slots::<B, S, T, I, H, R, C, W, L>(
        plan, hub, host, seed, terms, address, output,
    )?;
    Ok((leave(free, visitors), started))
}

/// All slots of a server that has stopped, the word that it has, and what the journal was told at its start.
type Stopped<'p, B, S, H> = (AllFree<B, S, H>, Stop<B, S, H>, Started<'p>);

/// Runs the server, and gives back the slots that are left, and what the journal was told at the start.
fn run_slots<'a, 'p, B, S, T, I, H, R, C, W, L>(
    plan: &Plan<'a, 'p, H, R, C, L>,
    hub: &'a Hub<H>,
    host: &mut Host<H>,
    seed: [u8; 32],
    terms: &Terms<H, C>,
    address: I::Address,
    output: &mut W,
) -> Result<Stopped<'p, B, S, H>, Ending>
where
    B: OfHub<H, S> + Send + Sync,
    S: Socket + Send,
    T: Ticket<S, H, C> + Send,
    I: BindPort<S, T, H, C> + Send,
    H: SessionHash + Send + Sync,
    R: Wait + Threads + Clock + Net + RandomSource + AllocGlobal + Sync,
    C: Moments + Sync,
    W: Write,
    L: Log + Sync,
    requires here { B.hub ≡ Some hub.now }
    requires timed { (moment : ℕ) → C.may_read plan.now.clock.now moment → ∥ B.may_read moment ∥₁ }
    requires timely { (moment : ℕ) → B.may_read moment → ∥ C.may_read plan.now.clock.now moment ∥₁ }
    requires terms { AreTerms hub.now plan.now.clock.now seed terms.now }
    requires there { terms.now.place.value ≡ I.place_of address }
    requires arrives { (peer challenge : List ℕ) (stream : S)
        → Arrives T.terms T.number T.peer T.began terms.now peer challenge stream → ∥ B.arrives peer challenge stream ∥₁ }
    requires stops { HasStopped I.terms I.accepted terms.now plan.now.settings.now.stop_after → ∥ B.stops ∥₁ }
    requires host { host.old ≡ record { home = hub.now.home; admitted = 0 } }
    requires set { hub.now.setup ≡ plan.now.settings.now.hub }
    requires hashed { hub.now.hash ≡ plan.now.hash.now }
    ensures host { OnOk result (host.new.home ≡ hub.now.home) }
    ensures told { IfOk result (λ it. IfSome plan.now.settings_file (λ path. IsSomeAnd it.2 (λ said. (said_line said).settings.now ≡ path.now))) }
    ensures ending { IfErr result IsServerFault }
{
    let (rt, setup) = (plan.rt, plan.settings.setup());
    let count = slot_count(plan.settings);
    let server = Server::new(rt.alloc(), rt, plan.clock, hub, plan.hash, setup, count)?;
    server.admit(host, count);
    let (served, started) = run_on_threads::<B, S, T, I, H, R, C, W, L>(
        plan,
        &server,
        plan.warnings,
        address,
        seed,
        terms,
        output,
    );
    let (free, stop) = server.into_free_after(served)?;
    Ok((free, stop, started))
}

/// Closes the hub of these settings and this hash for which the visitors are back, and gives its report.
fn close<'p, S: AsyncRead + AsyncWrite, T: Ticket<S, H, C>, H: SessionHash, R, C: Moments, L>(
    plan: &Plan<'_, '_, H, R, C, L>,
    hub: Hub<H>,
    host: Host<H>,
    visitors: Vec<Visitor<H>>,
    terms: Terms<H, C>,
    started: Started<'p>,
) -> Result<ServedVisits<'p, H, C>, Ending>
    requires set { hub.setup ≡ plan.now.settings.now.hub }
    requires hashed { hub.hash ≡ plan.now.hash.now }
    requires terms { (hub_in terms) ≡ hub }
    requires here { host.home ≡ hub.home }
    requires visitors { All (λ v. v.home ≡ hub.home) visitors.items }
    requires visits { All (λ v. HasVisited ⟦<S as Stream>⟧.reports (C.may_read plan.now.clock.now)
        (Arrives T.terms T.number T.peer T.began terms) v) visitors.items }
    ensures all { IfOk result (λ it. ServedAll T.terms T.number T.peer T.began ⟦<S as Stream>⟧.reports (C.may_read plan.now.clock.now)
        plan.now.settings.now.hub (H.digest_of plan.now.hash.now) it.terms it.visitors.value.items it.report.joins) }
    ensures terms { IfOk result (λ it. it.terms ≡ terms) }
    ensures told { IfOk result (λ it. it.started ≡ started.entry) }
    ensures nobody { IfOk result (λ it. it.report.present ≡ 0) }
    ensures ending { IfErr result IsServerFault }
{
    // It only says which hub it is.
    let _ = plan;
    let back = Snapshot::of(&visitors);
    let Ok(report) = hub.close(host, visitors) else {
        return Err(Ending::Memory);
    };
    Ok(ServedVisits {
        report,
        started,
        terms,
        visitors: back,
    })
}
