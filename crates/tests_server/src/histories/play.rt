// Conversations as text, and how they are played.
ghost use Rattle.std.specs.Prelude.{◌≡◌, Some, ℕ};
ghost use Rattle.hub_connections.specs.NamedHub.{home_in};

use crate::histories::client::{Guest, StillServer, Talk, joins};
use crate::histories::clock::StillClock;
use crate::histories::polls::{are_over, go_round, goes_to_end};
use crate::histories::record::Desk;
use crate::machine::*;
use history_check::WrittenEntry;
use hub_connections::{OfHub, Server, TcpTicket, Ticket};
use hub_core::Setup;
use hub_listener::Moments;
use hub_shared::{Host, Hub};
use std::marker::Brand;
use std::thread::{Threads, for_each_mut};
use tests_support::{Deed, Step, steps_of};
use tokio::net::TcpStream;

/// The number of clients of a conversation at most.
const CLIENTS: usize = 4;

/// The threads on which the clients are.
#[derive(Clone, Copy)]
pub(crate) enum Way {
    /// One thread, on which the conversation takes its course.
    Alone,
    /// A thread for each client, once all have joined.
    Apart,
}

/// Plays a conversation on a hub of its own, and gives the history that was recorded; nothing where memory was refused.
pub(crate) fn plays<R: ServerMachine>(
    rt: &R,
    text: &str,
    setup: &Arc<Setup>,
    way: Way,
) -> Option<Vec<WrittenEntry>> {
    let steps = steps_of(rt.alloc(), text)?;
    let desk = Desk::new(rt.alloc());
    let (hub, mut host) = Hub::open(rt.alloc(), setup.clone().ok()?, &First24).ok()?;
    converses::<Brand, TcpStream, TcpTicket<First24, StillClock<R>>, R>(
        rt, &hub, &mut host, setup, &desk, &steps, way,
    )?;
    desk.into_history()
}

/// Plays these steps on this hub, whose host has admitted nobody.
fn converses<
    'a,
    B: OfHub<First24, S> + Send + Sync,
    S: AsyncRead + AsyncWrite + Send,
    T: Ticket<S, First24, StillClock<R>> + Send,
    R: ServerMachine,
>(
    rt: &R,
    hub: &'a Hub<First24>,
    host: &mut Host<First24>,
    setup: &'a Setup,
    desk: &'a Desk<R>,
    steps: &'a [Step<'a>],
    way: Way,
) -> Option<()>
    requires here { B.hub ≡ Some hub.now }
    requires timed { (moment : ℕ) → ⟦<StillClock<R> as Moments>⟧.may_read desk.now.clock moment → ∥ B.may_read moment ∥₁ }
    requires timely { (moment : ℕ) → B.may_read moment → ∥ ⟦<StillClock<R> as Moments>⟧.may_read desk.now.clock moment ∥₁ }
    requires host { host.old ≡ record { home = hub.now.home; admitted = 0 } }
    requires set { hub.now.setup ≡ setup.now }
{
    let guests = admits::<B, S>(rt.alloc(), hub, host)?;
    let (alloc, clock) = (rt.alloc(), &desk.clock);
    let made = StillServer::<B, S, T, R>::new(alloc, clock, clock, hub, &First24, setup, CLIENTS);
    let server = made.ok()?;
    let made = make_steps(rt, hub, &server, desk, steps, way, guests);
    // It cannot be dropped, since tickets cannot.
    server.end();
    made
}

/// Admits as many guests as a conversation has clients.
fn admits<B: OfHub<First24, S>, S>(
    alloc: Global,
    hub: &Hub<First24>,
    host: &mut Host<First24>,
) -> Option<Vec<Guest<B, S>>>
    requires here { home_in B.hub ≡ Some hub.now.home }
    requires host { host.old ≡ record { home = hub.now.home; admitted = 0 } }
{
    let mut guests = Vec::with_capacity(alloc, CLIENTS).ok()?;
    guests.push(Guest::new(host.admit(hub))).ok()?;
    guests.push(Guest::new(host.admit(hub))).ok()?;
    guests.push(Guest::new(host.admit(hub))).ok()?;
    guests.push(Guest::new(host.admit(hub))).ok()?;
    Some(guests)
}

/// Makes the steps one after the other. On one thread its client goes on as far as it can after each, and then all others;
/// otherwise each goes on by itself once all have joined, on a thread of its own.
fn make_steps<
    'a,
    B: OfHub<First24, S> + Send + Sync,
    S: AsyncRead + AsyncWrite + Send,
    T: Ticket<S, First24, StillClock<R>> + Send,
    R: ServerMachine,
>(
    rt: &R,
    hub: &Hub<First24>,
    server: &'a StillServer<'a, B, S, T, R>,
    desk: &'a Desk<R>,
    steps: &'a [Step<'a>],
    way: Way,
    mut guests: Vec<Guest<B, S>>,
) -> Option<()>
    requires { home_in B.hub ≡ Some hub.now.home }
{
    let task = MockTask::new(rt).ok()?;
    // Clients have the numbers from 1 on, in the order in which they join.
    let (mut names, mut talks) = (Vec::new(rt.alloc()), Vec::new(rt.alloc()));
    for (place, step) in steps.iter().enumerate() {
        if step.deed == Deed::Joins {
            names.push(step.who).ok()?;
            let (guest, caller) = (guests.pop()?, names.len() as u64);
            let talk = joins(rt.alloc(), hub, server, desk, steps, *step, caller, guest)?;
            talks.push(talk).ok()?;
        }
        if let Way::Alone = way {
            desk.allow(place.wrapping_add(1));
            let client = names.iter().position(|name| *name == step.who)?;
            go_round(&task, desk, &mut talks, client);
        }
    }
    if let Way::Apart = way {
        desk.allow(steps.len());
        go_apart(rt, desk, &mut talks);
    }
    are_over(&talks).then_some(())
}

/// Polls all sessions until they are over, each on a thread of its own.
fn go_apart<B, S, T, R>(rt: &R, desk: &Desk<R>, talks: &mut Vec<Option<Talk<'_, B, S, T, R>>>)
where
    B: OfHub<First24, S> + Send + Sync,
    S: AsyncRead + AsyncWrite + Send,
    T: Ticket<S, First24, StillClock<R>> + Send,
    R: Wait + Threads + RandomSource + AllocGlobal + Sync,
{
    let talks = talks.as_mut_slice();
    for_each_mut(rt, talks, CLIENTS, &|_, talk| goes_to_end(rt, desk, talk));
}
