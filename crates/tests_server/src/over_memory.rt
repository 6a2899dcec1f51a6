// A session over memory, with a connection of the server.
ghost use Rattle.std.specs.Prelude.{◌≡◌, Some, ℕ, ⊤};
ghost use Rattle.hub_connections.specs.NamedHub.{home_in};

use crate::sessions::hold;
use adc_sessions::End;
use futures::task::{Context, Poll};
use futures::test::MockTask;
use hub_connections::{Connection, OfHub, Server, TcpTicket, Ticket};
use hub_core::{Options, Setup};
use hub_listener::Moments;
use hub_shared::{Host, Hub, Pass};
use session_hash::First24;
use std::alloc::{AllocError, AllocGlobal};
use std::io;
use std::marker::Brand;
use std::random::RandomSource;
use std::sync::{Arc, Wait};
use std::time::Clock;
use tests_support::{again, transcript_of};
use tokio::io::{AsyncRead, AsyncWrite};
use tokio::net::TcpStream;

const CHALLENGE: [u8; 24] = [0; 24];

/// A stream: the bytes that a client sends, and those that it is sent.
#[derive(Drop)]
struct Wire<'a> {
    rest: &'a [u8],
    written: Vec<u8>,
}

impl AsyncRead for Wire<'_> {
    ghost reads = { λ _ _ _. ⊤ };

    ghost is_at_end = { λ _. ⊤ };

    ghost reads_nothing = { λ _. tt };

    ghost reads_in_order = { λ _ _ _ _ _ _ _. tt };

    fn poll_read(&mut self, _cx: &mut Context<'_>, buf: &mut [u8]) -> Poll<io::Result<usize>> {
        let count = self.rest.len().min(buf.len());
        buf[..count].copy_from_slice(&self.rest[..count]);
        self.rest = &self.rest[count..];
        Poll::Ready(Ok(count))
    }
}

impl AsyncWrite for Wire<'_> {
    ghost writes = { λ _ _ _. ⊤ };

    ghost writes_nothing = { λ _. tt };

    ghost writes_in_order = { λ _ _ _ _ _ _ _. tt };

    fn poll_write(&mut self, _cx: &mut Context<'_>, buf: &[u8]) -> Poll<io::Result<usize>> {
        Poll::Ready(match self.written.extend_from_slice(buf) {
            Ok(()) => Ok(buf.len()),
            Err(_) => Err(io::ErrorKind::OutOfMemory.into()),
        })
    }

    fn poll_flush(&mut self, _cx: &mut Context<'_>) -> Poll<io::Result<()>> {
        Poll::Ready(Ok(()))
    }

    fn poll_shutdown(&mut self, _cx: &mut Context<'_>) -> Poll<io::Result<()>> {
        Poll::Ready(Ok(()))
    }
}

/// Tells how the session of a hub's only connection ends, and what it writes; nothing where memory was refused.
fn session<
    B: OfHub<First24, S>,
    S: AsyncRead + AsyncWrite,
    T: Ticket<S, First24, R>,
    R: Wait + Clock + RandomSource + AllocGlobal,
>(
    rt: &R,
    hub: &Hub<First24>,
    host: &mut Host<First24>,
    setup: &Setup,
    input: &[u8],
) -> Option<(End, Vec<u8>)>
    requires here { B.hub ≡ Some hub.now }
    requires timed { (moment : ℕ) → ⟦<R as Moments>⟧.may_read rt.now moment → ∥ B.may_read moment ∥₁ }
    requires timely { (moment : ℕ) → B.may_read moment → ∥ ⟦<R as Moments>⟧.may_read rt.now moment ∥₁ }
    requires host { host.old ≡ record { home = hub.now.home; admitted = 0 } }
    requires set { hub.now.setup ≡ setup.now }
{
    let visitor = host.admit(hub);
    let joined = hub.join(rt, rt.alloc(), visitor, [127, 0, 0, 1], CHALLENGE, 0);
    let Ok(pass) = joined else {
        return None;
    };
    let made = Server::<B, S, T, First24, R, R>::new(rt.alloc(), rt, rt, hub, &First24, setup, 1);
    let server = made.ok()?;
    let ended = serve(rt, &server, pass, input);
    // It cannot be dropped, since tickets cannot.
    server.end();
    ended
}

/// Serves a stream with this input for a pass that joined with `CHALLENGE`.
fn serve<
    'a,
    B: OfHub<First24, S>,
    S: AsyncRead + AsyncWrite,
    T: Ticket<S, First24, R>,
    R: Wait + Clock + RandomSource + AllocGlobal,
>(
    rt: &R,
    server: &'a Server<'a, B, S, T, First24, R, R>,
    pass: Pass<First24>,
    input: &[u8],
) -> Option<(End, Vec<u8>)>
    requires here { home_in B.hub ≡ Some pass.home }
    requires challenged { pass.challenge ≡ CHALLENGE }
{
    let connection = Connection::new(server, pass, CHALLENGE, 0);
    let bell = connection.bell();
    let written = Vec::with_capacity(rt.alloc(), 1024).ok()?;
    let rest = input;
    let wire = Wire { rest, written };
    let task = MockTask::new(rt).ok()?;
    let (end, wire) = hold(rt.alloc(), &task, wire, connection, bell)?;
    Some((end, wire.written))
}

/// Makes the setup of a hub.
fn setup<R: AllocGlobal>(rt: &R) -> Option<Arc<Setup>> {
    let setup = Setup::new(rt.alloc(), &Options::named("Hub")).ok()?;
    Arc::new(rt.alloc(), setup).ok()
}

fn attempt<R: Wait + Clock + RandomSource + AllocGlobal>(
    rt: &R,
    input: &[u8],
) -> Option<(End, Vec<u8>)> {
    let setup = setup(rt)?;
    let (hub, mut host) = Hub::open(rt.alloc(), setup.clone().ok()?, &First24).ok()?;
    match session::<Brand, TcpStream, TcpTicket<First24, R>, R>(
        rt, &hub, &mut host, &setup, input,
    ) {
        Some((End::Memory, _)) | None => None,
        Some(ended) => Some(ended),
    }
}

#[test]
fn a_session_over_memory_is_answered(rt: HostRuntime) {
    let shut_out = "ana says HSUP ADBASE\nana hears ISTA 247 No\\scommon\\shash";
    for (text, end) in [("ana is greeted AAAB", End::Closed), (shut_out, End::Ended)] {
        let ana = transcript_of(rt.alloc(), text, "ana").expect(&rt, text);
        let ran = again!(&rt; attempt(&rt, &ana.said).ok_or(AllocError));
        assert!(&rt; ran.0 == end, "{:?}", ran.0);
        assert!(&rt; ran.1 == ana.heard);
    }
}
