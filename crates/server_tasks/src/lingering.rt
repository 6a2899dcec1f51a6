ghost use Rattle.std.specs.Prelude.{◌≡◌, ◌+◌, ◌*◌, true, false, IfOk};
ghost use Rattle.std.specs.Time.{instant_nanos};
ghost use Rattle.futures.specs.Task.{IsArmed, Keeps};
ghost use Rattle.server_tasks.specs.Lingers.{IsKeptFor};

use crate::clock::{self, NoClock};
use crate::held::{Held, Kept, Lingered, TickerWoken};
use crate::leaving_socket::LeavingSocket;
use crate::lingering_socket::LingeringSocket;
use futures::task::{Context, Poll, Source};
use std::alloc::{AllocError, Global};
use std::sync::{Mutex, Wait};
use std::time::{Clock, Instant};
use tokio::io::{AsyncRead, AsyncWrite};

/// The number of seconds for which a socket lingers at most: a client that takes 26 KB a second has all that the system held then.
const SECONDS: u64 = 10;

/// The number of seconds for which it does where nobody is served any more, so that a server ends soon.
const SECONDS_AT_END: u64 = 2;

/// The sockets whose sessions are over, or for which the hub had no room, while their last lines are on the way: 16 at most,
/// each for 10 seconds, or until its client has closed.
#[derive(Drop)]
pub struct Lingering<S> {
    source: Source,
    // The numbers of seconds for which a socket lingers at most: at the end, and before.
    at_end: u64,
    longest: u64,
    held: Mutex<Held<S>>,
}

/// The moments until which a socket lingers: at the end, and at last.
struct LingerMoments {
    soon: Instant,
    until: Instant,
}

/// Gives the moments of a socket that begins to linger now, for so many seconds at most: at the end, and at last.
fn moments_from(now: Instant, at_end: u64, longest: u64) -> Result<LingerMoments, NoClock>
    ensures soon { IfOk result (λ at. instant_nanos at.soon ≡ instant_nanos now + at_end * 1_000_000_000) }
    ensures until { IfOk result (λ at. instant_nanos at.until ≡ instant_nanos now + longest * 1_000_000_000) }
{
    Ok(LingerMoments {
        soon: clock::later(now, at_end)?,
        until: clock::later(now, longest)?,
    })
}

impl<S: AsyncRead + AsyncWrite> Lingering<S> {
    /// Makes room for all sockets that ever linger at a time. Refused only where memory runs out.
    pub fn new(alloc: Global) -> Result<Lingering<S>, AllocError>
        ensures at_end { IfOk result (λ lingering. lingering.at_end ≡ 2) }
        ensures longest { IfOk result (λ lingering. lingering.longest ≡ 10) }
    {
        Ok(Lingering {
            source: Source::new(),
            at_end: SECONDS_AT_END,
            longest: SECONDS,
            held: Mutex::new(Held::new(alloc)?),
        })
    }

    /// Lets a socket go by and by, and gives the word of it; at once where the clock cannot be read. Where too many linger, the
    /// oldest of them is closed.
    pub fn linger<R: Wait + Clock>(&self, rt: &R, socket: LeavingSocket<S>) -> Result<Kept, NoClock>
        ensures { IfOk result (IsKeptFor self.now.at_end self.now.longest) }
    {
        let stream = socket.into_stream();
        let now = clock::read(rt)?;
        let LingerMoments { soon, until } = moments_from(now, self.at_end, self.longest)?;
        let lingering = LingeringSocket::new(stream, soon, until);
        let (kept, oldest) = self.held.lock(rt).replace(lingering);
        // It is closed here, and not under the lock.
        drop(oldest);
        Ok(kept)
    }

    /// Drops what clients have sent, closes the sockets that are done, and tells whether some linger still. The task is woken
    /// where there is more to do, and for the next socket. It is the end, at which nobody is served any more, or is not.
    pub fn poll_lingering<R: Wait + Clock>(
        &self,
        rt: &R,
        cx: &mut Context<'_>,
        is_end: bool,
    ) -> Result<Lingered, NoClock>
        ensures asked { IfOk result (λ seen. seen.is_end ≡ is_end) }
        ensures registered { IsArmed cx.new }
        ensures kept { Keeps cx.old cx.new }
    {
        match clock::read(rt) {
            Ok(now) => Ok(
                self.held
                    .lock(rt)
                    .poll_lingering(cx, &self.source, now, is_end),
            ),
            Err(unread) => {
                let _: Poll<()> = cx.yield_now();
                Err(unread)
            }
        }
    }
}

impl<S> Lingering<S> {
    /// Wakes the task that reads them, and gives the word of it.
    pub(crate) fn wake_ticker<R: Wait>(&self, rt: &R) -> TickerWoken {
        self.held.lock(rt).wake_ticker()
    }
}
