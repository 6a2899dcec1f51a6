ghost use Rattle.std.specs.Prelude.{◌≡◌, length, IfOk, IfErr};
ghost use Rattle.futures.specs.Task.{IsArmed, Covers, Keeps};
ghost use Rattle.futures.specs.Poll.{IfReady, OnPending};
ghost use Rattle.adc_sessions.specs.Served.{Serves};

use crate::bell::Bell;
use crate::ending::{End, SessionRefused};
use crate::port::Port;
use crate::running::Live;
use crate::stream::Stream;
use futures::Future;
use futures::task::{Context, Poll};
use std::alloc::{AllocError, Global};
use tokio::io::{AsyncRead, AsyncWrite};

/// The number of bytes that the first read may give.
const ROOM_AT_FIRST: usize = 256;

/// A session of one connection: a future that hands the lines of a stream to a port, and writes what the port gives.
///
/// The output of the future is how it ended, the stream, and what the port left; `quit` is called once, last. The promises
/// that hold of them stand at [`Session::new`] (`serves`; definitions in `specs/Served`). The lines handed over are the
/// first lines of the bytes read, and all of them at `Closed`, `ReadFailed` and `TooLong`. The bytes written are the first
/// of the bytes taken, and all of them at `Closed` and `Ended`. Each end comes only where its cause is there: so before
/// `Closed` a take that followed the last line and the end of the input gave no line. Nothing follows a call that failed or
/// was refused. Once the port has answered a line by `Ended`, nothing is read and no line is
/// handed over.
///
/// Reads and takes alternate, and each poll takes once before it reads, unless bytes still wait to be written: so a client
/// that sends without pause, and reads, gets what is meant for it. A take is made only once all that was taken before is
/// written, and one write is offered everything a take gave: so a client that does not read lags at the hub. A session
/// holds what one take of at most 256 lines gave, which asks for fewer where those before were long, so that it gives about
/// 32,768 bytes; and of its input at most 65,536 bytes without a line feed and one read. A read gives at most 256 bytes at
/// first, and twice as many once one gave so many, up to 2,048.
pub struct Session<S, P, B> {
    live: Option<Live<S, P, B>>,
}

impl<S: Drop, P: Drop, B: Drop> Drop for Session<S, P, B> {
    fn drop(self) {
        let Session { live } = self;
        drop(live);
    }
}

impl<S: AsyncRead + AsyncWrite, P: Port, B: Bell> Session<S, P, B> {
    /// Makes a session over a stream and a port, as they are.
    ///
    /// Refused: `Memory`; then all three are given back.
    pub fn new(
        alloc: Global,
        stream: S,
        port: P,
        bell: B,
    ) -> Result<Session<S, P, B>, (SessionRefused, S, P, B)>
        ensures serves { IfOk result (λ session. Serves ⟦<S as Stream>⟧.reports P.step P.leaves stream port (⟦<Session<S, P, B> as Future>⟧.gives session)) }
        ensures back { IfErr result (λ back. (back.1 ≡ stream) × (back.2 ≡ port) × (back.3 ≡ bell)) }
    {
        let Ok(input) = input(alloc) else {
            return Err((SessionRefused::Memory, stream, port, bell));
        };
        let live = Live::new(alloc, stream, port, bell, input);
        Ok(Session { live: Some(live) })
    }
}

/// Makes room for the first read.
fn input(alloc: Global) -> Result<Vec<u8>, AllocError>
    ensures { IfOk result (λ input. length input.items ≡ 256) }
{
    vec![in alloc; 0; ROOM_AT_FIRST]
}

impl<S: AsyncRead + AsyncWrite, P: Port, B: Bell> Future for Session<S, P, B> {
    ghost use Rattle.adc_sessions.specs.Outcome.{SessionGives, GivesAsBefore, EndsIn, GoesOnIn};

    type Output = (End, S, P::Left);

    ghost gives = { λ session out. SessionGives ⟦<S as Stream>⟧.reports P.step P.leaves session out };

    /// Makes at most 64 calls of the stream and the port together: so it hands over at most 64 lines and writes
    /// at most 64 times. The first call that is no write is a take, before which the bell is heard. Where it is pending, it has
    /// made all 64 and has woken its task; or the stream would not take what waits to be written; or nothing is left to do. Then
    /// its last call of the port is a take that gave fewer lines than it asked for; the bell, heard in this poll, had not been
    /// rung; and a read had to wait, the port hears nothing more, or the bell holds lines back. The rules of its calls stand in
    /// `specs/Polls`. After the end it does nothing but ask to be polled again.
    fn poll(&mut self, cx: &mut Context<'_>) -> Poll<Self::Output>
        ensures value { IfReady result (λ out. SessionGives ⟦<S as Stream>⟧.reports P.step P.leaves self.old out) }
        ensures same { OnPending result (GivesAsBefore ⟦<S as Stream>⟧.reports P.step P.leaves self.old self.new) }
        ensures ends_in_few { IfReady result (λ out. EndsIn ⟦<S as Stream>⟧.reports P.step B.hears P.leaves 64 self.old out) }
        ensures goes_on_in_few { OnPending result (GoesOnIn ⟦<S as Stream>⟧.reports P.step B.hears 64 cx.new self.old self.new) }
        ensures registered { OnPending result (IsArmed cx.new) }
        ensures kept { Keeps cx.old cx.new }
    {
        let Some(live) = &mut self.live else {
            return cx.yield_now();
        };
        match live.run(cx) {
            Poll::Pending => Poll::Pending,
            Poll::Ready(end) => match self.live.take() {
                Some(live) => {
                    let (stream, left) = live.leave();
                    Poll::Ready((end, stream, left))
                }
                None => unreachable!(),
            },
        }
    }
}
