ghost use Rattle.std.specs.Prelude.{◌≡◌, None, IfOk, IfSome, IsSome, OnOk};
ghost use Rattle.std.specs.Io.KnownBytes.{Appends};
ghost use Rattle.server_tasks.specs.Start.{listening_text, IsOpeningSettled};

use crate::shared::{Closed, Shared};
use crate::state::{ServerFault, Word};
use futures::spin::GaveUp;
use std::io::{self, Write};
use std::net::SocketAddr;
use std::sync::Wait;

/// A server that is about to open. Where it is dropped before, the server is closed: not all of its tasks came to be.
pub struct Startup<'a, T, S, R: Wait, W> {
    shared: &'a Shared<T, S>,
    rt: &'a R,
    output: &'a mut W,
    address: SocketAddr,
    // What the server was told, once it was.
    settled: Option<Result<Opening, GaveUp>>,
}

impl<'a, T, S, R: Wait, W: Write> Startup<'a, T, S, R, W> {
    /// Prepares to say on `output` that the server listens there.
    pub fn new(
        shared: &'a Shared<T, S>,
        rt: &'a R,
        output: &'a mut W,
        address: SocketAddr,
    ) -> Startup<'a, T, S, R, W>
        ensures address { result.address ≡ address }
        ensures output { result.output.now ≡ output.entry.now }
        ensures unsettled { result.settled ≡ None }
    {
        Startup {
            shared,
            rt,
            output,
            address,
            settled: None,
        }
    }

    /// Says `listening` and the address, and opens the server. Where that cannot be said, it is closed.
    pub fn open(&mut self)
        ensures settled { IsSome self.new.settled }
        ensures told { IfSome self.new.settled (λ settled. IfOk settled (λ opening. IsOpeningSettled opening
            (Appends (W.contents self.old.output.now) (W.contents self.new.output.now) (listening_text self.old.address)))) }
    {
        let settled = self.settle();
        self.settled = Some(settled);
    }

    /// Does so, and gives the word of what the server was told.
    fn settle(&mut self) -> Result<Opening, GaveUp>
        ensures { IfOk result (λ opening. IsOpeningSettled opening
            (Appends (W.contents self.old.output.now) (W.contents self.new.output.now) (listening_text self.old.address))) }
    {
        match say(self.output, self.address) {
            Ok(()) => Ok(Opening::Open(self.shared.open()?)),
            Err(_) => Ok(Opening::Shut(self.shared.close(self.rt, Some(ServerFault::Output))?)),
        }
    }
}

/// The word of what a server was told that was to open.
#[derive(Drop)]
enum Opening {
    /// It is open: its address was said.
    Open(Word),
    /// It is closed: its address could not be said.
    Shut(Closed),
}

/// Says on `output` that the server listens there.
fn say<W: Write>(output: &mut W, address: SocketAddr) -> io::Result<()>
    ensures { OnOk result (Appends (W.contents output.old) (W.contents output.new) (listening_text address)) }
{
    writeln!(output, "listening {}", address)?;
    output.flush()
}

impl<T, S, R: Wait, W> Drop for Startup<'_, T, S, R, W> {
    fn drop(self) {
        let Startup {
            shared,
            rt,
            output: _,
            address: _,
            settled,
        } = self;
        if settled.is_none() {
            let _ = shared.close(rt, Some(ServerFault::Start));
        }
        drop(settled);
    }
}
