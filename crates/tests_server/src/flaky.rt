// A listener that accepts nobody at first, as where connections are gone and descriptors are wanting.
use crate::machine::*;
use hub_connections::{BindPort, HubPort, TcpPort, TcpTicket, Terms};
use hub_listener::{Listens, Moments};
use session_hash::SessionHash;
use std::snapshot::Snapshot;
use system_answers::ListenFailed;
use tokio::net::TcpStream;
use tokio::reactor::Handle;

/// The number of connections that are gone, more than faults are borne. Then descriptors are wanting, `WANTING` times.
const GONE: u32 = 100;

const WANTING: u32 = 3;

/// A listening socket `P` that begins so.
#[derive(Drop)]
pub struct Flaky<P> {
    port: P,
    calls: u32,
}

/// A listening socket of TCP that begins so.
pub type FlakyPort<H, C> = Flaky<TcpPort<H, C>>;

impl<H: SessionHash, C: Moments> HubPort<TcpStream, TcpTicket<H, C>, H, C> for FlakyPort<H, C> {
    ghost terms = { λ flaky. ⟦<TcpPort<H, C> as HubPort<TcpStream, TcpTicket<H, C>, H, C>>⟧.terms flaky.port };

    ghost accepted = { λ flaky. ⟦<TcpPort<H, C> as HubPort<TcpStream, TcpTicket<H, C>, H, C>>⟧.accepted flaky.port };

    ghost comes_so = { λ a it b came. came };

    ghost waits_so = { λ a b same. same };
}

impl<H: SessionHash, C: Moments> BindPort<TcpStream, TcpTicket<H, C>, H, C> for FlakyPort<H, C> {
    ghost use Rattle.std.specs.Prelude.{◌≡◌, IfOk};

    type Address = SocketAddrV4;

    ghost place_of = { λ address. address };

    fn place(address: &SocketAddrV4) -> SocketAddrV4
        ensures { result ≡ address.now }
    {
        *address
    }

    fn bind<N: Net>(
        rt: &N,
        address: SocketAddrV4,
        handle: &Handle,
        promise: Snapshot<Terms<H, C>>,
    ) -> Result<FlakyPort<H, C>, ListenFailed>
        requires there { promise.value.place.value ≡ address }
        ensures promised { IfOk result (λ flaky. ⟦<TcpPort<H, C> as HubPort<TcpStream, TcpTicket<H, C>, H, C>>⟧.terms flaky.port ≡ promise.value) }
        ensures none { IfOk result (λ flaky. ⟦<TcpPort<H, C> as HubPort<TcpStream, TcpTicket<H, C>, H, C>>⟧.accepted flaky.port ≡ 0) }
    {
        let port = TcpPort::bind(rt, address, handle, promise)?;
        Ok(Flaky { port, calls: 0 })
    }
}

impl<H: SessionHash, C: Moments> Listens for FlakyPort<H, C> {
    ghost use Rattle.std.specs.Prelude.{◌+◌};
    ghost use Rattle.std.proofs.Common.{◌∙◌, ap, refl};

    type Socket = TcpStream;

    type Ticket = TcpTicket<H, C>;

    ghost comes = { λ a it b. ⟦<TcpPort<H, C> as Listens>⟧.comes a.port it b.port };

    ghost waits = { λ a b. ⟦<TcpPort<H, C> as Listens>⟧.waits a.port b.port };

    fn poll_accept(&mut self, cx: &mut Context<'_>) -> Polled<TcpStream, TcpTicket<H, C>> {
        if self.calls < GONE {
            self.calls += 1;
            return Poll::Ready(Err(io::Error::from_raw_os_error(103)));
        }
        if self.calls < GONE + WANTING {
            self.calls += 1;
            return Poll::Ready(Err(io::Error::from_raw_os_error(24)));
        }
        self.port.poll_accept(cx)
    }

    fn address(&self) -> io::Result<SocketAddr> {
        self.port.address()
    }

    ghost waits_nothing = { λ a. (refl, refl) };

    ghost waits_on = { λ a b c first second. (second.0 ∙ first.0, second.1 ∙ first.1) };

    ghost waits_first = { λ a b it c first came. (
      record { promised = came.0.promised ∙ first.0; numbered = came.0.numbered ∙ first.1; named = came.0.named; fresh = came.0.fresh },
      came.1 ∙ first.0,
      came.2 ∙ ap (λ n. n + 1) first.1,
    ) };
}
