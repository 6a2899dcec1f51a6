// Servers that cannot be had, or not for long.
use crate::machine::*;
use crate::program::asking::output_of;
use crate::run::settings;
use hub_connections::{BindPort, HubPort, TcpPort, TcpTicket, Terms};
use hub_listener::Listens;
use hub_server::serve_at;
use std::net::{TcpListener, TcpStream};
use std::os::fd::OwnedFd;
use std::snapshot::Snapshot;
use system_answers::{ListenFailed, registered};
use tests_support::Output;
use tokio::net::TcpStream as Stream;
use tokio::reactor::Handle;

/// A socket `L` that is connected already, so that it accepts nobody, and has promised a `P`.
#[derive(Drop)]
struct PromisedNobody<L, P> {
    listener: L,
    terms: P,
}

/// Such a socket of TCP.
type ConnectedPort<R> = PromisedNobody<tokio::net::TcpListener, Snapshot<Terms<First24, R>>>;

impl<R: Clock> HubPort<Stream, TcpTicket<First24, R>, First24, R> for ConnectedPort<R> {
    ghost use Rattle.std.proofs.Common.{refl};

    ghost terms = { λ port. port.terms.value };

    ghost accepted = { λ _. 0 };

    ghost comes_so = { λ a it b came. absurd came };

    ghost waits_so = { λ a b same. (same, refl) };
}

impl<R: Clock> BindPort<Stream, TcpTicket<First24, R>, First24, R> for ConnectedPort<R> {
    ghost use Rattle.std.specs.Prelude.{◌≡◌, ℕ, IfOk};

    // The socket, and the place where it was to listen.
    type Address = (TcpListener, SocketAddrV4);

    ghost place_of = { λ address. address.1 };

    fn place(address: &(TcpListener, SocketAddrV4)) -> SocketAddrV4
        ensures { result ≡ address.now.1 }
    {
        address.1
    }

    fn bind<N: Net>(
        _rt: &N,
        address: (TcpListener, SocketAddrV4),
        handle: &Handle,
        promise: Snapshot<Terms<First24, R>>,
    ) -> Result<ConnectedPort<R>, ListenFailed>
        requires there { promise.value.place.value ≡ address.1 }
        ensures promised { IfOk result (λ port. port.terms.value ≡ promise.value) }
        ensures none { IfOk result (λ port. ◌≡◌ {A = ℕ} 0 0) }
    {
        let (socket, _place) = address;
        let listener = registered(socket, handle)?;
        Ok(PromisedNobody {
            listener,
            terms: promise,
        })
    }
}

impl<R: Clock> Listens for ConnectedPort<R> {
    ghost use Rattle.std.specs.Prelude.{◌≡◌};
    ghost use Rattle.std.proofs.Common.{◌∙◌, refl};

    type Socket = Stream;

    type Ticket = TcpTicket<First24, R>;

    // Nobody comes.
    ghost comes = { λ _ _ _. ⊥ };

    ghost waits = { λ a b. b.terms.value ≡ a.terms.value };

    fn poll_accept(&mut self, cx: &mut Context<'_>) -> Polled<Stream, TcpTicket<First24, R>> {
        match self.listener.poll_accept(cx) {
            Poll::Pending => Poll::Pending,
            Poll::Ready(Err(error)) => Poll::Ready(Err(error)),
            // The test would not end.
            Poll::Ready(Ok(_)) => cx.yield_now(),
        }
    }

    fn address(&self) -> io::Result<SocketAddr> {
        self.listener.local_addr()
    }

    ghost waits_nothing = { λ a. refl };

    ghost waits_on = { λ a b c first second. second ∙ first };

    ghost waits_first = { λ a b it c first came. came };
}

/// The trouble that is there where a server is to be.
#[derive(Clone, Copy)]
enum Trouble {
    /// The address is one that is kept for examples, so that no machine has it.
    NotHere,
    /// The address is in use: another listens there.
    InUse,
    /// The output is broken: what is said cannot be written.
    Mute,
    /// The socket is connected, so that nobody can be accepted.
    Connected,
}

/// Runs a server at this address, and gives its status, its output and what it said on standard error.
fn at<R: ServerMachine, I: BindPort<Stream, TcpTicket<First24, R>, First24, R> + Send>(
    rt: &R,
    address: I::Address,
    is_broken: bool,
) -> io::Result<(u8, Vec<u8>, Vec<u8>)> {
    let settings = settings(rt.alloc(), "hash = \"first24\"\nmax_users = 4\n")?;
    let hash = Arc::new(rt.alloc(), First24)?;
    let mut output = output_of(rt.alloc(), is_broken)?;
    let mut errors = Vec::with_capacity(rt.alloc(), 64)?;
    let (out, said) = (&mut output, &mut errors);
    let status = serve_at::<Stream, TcpTicket<First24, R>, I, First24, R, Output, Vec<u8>>(
        rt, &settings, hash, [0; 32], address, out, said,
    );
    Ok((status, output.got, errors))
}

/// Runs a server in this trouble.
fn in_trouble<R: ServerMachine + Net<Stream = TcpStream, Listener = TcpListener>>(
    rt: &R,
    trouble: Trouble,
) -> io::Result<(u8, Vec<u8>, Vec<u8>)> {
    let here = TcpListener::bind(rt, "127.0.0.1:0")?;
    let local = here.local_addr()?;
    let any = SocketAddrV4::new(Ipv4Addr::LOCALHOST, 0);
    let nowhere = SocketAddrV4::new(Ipv4Addr::new(203, 0, 113, 1), 4111);
    match (trouble, local) {
        (Trouble::InUse, SocketAddr::V4(local)) => at::<R, TcpPort<First24, R>>(rt, local, false),
        (Trouble::InUse, SocketAddr::V6(_)) => Err(io::ErrorKind::Unsupported.into()),
        (Trouble::NotHere, _) => at::<R, TcpPort<First24, R>>(rt, nowhere, false),
        (Trouble::Mute, _) => at::<R, TcpPort<First24, R>>(rt, any, true),
        (Trouble::Connected, local) => {
            let stream = TcpStream::connect(rt, local)?;
            let connected = TcpListener::from(OwnedFd::from(stream));
            at::<R, ConnectedPort<R>>(rt, (connected, any), false)
        }
    }
}

/// Stops the test unless a server in this trouble ends like this, once more where memory was refused.
fn ends<R: ServerMachine + Net<Stream = TcpStream, Listener = TcpListener>>(
    rt: &R,
    trouble: Trouble,
    status: u8,
    output: &[u8],
    errors: &[u8],
) {
    for _ in 0..2 {
        if let Ok((ended, got, said)) = in_trouble(rt, trouble)
            && ended != 4
        {
            assert!(rt; ended == status, "{ended}");
            assert!(rt; got.starts_with(output) && output.is_empty() == got.is_empty());
            assert!(rt; said.as_slice() == errors);
            return;
        }
    }
    panic!(rt; "refused twice")
}

#[test]
fn an_address_that_cannot_be_had(rt: HostRuntime) {
    ends(&rt, Trouble::NotHere, 3, b"", b"adc_hub: address\n");
    ends(&rt, Trouble::InUse, 3, b"", b"adc_hub: address\n");
    ends(&rt, Trouble::Mute, 5, b"", b"adc_hub: input or output\n");
}

#[test]
fn a_listener_that_fails_is_given_up(rt: HostRuntime) {
    let (output, errors) = (b"listening 127.0.0.1:", b"adc_hub: address\n");
    ends(&rt, Trouble::Connected, 3, output, errors);
}
