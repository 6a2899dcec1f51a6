// Tests of what a listener does where no connection can be accepted.
use crate::machine::*;
use hub_listener::{Arrived, Listener, Listens};
use hub_warnings::Warnings;
use log::sink::Discard;
use log::{Level, Logged};
use server_tasks::Wakers;
use tokio::net::TcpStream;
use tokio::runtime::Runtime;

/// The number of times that a listener rests.
const RESTS: u32 = 100;

/// A socket that fails always, with one number.
#[derive(Drop)]
struct Failing {
    number: i32,
}

impl Listens for Failing {
    ghost use Rattle.std.specs.Prelude.{◌≡◌};
    ghost use Rattle.std.proofs.Common.{◌∙◌, refl};

    type Socket = TcpStream;

    type Ticket = ();

    // Nobody comes.
    ghost comes = { λ _ _ _. ⊥ };

    ghost waits = { λ a b. b.number ≡ a.number };

    fn poll_accept(&mut self, _cx: &mut Context<'_>) -> Poll<io::Result<Arrived<TcpStream, ()>>> {
        Poll::Ready(Err(io::Error::from_raw_os_error(self.number)))
    }

    fn address(&self) -> io::Result<SocketAddr> {
        Ok(SocketAddr::V4(SocketAddrV4::new(Ipv4Addr::LOCALHOST, 0)))
    }

    ghost waits_nothing = { λ a. refl };

    ghost waits_on = { λ a b c first second. second ∙ first };

    ghost waits_first = { λ a b it c first came. came };
}

/// The deed of a listener.
#[derive(Clone, Copy, PartialEq, Eq)]
enum Did {
    /// Says that accepting failed.
    Failed,
    /// Asks at once for another poll.
    Yielded,
    /// Rests, and looks again each time a socket was closed.
    Rested,
}

fn try_listener<R: ServerMachine>(rt: &R, number: i32) -> Option<Did> {
    let runtime = Runtime::with_worker_threads(rt, 1).ok()?;
    let timer = runtime.handle().time().sleep(rt, Duration::ZERO).ok()?;
    let wakers = Wakers::new(rt.alloc(), 1).ok()?;
    let warnings = Warnings::new(Logged::new((), Level::Warn, Discard));
    let task = MockTask::new(rt).ok()?;
    let mut listener = Listener::new(Failing { number }, &wakers, rt, &warnings, timer);
    for _rest in 0..RESTS {
        match task.enter(|cx| listener.poll_arrived(cx)) {
            Poll::Ready(Ok(arrived)) => {
                let Arrived {
                    ticket: (),
                    socket,
                    address: _,
                } = arrived;
                drop(socket);
                return None;
            }
            Poll::Ready(Err(_)) => return Some(Did::Failed),
            Poll::Pending if task.is_woken() => return Some(Did::Yielded),
            Poll::Pending => wakers.make_room(),
        }
        if !task.is_woken() {
            return None;
        }
    }
    Some(Did::Rested)
}

#[test]
fn a_listener_rests_goes_on_or_fails(rt: HostRuntime) {
    let gone = [4, 11, 64, 71, 92, 95, 100, 101, 103, 107, 112, 113];
    let rows: [(Did, &[i32]); 3] = [
        // Until a socket is closed.
        (Did::Rested, &[12, 23, 24, 28, 105]),
        // A connection that is gone is no fault.
        (Did::Yielded, &gone),
        (Did::Failed, &[9, 22]),
    ];
    for (wanted, numbers) in rows {
        for number in numbers {
            let did = again!(&rt; try_listener(&rt, *number).ok_or(AllocError));
            assert!(&rt; did == wanted, "{number}");
        }
    }
}
