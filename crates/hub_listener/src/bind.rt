ghost use Rattle.hub_listener.specs.Options.{Sets};
ghost use Rattle.hub_listener.specs.declared.options.SocketOption.TheVariants.{SendBuffer, KeepAlive, KeepAliveIdle, KeepAliveInterval, KeepAliveCount, UserTimeout};

use crate::options::{OptionCall, SocketOption, set_option};
use std::net::{Net, SocketAddrV4};
use std::os::fd::{AsRawFd, RawFd};
use system_answers::{ListenFailed, bound, registered};
use tokio::net::TcpListener;
use tokio::reactor::Handle;

/// The number of bytes that the system is asked to hold for each socket. It takes twice as many, and says that there is room again
/// once a third is free: with more a client that reads slowly seems to take nothing for long.
const SEND_BUFFER: u32 = 131_072;

/// The number of seconds of silence after which the system asks a peer whether it is still there, those between two questions, and the
/// number of questions.
const ASKS_AFTER: u32 = 60;

const ASKS_EVERY: u32 = 10;

const ASKS: u32 = 3;

/// The number of milliseconds after which the system gives up a peer that takes nothing of what was written, or answers no question. With it set
/// Linux goes by it and not by the number of questions.
const GIVES_UP: u32 = 120_000;

/// Listens at this address. It fails where the system does not give the address.
pub fn listen<R: Net>(
    rt: &R,
    address: SocketAddrV4,
    handle: &Handle,
) -> Result<TcpListener, ListenFailed> {
    let socket = bound(rt, address)?;
    let _ = set_options(socket.as_raw_fd());
    registered(socket, handle)
}

/// What the system was asked of a socket that listens.
#[derive(Clone, Copy)]
struct ListeningOptions {
    buffer: OptionCall,
    asks: OptionCall,
    asks_after: OptionCall,
    asks_every: OptionCall,
    asks_at_most: OptionCall,
    gives_up: OptionCall,
}

/// Sets the options of a socket that listens, from which accepted ones have them. Where the system refuses one they have the system's own.
/// A peer that is silent for a minute is asked whether it is there, and one that takes or answers nothing is given up after two.
fn set_options(descriptor: RawFd) -> ListeningOptions
    ensures buffer { Sets result.buffer descriptor SendBuffer 131_072 }
    ensures asks { Sets result.asks descriptor KeepAlive 1 }
    ensures asks_after { Sets result.asks_after descriptor KeepAliveIdle 60 }
    ensures asks_every { Sets result.asks_every descriptor KeepAliveInterval 10 }
    ensures asks_at_most { Sets result.asks_at_most descriptor KeepAliveCount 3 }
    ensures gives_up { Sets result.gives_up descriptor UserTimeout 120_000 }
{
    ListeningOptions {
        buffer: set_option(descriptor, SocketOption::SendBuffer, SEND_BUFFER),
        asks: set_option(descriptor, SocketOption::KeepAlive, 1),
        asks_after: set_option(descriptor, SocketOption::KeepAliveIdle, ASKS_AFTER),
        asks_every: set_option(descriptor, SocketOption::KeepAliveInterval, ASKS_EVERY),
        asks_at_most: set_option(descriptor, SocketOption::KeepAliveCount, ASKS),
        gives_up: set_option(descriptor, SocketOption::UserTimeout, GIVES_UP),
    }
}
