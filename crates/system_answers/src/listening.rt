ghost use Rattle.std.specs.Prelude.{◌≡◌};

use std::io;
use std::net::{Net, SocketAddr, SocketAddrV4};
use tokio::net::TcpListener;
use tokio::reactor::Handle;

/// Why the system gave no socket that listens. Only the calls of this crate make one.
#[derive(Drop)]
pub struct ListenFailed {
    error: io::Error,
}

impl ListenFailed {
    /// Gives the system's error.
    pub fn into_inner(self) -> io::Error
        ensures { result ≡ self.error }
    {
        self.error
    }
}

/// Gives a socket that listens at this address. It fails where the system does not give the address.
pub fn bound<R: Net>(rt: &R, address: SocketAddrV4) -> Result<std::net::TcpListener, ListenFailed> {
    match mio::net::TcpListener::bind(rt, SocketAddr::V4(address)) {
        Ok(socket) => Ok(socket.into()),
        Err(error) => Err(ListenFailed { error }),
    }
}

/// Has this reactor watch the socket. It fails where the system does not take it there.
pub fn registered(
    socket: std::net::TcpListener,
    handle: &Handle,
) -> Result<TcpListener, ListenFailed> {
    match TcpListener::from_std(socket, handle) {
        Ok(listener) => Ok(listener),
        Err(error) => Err(ListenFailed { error }),
    }
}
