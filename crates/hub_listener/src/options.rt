//! Options of sockets that the standard library does not set.
ghost use Rattle.hub_listener.specs.Options.{Sets};

use libc::net;
use std::os::fd::RawFd;

/// An option of a socket, whose value is a number.
#[derive(Clone, Copy, Debug, PartialEq, Eq)]
pub(crate) enum SocketOption {
    /// The number of bytes that the system holds which were written and not sent. It takes twice as many.
    SendBuffer,
    /// Whether the system asks a peer that is silent whether it is still there: 1 if it does.
    KeepAlive,
    /// The number of seconds of silence after which the system asks for the first time.
    KeepAliveIdle,
    /// The number of seconds between two such questions.
    KeepAliveInterval,
    /// The number of questions without an answer after which the system gives the connection up.
    KeepAliveCount,
    /// The number of milliseconds after which the system gives up a connection whose peer does not take what was written.
    UserTimeout,
}

/// The word that the system was asked to set an option of a socket, and whether it took the value. Only the call that asked gives it.
#[derive(Clone, Copy)]
pub(crate) struct OptionCall {
    descriptor: RawFd,
    option: SocketOption,
    value: u32,
    is_taken: bool,
}

/// Sets an option of the socket with this descriptor, and gives the word of it.
pub(crate) fn set_option(descriptor: RawFd, option: SocketOption, value: u32) -> OptionCall
    ensures { Sets result descriptor option value }
{
    let mut bytes = [0; 16];
    bytes[..4].copy_from_slice(&value.to_ne_bytes());
    // Each call names its option, so that the check can tell that the contract takes it.
    let status = match option {
        SocketOption::SendBuffer => unsafe {
            net::setsockopt(descriptor, net::SOL_SOCKET, net::SO_SNDBUF, &bytes, 4)
        },
        SocketOption::KeepAlive => unsafe {
            net::setsockopt(descriptor, net::SOL_SOCKET, net::SO_KEEPALIVE, &bytes, 4)
        },
        SocketOption::KeepAliveIdle => unsafe {
            net::setsockopt(descriptor, net::IPPROTO_TCP, net::TCP_KEEPIDLE, &bytes, 4)
        },
        SocketOption::KeepAliveInterval => unsafe {
            net::setsockopt(descriptor, net::IPPROTO_TCP, net::TCP_KEEPINTVL, &bytes, 4)
        },
        SocketOption::KeepAliveCount => unsafe {
            net::setsockopt(descriptor, net::IPPROTO_TCP, net::TCP_KEEPCNT, &bytes, 4)
        },
        SocketOption::UserTimeout => unsafe {
            net::setsockopt(
                descriptor,
                net::IPPROTO_TCP,
                net::TCP_USER_TIMEOUT,
                &bytes,
                4,
            )
        },
    };
    OptionCall {
        descriptor,
        option,
        value,
        is_taken: status == 0,
    }
}
