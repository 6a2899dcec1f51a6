//! The causes for which no connection could be accepted.

ghost use Rattle.std.specs.Prelude.{◌≡◌, ◌≢◌};
ghost use Rattle.std.specs.IoError.{error_kind, raw_os_error};
ghost use Rattle.server_tasks.specs.Faults.{error_by};

use std::io::{self, ErrorKind};

/// The cause for which a listener's call failed.
#[derive(Clone, Copy, Debug, PartialEq, Eq)]
pub enum AcceptError {
    /// The system lacks memory for another socket.
    Memory,
    /// The system lacks descriptors, or other room.
    Room,
    /// The connection was gone, or broken, before it was accepted.
    Gone,
    /// The listener itself is at fault.
    Listener,
}

/// Tells them apart, by Linux's numbers.
pub fn accept_error_of(error: &io::Error) -> AcceptError
    ensures memory { error_kind error.now ≡ ErrorKind.OutOfMemory → result ≡ AcceptError.Memory }
    ensures others { error_kind error.now ≢ ErrorKind.OutOfMemory → result ≡ error_by (raw_os_error error.now) }
{
    match error.kind() {
        ErrorKind::OutOfMemory => AcceptError::Memory,
        _ => error_of_number(error.raw_os_error()),
    }
}

/// Tells apart those that are no want of memory.
fn error_of_number(number: Option<i32>) -> AcceptError
    ensures { result ≡ error_by number }
{
    match number {
        // ENFILE, EMFILE, ENOSPC, ENOBUFS.
        Some(23 | 24 | 28 | 105) => AcceptError::Room,
        // EINTR, EAGAIN, ENONET, EPROTO, ENOPROTOOPT, EOPNOTSUPP, ENETDOWN, ENETUNREACH, ECONNABORTED, ENOTCONN,
        // EHOSTDOWN, EHOSTUNREACH.
        Some(4 | 11 | 64 | 71 | 92 | 95 | 100 | 101 | 103 | 107 | 112 | 113) => AcceptError::Gone,
        _ => AcceptError::Listener,
    }
}
