// Sessions of any kind.
use crate::machine::*;
use adc_sessions::{Bell, End, Port, Session, SessionRefused};

/// The number of times that a session is polled at most.
const POLLS: u32 = 1_000;

/// Begins a session; nothing where memory was refused.
pub(crate) fn begin<S: AsyncRead + AsyncWrite, P: Port, B: Bell>(
    alloc: Global,
    stream: S,
    port: P,
    bell: B,
) -> Option<Session<S, P, B>> {
    match Session::new(alloc, stream, port, bell) {
        Ok(session) => Some(session),
        Err((SessionRefused::Memory, _stream, _port, _bell)) => None,
    }
}

/// Holds a session to its end, and gives its stream; nothing where it does not begin or does not end.
pub(crate) fn hold<S: AsyncRead + AsyncWrite, P: Port, B: Bell>(
    alloc: Global,
    task: &MockTask,
    stream: S,
    port: P,
    bell: B,
) -> Option<(End, S)> {
    let mut session = begin(alloc, stream, port, bell)?;
    for _poll in 0..POLLS {
        if let Poll::Ready((end, stream, _left)) = task.poll(&mut session) {
            return Some((end, stream));
        }
    }
    None
}
