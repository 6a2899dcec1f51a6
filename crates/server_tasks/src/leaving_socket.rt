ghost use Rattle.std.specs.Prelude.{◌≡◌};

use std::marker::Model;

/// A socket that leaves: nobody reads or writes it any more, and nobody gets its stream back. It cannot be dropped, only be let out,
/// by which its last lines reach the client. Contracts see its stream.
pub struct LeavingSocket<S> {
    stream: S,
}

impl<S> Model for LeavingSocket<S> {
    ghost Value = { S };

    ghost view = { λ socket. socket.stream };
}

impl<S> LeavingSocket<S> {
    /// Makes one of this stream.
    pub fn new(stream: S) -> LeavingSocket<S>
        ensures { result ≡ stream }
    {
        LeavingSocket { stream }
    }

    pub(crate) fn into_stream(self) -> S
        ensures { result ≡ self }
    {
        let LeavingSocket { stream } = self;
        stream
    }
}
