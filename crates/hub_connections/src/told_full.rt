ghost use Rattle.hub_connections.specs.Owed.{IsToldFull, WritesFull};

use hub_listener::Socket;

/// The word that one call tried to tell a connection that the hub is full. It cannot be dropped.
pub struct ToldFull(());

impl ToldFull {
    /// Ends it.
    pub fn end(self) {
        let ToldFull(()) = self;
    }
}

/// Says on a socket that the hub is full, by one call, and nothing else, and gives the word of it. It is one line on a fresh socket,
/// which takes all of it or is not worth more.
pub(crate) fn say_full<S: Socket>(stream: &mut S) -> ToldFull
    ensures said { ∥ IsToldFull S.tries stream.old stream.new ∥₁ }
    ensures wrote { ∥ WritesFull S.writes stream.old stream.new ∥₁ }
{
    let _ = S::outcome(stream.try_write(b"ISTA 211 Hub\\sfull\n"));
    ToldFull(())
}
