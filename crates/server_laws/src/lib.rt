//! The laws of the server: what holds of whoever was served, in the history of a server that has closed its hub.
#![tactic(auto)]

ghost use Rattle.hub_connections.specs.Arrivals.{Arrives};
ghost use Rattle.hub_connections.specs.declared.terms.Terms.{Terms};
ghost use Rattle.server_laws.specs.Written.{EachWroteTheFirst, WrittenIsOwed};

use adc_sessions::Stream;
use hub_connections::Ticket;
use hub_listener::Moments;
use session_hash::SessionHash;

/// Says what was written to the connections of a server that has closed its hub: to each that was served, the first of what the rules
/// owe it in the one history of that hub, byte for byte. Where the session wrote all that it took these are whole lines, and all that
/// the connection is owed where the hub said that nothing will follow. That holds however the calls of a caller are read as visits, and
/// whatever moments the clock tells.
pub fn written_laws<S: Stream, T: Ticket<S, H, C>, H: SessionHash, C: Moments>(clock: &C)
    ensures paid { (terms : Terms H C) → EachWroteTheFirst ⟦<S as Stream>⟧.reports (C.may_read clock.now) (Arrives T.terms T.number T.peer T.began terms) }
    ensures written { WrittenIsOwed T.terms T.number T.peer T.began ⟦<S as Stream>⟧.reports (C.may_read clock.now) }
{
    let _ = clock;
}
