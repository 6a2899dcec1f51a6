// Serves those who come to an address, and says what the theorem promises of them.
ghost use Rattle.std.specs.Prelude.{◌≡◌, ℕ};
ghost use Rattle.std.specs.Arc.{arc_value};
ghost use Rattle.tests_server.specs.Paid.{HasPaid};

use crate::machine::*;
use adc_sessions::Stream;
use hub_connections::{BindPort, Ticket};
use hub_listener::{Moments, Socket};
use hub_server::serve_at;
use hub_settings::Settings;
use server_laws::written_laws;
use session_hash::SessionHash;
use std::io::Write;

/// Serves those who come to this address until all are over, and gives the status. With status 0 each of them was written the first of what the
/// rules owe it, in the one history of the hub whose joins the output reports.
pub(crate) fn serve_paid<S, T, I, R, W, E>(
    rt: &R,
    settings: &Settings,
    hash: Arc<First24>,
    seed: [u8; 32],
    address: I::Address,
    output: &mut W,
    errors: &mut E,
) -> u8
where
    S: Socket + Send,
    T: Ticket<S, First24, R> + Send,
    I: BindPort<S, T, First24, R> + Send,
    R: ServerMachine,
    W: Write,
    E: Write + Send,
    ensures paid { result ≡ 0 → (joins : ℕ) × HasPaid T.terms T.number T.peer T.began ⟦<S as Stream>⟧.reports I.terms I.accepted ⟦<R as Moments>⟧.may_read
        W.contents settings.now.hub ⟦<First24 as SessionHash>⟧.digest_of (arc_value hash) rt.now seed (I.place_of address) settings.now.stop_after output.new joins }
{
    let status = serve_at::<S, T, I, First24, R, W, E>(
        rt, settings, hash, seed, address, output, errors,
    );
    written_laws::<S, T, First24, R>(rt);
    status
}
