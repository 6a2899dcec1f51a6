// Conversations of clients as text, a step a line, of which `tests_support::Deed` tells. Ana is the first to connect, in most scenes, and Bob is
// another client.
use crate::client::{Client, connect};
use crate::gate::GateHash;
use std::net::{Net, SocketAddr};
use std::time::{Clock, Duration};
use tests_support::{Deed, Machine, Step, again};

/// The number of milliseconds that pass where a second passes.
const SECOND: u64 = 1_050;

/// Plays a conversation. Nothing where a client does not hear what it should.
pub fn plays<R: Clock + Net>(
    rt: &R,
    address: SocketAddr,
    gate: &GateHash,
    steps: &[Step<'_>],
) -> Option<()> {
    let (mut ana, mut bob) = (None, None);
    for step in steps {
        match step.who {
            "ana" => goes_on(rt, address, &mut ana, *step)?,
            "bob" => goes_on(rt, address, &mut bob, *step)?,
            _ => happens(rt, gate, step.deed)?,
        }
    }
    Some(())
}

/// A digest begins, or may end, or a second passes.
fn happens<R: Clock>(rt: &R, gate: &GateHash, deed: Deed) -> Option<()> {
    match deed {
        Deed::SecondPasses => rt.sleep(Duration::from_millis(SECOND)),
        Deed::DigestBegins => gate.begins()?,
        Deed::DigestMayEnd => gate.open(),
        _ => return None,
    }
    Some(())
}

/// A client connects, or goes on.
fn goes_on<R: Net>(
    rt: &R,
    address: SocketAddr,
    client: &mut Option<Client<R::Stream>>,
    step: Step<'_>,
) -> Option<()> {
    if matches!(step.deed, Deed::Connects | Deed::IsGreeted) {
        *client = Some(connect(rt, address)?);
    }
    client.as_mut()?.does(step.deed, step.line.as_bytes())?;
    if matches!(step.deed, Deed::Leaves | Deed::BreaksOff) {
        *client = None;
    }
    Some(())
}

/// Gives the conversation of these parts, whose words are spelled.
pub(crate) fn spelled<R: Machine>(rt: &R, parts: &[&str]) -> String {
    let mut text = Vec::new(rt.alloc());
    for part in parts {
        let spelled = tests_support::spell(rt.alloc(), part, 0).expect(rt, part);
        again!(rt; text.extend_from_slice(&spelled));
        again!(rt; text.push(b'\n'));
    }
    String::from_utf8(text).expect(rt, "UTF-8")
}
