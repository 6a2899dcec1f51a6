use crate::hub::{Hub, shared_setup};
use crate::refusal::*;

/// The lines of those who log in, in this order.
const LOGINS: [&str; 3] = [
    "BINF AAAB ID<P0> PD<P0> NIana SS10",
    "BINF AAAC ID<P1> PD<P1> NIbob SS20",
    "BINF AAAD ID<P2> PD<P2> NIcy SS30",
];

/// Opens a hub for three.
fn open(rt: &impl Abort, alloc: Global) -> Hub {
    Hub::open(rt, alloc, &options_for(3)).expect(rt, "options")
}

/// Joins, and logs in by this line.
fn enters(rt: &impl Abort, alloc: Global, hub: &mut Hub, login: &str) -> Conn {
    let connection = hub.join(rt).expect(rt, "not admitted");
    says(rt, hub, connection, b"HSUP ADBASE ADTIGR");
    says(rt, hub, connection, &spell(rt, alloc, login, 0));
    connection
}

fn says(rt: &impl Abort, hub: &mut Hub, connection: Conn, line: &[u8]) {
    let verdict = hub.line(rt, connection, line, 0);
    holds(rt, verdict == Verdict::Kept, "it is not kept");
}

/// Takes what waits for one, behind a byte that stays; it begins like this.
fn hears(rt: &impl Abort, hub: &mut Hub, connection: Conn, begin: &[u8]) {
    let heard = hub.take_behind(rt, connection, 256, b"?");
    holds(rt, heard.bytes.starts_with(begin), "it begins otherwise");
}

/// Takes what waits for one, behind a byte that stays; it is what is said to all.
fn hears_hi(rt: &impl Abort, hub: &mut Hub, connection: Conn) {
    let heard = hub.take_behind(rt, connection, 256, b"?");
    let hi = b"?BMSG AAAB hi\n".as_slice();
    holds(rt, heard.bytes.as_slice() == hi, "something else");
}

/// Tells of the call that was refused memory, if one was.
fn tells(rt: &(impl Abort + Print), hub: &Hub) {
    if let Some(call) = hub.refused() {
        holds(rt, tell(rt, call), "not written");
    }
}

#[test]
fn a_line_to_three(rt: HostRuntime) {
    let mut hub = open(&rt, rt.alloc());
    three_talk(&rt, rt.alloc(), &mut hub);
    tells(&rt, &hub);
}

fn three_talk(rt: &impl Abort, alloc: Global, hub: &mut Hub) {
    let [ana, bob, cy] = LOGINS;
    let ana = enters(rt, alloc, hub, ana);
    let bob = enters(rt, alloc, hub, bob);
    let cy = enters(rt, alloc, hub, cy);
    for who in [ana, bob, cy] {
        hears(rt, hub, who, b"?ISUP ADBASE ADTIGR ADPING ADUCMD\nISID AAA");
    }
    says(rt, hub, ana, b"BMSG AAAB hi");
    for who in [ana, bob, cy] {
        hears_hi(rt, hub, who);
    }
    let (users, ss, sf) = (3, 60, 0);
    let totals = Totals { users, ss, sf };
    holds(rt, hub.counts() == (totals, 3), "other counts");
}

fn asks<'a>(rt: &impl Abort, alloc: Global) -> Vec<Asked<'a>> {
    let mut asks = again!(rt; Vec::with_capacity(alloc, 2));
    for ask in [Ask::Join([127, 0, 0, 1], [0; 24], 0), Ask::Take(1, 1)] {
        keep(rt, &mut asks, Asked { caller: 1, ask });
    }
    asks
}

/// Makes the calls once; nothing where memory was refused before the first.
fn run(rt: &impl Abort, alloc: Global, setup: &Arc<Setup>) -> Option<(Core, Vec<Answer>)> {
    run_calls(alloc, again!(rt; setup.clone()), asks(rt, alloc)).ok()
}

/// Tests that a call is answered with `Memory`, and a take of nobody is not made, where memory is refused later than for the answers.
#[test]
fn calls(rt: HostRuntime) {
    let setup = shared_setup(&rt, rt.alloc(), &options_for(3));
    if !are_made(&rt, rt.alloc(), &setup) {
        tells_of_calls(&rt);
        holds(&rt, are_made(&rt, rt.alloc(), &setup), "refused twice");
    }
}

fn tells_of_calls(rt: &(impl Abort + Print)) {
    holds(rt, tell(rt, "hub_core::run_calls"), "not written");
}

/// Makes the calls, and stops the test unless they are answered as they should be. Tells whether they were made.
fn are_made(rt: &(impl Abort + Print), alloc: Global, setup: &Arc<Setup>) -> bool {
    let Some((core, answers)) = run(rt, alloc, setup) else {
        return false;
    };
    let all = answers.as_slice();
    if core.joins() == 1 {
        let is_right = matches!(all, [Answer::Joined(_), Answer::Took(..) | Answer::Memory]);
        holds(rt, is_right, "joined, and took, or had no memory to take");
    } else {
        tells_of_calls(rt);
        let is_right = matches!(all, [Answer::Memory, Answer::Skipped]);
        holds(rt, is_right, "no memory, and skipped");
    }
    true
}
