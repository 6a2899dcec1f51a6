use super::*;

/// Holds a conversation of ana with a new hub, of which one call moves at most so many bytes, once more where memory was refused, and compares
/// how it ends and what she hears: with a bell that never is rung, and with one that always is.
fn holds(rt: &impl Abort, bench: &Bench, room: usize, end: End, ana: &Transcript) {
    for bell in [Rung::Never, Rung::Always] {
        let is_held = is_held(rt, bench, room, end, ana, bell)
            || is_held(rt, bench, room, end, ana, bell);
        if !is_held {
            refused_twice(rt);
        }
    }
}

/// Holds a conversation; not where memory was refused.
fn is_held(
    rt: &impl Abort,
    bench: &Bench,
    room: usize,
    wanted: End,
    ana: &Transcript,
    bell: Rung,
) -> bool {
    let wire = Wire::new(rt, bench.alloc, &ana.said, room).slow();
    let (end, wire, _) = meet(rt, bench, None, wire, bell);
    if end == End::Memory {
        begins(rt, &wire.written, &ana.heard);
        return false;
    }
    is_end(rt, end, wanted);
    are_same(rt, &wire.written, &ana.heard);
    true
}

/// Lets a client say this to a new hub, once more where memory was refused.
fn says(rt: &impl Abort, bench: &Bench, input: &[u8], room: usize) -> (End, Wire) {
    for _ in 0..2 {
        let wire = Wire::new(rt, bench.alloc, input, room);
        let (end, wire, _) = meet(rt, bench, None, wire, Rung::Never);
        if end != End::Memory {
            return (end, wire);
        }
    }
    refused_twice(rt)
}

#[test]
fn a_client_is_greeted(rt: HostRuntime) {
    let bench = Bench::new(&rt);
    for (text, rooms) in [(GREETING, [1, 7, 4_096]), (ENTERED, [1, 7, 4_096])] {
        let ana = told(&rt, rt.alloc(), text, "ana");
        for room in rooms {
            holds(&rt, &bench, room, End::Closed, &ana);
        }
    }
}

const WITHOUT_THE_HASH: &str = r"ana says HSUP ADBASE -> ISTA 247 No\scommon\shash";

/// Says more, of which nothing is read.
const AND_MORE: &str = r"ana says HSUP ADBASE | HSUP ADBASE ADTIGR -> ISTA 247 No\scommon\shash";

#[test]
fn a_client_without_the_hash_is_shut_out(rt: HostRuntime) {
    let bench = Bench::new(&rt);
    for text in [WITHOUT_THE_HASH, AND_MORE] {
        let ana = told(&rt, rt.alloc(), text, "ana");
        holds(&rt, &bench, 12, End::Ended, &ana);
    }
    let ana = told(&rt, rt.alloc(), AND_MORE, "ana");
    let (end, wire) = says(&rt, &bench, &ana.said, 12);
    is_end(&rt, end, End::Ended);
    are_so_many(&rt, 0, wire.unread(), 19);
}

/// Gives what ana says and hears who enters, and then says so often a line that everybody gets.
fn chatter(rt: &impl Abort, alloc: Global, lines: u32) -> Transcript {
    let mut ana = told(rt, alloc, ENTERED, "ana");
    for _ in 0..lines {
        again!(rt; tests_support::append(&mut ana.said, b"BMSG AAAB hi\n"));
        again!(rt; tests_support::append(&mut ana.heard, b"BMSG AAAB hi\n"));
    }
    ana
}

#[test]
fn five_thousand_lines_without_pause_come_back(rt: HostRuntime) {
    let ana = chatter(&rt, rt.alloc(), 5_000);
    holds(&rt, &Bench::new(&rt), 4_096, End::Closed, &ana);
}

/// Tests that reads ask for 256 bytes, and for twice as many once one gave as many as it asked for, up to 2,048.
#[test]
fn reads_ask_for_more_where_more_comes(rt: HostRuntime) {
    let bench = Bench::new(&rt);
    for (lines, most) in [(0, 256), (250, 2_048)] {
        let ana = chatter(&rt, rt.alloc(), lines);
        let (_end, wire) = says(&rt, &bench, &ana.said, 4_096);
        are_so_many(&rt, 0, wire.first_room, 256);
        are_so_many(&rt, 1, wire.most_room, most);
    }
}

#[test]
fn one_write_carries_what_one_take_gave(rt: HostRuntime) {
    let ana = told(&rt, rt.alloc(), GREETING, "ana");
    let (_end, wire) = says(&rt, &Bench::new(&rt), &ana.said, 4_096);
    are_same(&rt, &wire.written, &ana.heard);
    are_so_many(&rt, 0, wire.writes as usize, 1);
}
