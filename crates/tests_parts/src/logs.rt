ghost use Rattle.std.specs.Prelude.{◌≤◌, ◌<◌, ◌≡◌, true, length};
ghost use Rattle.shared_log.specs.Tables.{IsSettled};

use crate::base32::sid;
use crate::queues::batch;
use crate::rows::*;
use outboxes::{OutboxRefused, TakeRefused, Taken};
use shared_log::Backlogs;

/// Backlogs of connections, and what the last take gave.
#[derive(Drop)]
struct Log {
    backlogs: Backlogs,
}

impl Part for Log {
    fn call(&mut self, rt: &impl Machine, row: Row<'_>, said: &mut Vec<u8>) {
        let (first, second) = pair(row.text, ' ');
        match row.name {
            "room" => *self = log_of(rt, number(rt, first) as usize, number(rt, second) as usize),
            "joins" => join(rt, &mut self.backlogs),
            "enters" => enter(rt, &mut self.backlogs, number(rt, row.text) as usize),
            "leaves" => leave(rt, &mut self.backlogs, number(rt, row.text) as usize),
            "tells" => tell(rt, &mut self.backlogs, row.text),
            "gives" => give(rt, &mut self.backlogs, number(rt, first) as usize, second),
            "quits" => quit(rt, &mut self.backlogs, number(rt, first) as usize, second),
            "removes" => remove(rt, &mut self.backlogs, number(rt, row.text) as usize),
            "takes" => return takes(rt, &mut self.backlogs, row.text, said),
            _ => unknown(rt, row.name),
        }
        say_waiting(rt, &self.backlogs, said);
    }
}

fn log_of(rt: &impl Machine, cap: usize, bytes: usize) -> Log {
    let call = "shared_log::Backlogs::new";
    let backlogs = got!(rt; call, OutboxRefused::Memory, Backlogs::new(rt.alloc(), 3, cap, bytes));
    Log { backlogs }
}

fn join(rt: &impl Machine, backlogs: &mut Backlogs) {
    got!(rt; "shared_log::Backlogs::add", _, backlogs.len(), backlogs.add());
}

/// Settles a connection. Where memory is refused, it does so again.
fn settle(rt: &impl Machine, backlogs: &mut Backlogs, place: usize)
    ensures { IsSettled place backlogs.new }
{
    if place >= backlogs.len() {
        unknown(rt, "place");
    }
    got!(rt; "shared_log::Backlogs::settle", _,
        (backlogs.waiting(place), backlogs.lagging(place)), backlogs.settle(place));
}

fn enter(rt: &impl Machine, backlogs: &mut Backlogs, place: usize) {
    settle(rt, backlogs, place);
    backlogs.enter(place);
}

fn leave(rt: &impl Machine, backlogs: &mut Backlogs, place: usize) {
    settle(rt, backlogs, place);
    backlogs.leave(place);
}

fn give(rt: &impl Machine, backlogs: &mut Backlogs, place: usize, lines: &str) {
    let batch = batch(rt, lines);
    settle(rt, backlogs, place);
    backlogs.give(place, batch);
}

/// Makes room for a batch for all members. Where memory is refused, it does so again.
fn reserve(rt: &impl Machine, backlogs: &mut Backlogs)
    ensures { backlogs.new.is_ready ≡ true }
{
    got!(rt; "shared_log::Backlogs::reserve", _, backlogs.reserve());
}

fn tell(rt: &impl Machine, backlogs: &mut Backlogs, lines: &str) {
    let batch = batch(rt, lines);
    reserve(rt, backlogs);
    backlogs.give_members(batch);
}

fn quit(rt: &impl Machine, backlogs: &mut Backlogs, place: usize, number: &str) {
    let sid = sid(rt, small(rt, number));
    if place >= backlogs.len() {
        unknown(rt, "place");
    }
    backlogs.quit(place, sid);
}

fn remove(rt: &impl Machine, backlogs: &mut Backlogs, place: usize) {
    if place >= backlogs.len() {
        unknown(rt, "place");
    }
    backlogs.remove(place);
}

/// Says how many lines wait for each connection; `!` behind one that lags.
fn say_waiting(rt: &impl Machine, backlogs: &Backlogs, said: &mut Vec<u8>) {
    for place in 0..backlogs.len() {
        say_number(rt, said, backlogs.waiting(place) as u128);
        if backlogs.lagging(place) {
            say(rt, said, "!");
        }
    }
}

/// Takes so many lines of a connection, and says how many they were, and what they are.
fn takes(rt: &impl Machine, backlogs: &mut Backlogs, text: &str, said: &mut Vec<u8>) {
    let (place, count) = pair(text, ' ');
    let (place, count) = (number(rt, place) as usize, number(rt, count) as usize);
    if place >= backlogs.len() || count < 1 || count > 256 {
        unknown(rt, "takes");
    }
    let mut bytes = Vec::new(rt.alloc());
    let Taken { lines, ended } = take(rt, backlogs, place, count, &mut bytes);
    say_number(rt, said, lines as u128);
    say(rt, said, if ended { " last;" } else { ";" });
    say_bytes(rt, said, &bytes);
}

/// Takes lines. Where memory is refused all is as before, and it takes again.
fn take(rt: &impl Machine, logs: &mut Backlogs, at: usize, count: usize, out: &mut Vec<u8>) -> Taken
    requires place { at < length logs.old.rows }
    requires some { 1 ≤ count }
    requires few { count ≤ 256 }
{
    got!(rt; "shared_log::Backlogs::take", TakeRefused::Memory,
        (logs.waiting(at), logs.lagging(at), out.len()), logs.take(at, count, out))
}

pub(crate) fn play_log<R: Machine>(rt: &R, rows: &str) {
    play(rt, &mut log_of(rt, 1, 1), rows);
}

#[test]
fn what_all_hear_is_kept_once(rt: HostRuntime) {
    // A row tells how many lines wait for each connection, in the order in which they joined; `!` behind one that lags.
    rows! { play_log(rt) "
        == members hear what is told, in order with their own lines ==
        room 3 1000 -> <>
        joins -> 0 | -> 0 0
        enters 0 -> 0 0
        tells BMSG AAAB a -> 1 0
        enters 1 -> 1 0
        tells BMSG AAAB b -> 2 1
        gives 0 ISTA 000 c -> 3 1
        tells BMSG AAAB d -> 3! 2
        takes 0 2 -> 2;BMSG AAAB a<x0a>BMSG AAAB b<x0a>
        tells BMSG AAAB e -> 1! 3
        takes 0 256 -> 1 last;ISTA 000 c<x0a>
        takes 1 1 -> 1;BMSG AAAB b<x0a>
        leaves 1 -> 0! 2
        tells BMSG AAAB f -> 0! 2
        quits 0 1 -> 2
        takes 0 256 -> 2;BMSG AAAB d<x0a>BMSG AAAB e<x0a>
        == who stays is told of who left ==
        room 8 1000 -> <>
        joins -> 0 | -> 0 0
        enters 0 | 1 -> 0 0
        tells BMSG AAAB a;BMSG AAAB b -> 2 2
        takes 0 1 -> 1;BMSG AAAB a<x0a>
        quits 1 2 -> 2
        takes 0 256 -> 2;BMSG AAAB b<x0a>IQUI AAAC<x0a>
        removes 0 -> <>
        == a share goes in whole or not at all ==
        room 4 24 -> <>
        joins -> 0
        enters 0 -> 0
        tells BMSG AAAB a;BMSG AAAB b -> 2
        takes 0 1 -> 1;BMSG AAAB a<x0a>
        tells BMSG AAAB c -> 2 | BMSG AAAB d -> 2!
        takes 0 256 -> 2 last;BMSG AAAB b<x0a>BMSG AAAB c<x0a>
        == lines wait though the log lets them go ==
        // The log has three places at first.
        room 9 1000 -> <>
        joins -> 0 | -> 0 0
        enters 0 | 1 -> 0 0
        tells a -> 1 1 | b -> 2 2
        takes 1 256 -> 2;a<x0a>b<x0a>
        tells c -> 3 1 | d -> 4 2 | e -> 5 3
        takes 1 2 -> 2;c<x0a>d<x0a>
        tells f -> 6 2 | g -> 7 3 | h -> 8 4 | i -> 9 5 | j -> 9! 6
        takes 1 256 -> 6;e<x0a>f<x0a>g<x0a>h<x0a>i<x0a>j<x0a> | 0 256 -> 9 last;a<x0a>b<x0a>c<x0a>d<x0a>e<x0a>f<x0a>g<x0a>h<x0a>i<x0a>
    " }
}
