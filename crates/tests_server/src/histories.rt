// Histories that are recorded while sessions over memory call on a hub, and what is found of them.
mod client;
pub(crate) mod clock;
mod play;
mod polls;
mod record;

use crate::conversation::spelled;
use crate::histories::play::{Way, plays};
use crate::histories::record::write_history;
use crate::machine::*;
use history_check::{Judgement, WrittenEntry, WrittenReply, check_history, read_history};
use hub_core::{Account, Options, PlainOptions, Setup};

/// The number of times that the clients talk on threads of their own.
const ROUNDS: u32 = 4;

/// The number of connections that the hub of a talk admits, one less than come to it.
const TALK_PLACES: u32 = 3;

/// The number of connections that the hub of a crowd admits.
const CROWD_PLACES: u32 = 4;

/// An operator and a user enter and talk, and the user is kicked; a third cannot agree on a hash, and for a fourth there is no room.
const TALK: &str = "\
op joins 127.0.0.1
op says HSUP ADBASE ADTIGR | BINF AAAB ID<P0> PD<P0> NIop
at 1 op says HPAS <secret>
at 5 bob joins 10.0.0.2
at 5 bob says HSUP ADBASE ADTIGR
at 5 bob says BINF AAAC ID<P1> PD<P1> NIbob SS5 SF1 SUTCP4
at 6 bob says BMSG AAAC hi
at 7 op says DMSG AAAB AAAC yo
at 8 bob says EMSG AAAC AAAB 100%
at 9 bob says BINF AAAC DEhi
at 9 cy joins 127.0.0.1
at 9 dan joins 127.0.0.1
at 9 cy says HSUP ADBASE
at 10 op says HMSG !kick\\sbob\\sbe\\skind
at 11 bob says BMSG AAAC still
at 12 op says BMSG AAAB bye
at 13 op leaves
";

/// Four users enter, talk and leave.
const CROWD: &str = "\
ana joins 127.0.0.1
bob joins 127.0.0.2
cy joins 127.0.0.3
dan joins 127.0.0.4
at 1 ana and bob and cy and dan say HSUP ADBASE ADTIGR
at 2 ana says BINF AAAB ID<P0> PD<P0> NIana
at 3 bob says BINF AAAC ID<P1> PD<P1> NIbob SUTCP4
at 4 cy says BINF AAAD ID<P2> PD<P2> NIcy
at 5 dan says BINF AAAE ID<P3> PD<P3> NIdan
at 6 ana says BMSG AAAB one
at 6 bob says BMSG AAAC one
at 6 cy says DMSG AAAD AAAB one
at 6 dan says EMSG AAAE AAAC one
at 7 ana says BMSG AAAB two
at 7 bob says BINF AAAC DEtwo
at 7 cy says BSCH AAAD ANtwo
at 7 dan says BMSG AAAE two
at 8 ana says DMSG AAAB AAAE three
at 8 bob says BMSG AAAC three
at 8 cy says BMSG AAAD three
at 8 dan says BINF AAAE NIbob
at 9 ana says BMSG AAAB four
at 9 bob says FMSG AAAC +TCP4 four
at 9 cy says BINF AAAD NIdora
at 9 dan says EMSG AAAE AAAB four
at 10 bob says BMSG AAAC five
at 10 dan says BMSG AAAB five
at 11 ana and bob leave
at 12 cy and dan leave
";

/// Words of the history, of which the first such are changed, and what is put in their place: another reply to a join and to a
/// line; another byte, number of lines and end of what was taken; another receiver; another caller.
const CHANGES: [(&str, &str); 7] = [
    ("0 joined 1", "0 joined 2"),
    ("1 line 1 0 kept", "1 line 1 0 ended"),
    ("NIHub", "NIHut"),
    ("1 more BMSG AAAC hi", "2 more BMSG AAAC hi"),
    ("1 more BMSG AAAC hi", "1 over BMSG AAAC hi"),
    (
        "1 take 1 256 1 more BMSG AAAC hi",
        "2 take 2 256 1 more BMSG AAAC hi",
    ),
    ("2 line 2 6", "1 line 2 6"),
];

/// The first words of a line of the history that comes too late where it changes places with the next.
const SWAPPED: &str = "2 line 2 6";

fn setup_for(alloc: Global, users: u32) -> Result<Arc<Setup>, AllocError> {
    let accounts = [Account {
        nick: "op",
        password: "secret",
        operator: true,
    }];
    let options = Options {
        accounts: &accounts,
        plain: PlainOptions::for_users(users),
        ..Options::named("Hub")
    };
    let setup = Setup::new(alloc, &options).map_err(|_| AllocError)?;
    Ok(Arc::new(alloc, setup)?)
}

/// Plays a conversation, once more where memory was refused.
fn history<R: ServerMachine>(
    rt: &R,
    setup: &Arc<Setup>,
    text: &str,
    way: Way,
) -> Vec<WrittenEntry> {
    let text = spelled(rt, &[text]);
    again!(rt; plays(rt, &text, setup, way).ok_or(AllocError))
}

fn judge<R: Machine>(rt: &R, setup: &Arc<Setup>, history: &[WrittenEntry]) -> Judgement {
    again!(rt; check_history(rt.alloc(), again!(rt; setup.clone()), &First24, history))
}

/// Counts those who joined, and those who left.
fn visits(history: &[WrittenEntry]) -> (usize, usize) {
    let (mut joined, mut left) = (0usize, 0usize);
    for entry in history {
        match entry.reply {
            WrittenReply::Joined(_) => joined = joined.wrapping_add(1),
            WrittenReply::Left => left = left.wrapping_add(1),
            _ => {}
        }
    }
    (joined, left)
}

/// Stops the test unless a history is legal in which as many joined and left as there were places.
fn is_legal<R: Machine>(rt: &R, setup: &Arc<Setup>, history: &[WrittenEntry], places: u32) {
    let visits = visits(history);
    assert!(rt; visits == (places as usize, places as usize), "{visits:?}");
    if let Judgement::Fault(place, _) = judge(rt, setup, history) {
        panic!(rt; "entry {place} of {}", history.len());
    }
}

/// Stops the test unless a history as text, which begins like this, is legal up to the line behind that, and not there.
fn is_found<R: Machine>(rt: &R, setup: &Arc<Setup>, text: &str, begin: &str) {
    let written = again!(rt; read_history(rt.alloc(), text.as_bytes()));
    let number = begin.bytes().filter(|byte| *byte == b'\n').count();
    match judge(rt, setup, &written.entries) {
        Judgement::Fault(place, _) => assert!(rt; place == number, "{place}, not {number}"),
        Judgement::Legal => panic!(rt; "{number} is legal"),
    }
}

/// Stops the test unless the line is named in which the first such words of a history are others.
fn change_is_found<R: Machine>(rt: &R, setup: &Arc<Setup>, text: &str, old: &str, new: &str) {
    let (begin, behind) = text.split_once(old).expect(rt, old);
    let changed = again!(rt; format!(in rt.alloc(); "{begin}{new}{behind}"));
    is_found(rt, setup, &changed, begin);
}

/// Stops the test unless the line is named that has these words at first and changed places with the next.
fn swap_is_found<R: Machine>(rt: &R, setup: &Arc<Setup>, text: &str, words: &str) {
    let (begin, behind) = text.split_once(words).expect(rt, words);
    let (line, behind) = behind.split_once('\n').expect(rt, "a line");
    let (next, behind) = behind.split_once('\n').expect(rt, "the next");
    let changed = again!(rt; format!(in rt.alloc(); "{begin}{next}\n{words}{line}\n{behind}"));
    is_found(rt, setup, &changed, begin);
}

#[test]
fn a_history_of_one_thread_is_legal(rt: HostRuntime) {
    let setup = again!(&rt; setup_for(rt.alloc(), TALK_PLACES));
    let talk = history(&rt, &setup, TALK, Way::Alone);
    is_legal(&rt, &setup, &talk, TALK_PLACES);
    let setup = again!(&rt; setup_for(rt.alloc(), CROWD_PLACES));
    let crowd = history(&rt, &setup, CROWD, Way::Alone);
    is_legal(&rt, &setup, &crowd, CROWD_PLACES);
}

#[test]
fn a_history_of_four_threads_is_legal(rt: HostRuntime) {
    let setup = again!(&rt; setup_for(rt.alloc(), CROWD_PLACES));
    for _round in 0..ROUNDS {
        let crowd = history(&rt, &setup, CROWD, Way::Apart);
        is_legal(&rt, &setup, &crowd, CROWD_PLACES);
    }
}

#[test]
fn a_history_is_read_and_a_change_is_found(rt: HostRuntime) {
    let setup = again!(&rt; setup_for(rt.alloc(), TALK_PLACES));
    let talk = history(&rt, &setup, TALK, Way::Alone);
    let text = again!(&rt; write_history(rt.alloc(), &talk));
    let written = again!(&rt; read_history(rt.alloc(), &text));
    // What stands in the text is all that an entry has.
    assert!(&rt; again!(&rt; write_history(rt.alloc(), &written.entries)) == text);
    let text = String::from_utf8(text).expect(&rt, "UTF-8");
    for (old, new) in CHANGES {
        change_is_found(&rt, &setup, &text, old, new);
    }
    swap_is_found(&rt, &setup, &text, SWAPPED);
}
