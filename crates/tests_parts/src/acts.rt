use crate::identities::key;
use crate::rows::*;
use adc_ids::{Cid, Nick};
use operator_acts::{Act, ActFault, BanRefused, Bans, FreeText, Left};

/// The texts that operators write.
#[derive(Drop)]
pub(crate) struct Acts;

impl Part for Acts {
    fn call(&mut self, rt: &impl Machine, row: Row<'_>, said: &mut Vec<u8>) {
        match twice!(rt; "operator_acts::Act::parse", ActFault::Memory, Act::parse(rt.alloc(), row.text))
        {
            Ok(act) => say_act(rt, said, act),
            Err(fault) => say_shown(rt, said, &fault),
        }
    }
}

fn say_act(rt: &impl Machine, said: &mut Vec<u8>, act: Act<'_>) {
    match act {
        Act::Kick { nick, reason } => {
            say_whom(rt, said, "kick ", &nick);
            say_text(rt, said, "", &reason);
        }
        Act::Ban {
            nick,
            seconds,
            reason,
        } => {
            say_whom(rt, said, "ban ", &nick);
            say_number(rt, said, seconds as u128);
            say_text(rt, said, "", &reason);
        }
        Act::Unban(cid) => {
            say(rt, said, "unban ");
            say_bytes(rt, said, &cid.bytes());
        }
        Act::Topic(topic) => say_text(rt, said, "topic", &topic),
    }
}

fn say_whom(rt: &impl Machine, said: &mut Vec<u8>, act: &str, nick: &Nick) {
    say(rt, said, act);
    say(rt, said, &key(rt, nick));
}

fn say_text(rt: &impl Abort, said: &mut Vec<u8>, act: &str, text: &FreeText<'_>) {
    say(rt, said, act);
    if !text.is_empty() {
        say(rt, said, ": ");
    }
    say(rt, said, text.as_str());
}

/// The bans. A client identifier is told by its first byte and its last, with zeros between.
#[derive(Drop)]
pub(crate) struct BanList {
    pub(crate) bans: Bans,
}

impl Part for BanList {
    fn call(&mut self, rt: &impl Machine, row: Row<'_>, said: &mut Vec<u8>) {
        match row.name {
            "alone" => say_what_is_left(rt, row.text, said),
            "fill" => fill(rt, &mut self.bans, small(rt, row.text), said),
            "count" => say_number(rt, said, self.bans.count() as u128),
            _ => on_one(rt, &mut self.bans, row.name, row.text, said),
        }
    }
}

/// Reads the client identifier that two numbers tell, and gives what stands behind them.
fn cid_of<'t>(rt: &impl Abort, text: &'t str) -> (Cid, &'t str) {
    let (first, rest) = pair(text, ' ');
    let (last, rest) = pair(rest, ' ');
    (cid_between(byte(rt, first), byte(rt, last)), rest)
}

fn cid_between(first: u8, last: u8) -> Cid {
    let mut bytes = [0; 24];
    bytes[0] = first;
    bytes[23] = last;
    Cid::from_bytes(bytes)
}

/// Says what is left of the one ban before it is set and then, and of two others.
fn say_what_is_left(rt: &impl Machine, text: &str, said: &mut Vec<u8>) {
    let (seconds, rest) = pair(text, ' ');
    let (from, now) = pair(rest, ' ');
    let (now, cid) = (number(rt, now), cid_between(7, 7));
    let mut bans = Bans::new(rt.alloc());
    say_left(rt, said, bans.left(cid, now));
    let added = add(rt, &mut bans, cid, small(rt, seconds), number(rt, from));
    assert!(rt; added == "ok", "not added");
    for (first, last) in [(7, 7), (7, 8), (8, 7)] {
        say_left(rt, said, bans.left(cid_between(first, last), now));
    }
}

fn on_one<R: Machine>(rt: &R, bans: &mut Bans, name: &str, text: &str, said: &mut Vec<u8>) {
    let (cid, rest) = cid_of(rt, text);
    match name {
        "add" => {
            let (seconds, now) = pair(rest, ' ');
            let answer = add(rt, bans, cid, small(rt, seconds), number(rt, now));
            say(rt, said, answer);
        }
        "left" => say_left(rt, said, bans.left(cid, number(rt, rest))),
        "remove" => say_whether(rt, said, bans.remove(cid)),
        _ => unknown(rt, name),
    }
}

/// Adds a ban, and gives what is answered. Where memory is refused all is as before, and the ban is added again.
fn add(rt: &impl Machine, bans: &mut Bans, cid: Cid, seconds: u32, now: u64) -> &'static str {
    let call = "operator_acts::Bans::add";
    match twice!(rt; call, BanRefused::Memory, view_of(bans, cid, now), bans.add(cid, seconds, now))
    {
        Ok(()) => "ok",
        Err(BanRefused::Full) => "Full",
        Err(BanRefused::Memory) => "Memory",
    }
}

/// Gives how many bans there are, and what is left of one and of that of the client identifier 0.
fn view_of(bans: &Bans, cid: Cid, now: u64) -> (usize, Left, Left) {
    let zero = cid_between(0, 0);
    (bans.count(), bans.left(cid, now), bans.left(zero, now))
}

/// Bans so many for a second from the moment 0, until one is refused; says the last answer.
fn fill(rt: &impl Machine, bans: &mut Bans, count: u32, said: &mut Vec<u8>) {
    let mut answer = "";
    for number in 0..count {
        let cid = cid_between((number / 256 % 256) as u8, (number % 256) as u8);
        answer = add(rt, bans, cid, 1, 0);
        if answer != "ok" {
            break;
        }
    }
    say(rt, said, answer);
}

fn say_left(rt: &impl Machine, said: &mut Vec<u8>, left: Left) {
    match left {
        Left::Free => say_next(rt, said, "free"),
        Left::Ever => say_next(rt, said, "ever"),
        Left::For(seconds) => say_number(rt, said, seconds as u128),
    }
}

#[test]
fn acts_are_read(rt: HostRuntime) {
    rows! { rt, Acts, "
        == reads kicks ==
        read !kick bob | !kick bob<x20> -> kick bob | !kick bob rude -> kick bob: rude | !kick bob  rude -> kick bob:  rude
        read !kick bob very rude<x20> -> kick bob: very rude<x20> | !kick bob line<x0a>line -> kick bob: line<x0a>line
        read !kick e\u{301} \u{e9} -> kick \u{e9}: \u{e9}
        == reads bans ==
        read !ban bob 0 -> ban bob 0 | !ban bob 60 | !ban bob 60<x20> -> ban bob 60 | !ban bob 60 rude -> ban bob 60: rude
        read !ban bob 60  7 -> ban bob 60:  7 | !ban bob 0000000060 rude -> ban bob 60: rude | !ban bob 4294967295 -> ban bob 4294967295
        == reads unbans ==
        read !unban <39*A> -> unban <24*x00> | !unban <38*A>I -> unban <23*x00><x01> | !unban <38*A>Y -> unban <23*x00><x03>
        == reads topics ==
        read !topic | !topic<x20> -> topic | !topic new one -> topic: new one | !topic  x -> topic:  x | !topic x<x20> -> topic: x<x20>
        read !topic !kick bob -> topic: !kick bob
        == refuses other texts ==
        read <> | ! | <x20> | hello | !dance | !dance bob | kick bob | !KICK bob | <x20>!kick bob | !kickbob | !kick | !kick<x20> -> Bad
        read !kick  bob | !kick b<x09>b | !ban | !ban bob | !ban bob<x20> | !ban bob  60 | !ban  60 | !ban bob x | !ban bob 6x -> Bad
        read !ban bob +6 | !ban bob -6 | !ban bob 4294967296 | !ban bob 9999999999 | !ban bob 00000000060 | !unban | !unban<x20> -> Bad
        read !unban bob | !unban <38*A>Y<x20> | !unban <38*A>Y x | !unban  <38*A>Y | !unban <38*A>B | !unban <38*A> | !unban <38*a>y -> Bad
        read !topicnew -> Bad
    " }
}

pub(crate) fn play_bans<R: Machine>(rt: &R, rows: &str) {
    let bans = Bans::new(rt.alloc());
    play(rt, &mut BanList { bans }, rows);
}

#[test]
fn bans_are_kept(rt: HostRuntime) {
    rows! { play_bans(rt) "
        == tells what is left ==
        // For how many seconds somebody is banned, from which moment, and at which moment it is looked: what is left before, what then, and what
        // of two others.
        alone 60 100 100 -> free 60 free free | 60 100 159 -> free 1 free free | 60 100 160 -> free free free free
        alone 60 100 99 -> free 61 free free | 60 100 18446744073709551615 -> free free free free
        alone 0 100 100 | 0 100 0 | 0 100 18446744073709551615 -> free ever free free | 1 0 0 -> free 1 free free
        alone 1 0 1 -> free free free free | 5 18446744073709551614 18446744073709551614 -> free 1 free free
        alone 5 18446744073709551614 18446744073709551615 -> free free free free
        alone 4294967295 18446744073709551615 0 -> free 18446744073709551615 free free | 4294967295 0 0 -> free 4294967295 free free
        == keeps the last act on each ==
        remove 1 1 -> no
        add 1 1 60 100 | 0 2 0 100 | 1 1 5 10 -> ok
        count -> 2
        left 1 1 12 -> 3 | 1 1 100 -> free
        remove 1 1 -> yes | 1 1 -> no
        left 1 1 12 -> free | 0 2 12 -> ever
        count -> 1
        == holds no more than 1024 ==
        // Each of the first has run out, and counts.
        fill 1024 -> ok
        left 3 255 100 -> free
        count -> 1024
        add 4 0 1 100 -> Full
        left 4 0 100 -> free
        add 2 9 9 100 -> ok
        left 2 9 100 -> 9
        count -> 1024
        remove 3 255 -> yes
        add 4 0 1 100 -> ok
        left 4 0 100 -> 1
    " }
}
