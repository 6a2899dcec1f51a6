use crate::rows::*;
use adc_ids::{Cid, Nick, NickFault, Pid};

/// Identifiers of clients, and nicks.
#[derive(Drop)]
pub(crate) struct Identities;

impl Part for Identities {
    fn call(&mut self, rt: &impl Machine, row: Row<'_>, said: &mut Vec<u8>) {
        match row.name {
            "identifier" => identifier(rt, row.bytes, said),
            "nick" => match parse_nick(rt, row.text) {
                Ok(nick) => say(rt, said, &key(rt, &nick)),
                Err(fault) => say_shown(rt, said, &fault),
            },
            "alike" => alike(rt, row.text, said),
            _ => unknown(rt, row.name),
        }
    }
}

/// Says what a text says as a client identifier, and the same as a private one.
fn identifier(rt: &impl Abort, text: &[u8], said: &mut Vec<u8>) {
    let bytes = cid_bytes(text);
    assert!(rt; pid_bytes(text) == bytes, "they differ");
    if let Some(bytes) = bytes {
        assert!(rt; is_text_of(bytes, text), "they differ");
        say_any(rt, said, Some(&bytes));
    } else {
        say_any(rt, said, None);
    }
}

fn cid_bytes(text: &[u8]) -> Option<[u8; 24]> {
    Some(Cid::parse(text)?.bytes())
}

fn pid_bytes(text: &[u8]) -> Option<[u8; 24]> {
    Some(Pid::parse(text)?.bytes())
}

/// Answers whether the client identifier of these bytes is the one that the text says, and is said so.
fn is_text_of(bytes: [u8; 24], text: &[u8]) -> bool {
    let cid = Cid::from_bytes(bytes);
    cid.text().as_slice() == text && Cid::parse(text) == Some(cid)
}

fn parse_nick(rt: &impl Machine, text: &str) -> Result<Nick, NickFault> {
    twice!(rt; "adc_ids::Nick::parse", NickFault::Memory, Nick::parse(rt.alloc(), text))
}

/// Reads a nick that is one.
pub(crate) fn nick(rt: &impl Machine, text: &str) -> Nick {
    parse_nick(rt, text).expect(rt, text)
}

pub(crate) fn key(rt: &impl Machine, nick: &Nick) -> String {
    got!(rt; "adc_ids::Nick::key", AllocError, nick.key(rt.alloc()))
}

/// Says whether two nicks have one key.
fn alike(rt: &impl Machine, text: &str, said: &mut Vec<u8>) {
    let (one, other) = pair(text, ' ');
    let (one, other) = (key_of(rt, one), key_of(rt, other));
    say_whether(rt, said, one.as_str() == other.as_str());
}

pub(crate) fn key_of(rt: &impl Machine, text: &str) -> String {
    key(rt, &nick(rt, text))
}

#[test]
fn identifiers_and_nicks_are_read(rt: HostRuntime) {
    rows! { rt, Identities, "
        == reads identifiers ==
        identifier <39*A> -> <24*x00> | <38*A>Y -> <23*x00><x03> | MZXW6YTBOJTG633CMFZGM33PMJQXEZTPN5RGC4Q -> <4*foobar>
        identifier <> | <38*A> | <38*A>B | <38*A>a | <40*A> -> none
        == takes nicks ==
        nick a -> a | ! -> ! | ana -> ana | \u{e9} -> \u{e9} | a\u{a0}b -> a\u{a0}b
        nick <> | <x20> | a b | ana<x20> | a<x0a>b | <x00> -> Invalid | <64*\u{1F600}> -> <64*\u{1F600}> | <65*\u{1F600}> -> Invalid
        == compares nicks by their key ==
        alike \u{e9} e\u{301} -> yes | \u{e9} e | Ana ana -> no | \u{212b} \u{c5} -> yes
    " }
}
