use super::*;
use hub_rules::LineRefused;
use hub_setup::{Prepared, Says, prepare};
use inf_fields::FieldName;
use session_hash::First24;

/// Lines that are made ready for a hub where ana has the password `secret` and \u{e9} has `another`.
#[derive(Drop)]
pub(crate) struct Lines {
    setup: Setup,
}

impl Part for Lines {
    fn call(&mut self, rt: &impl Machine, row: Row<'_>, said: &mut Vec<u8>) {
        let challenge = match row.name {
            "challenged" => *b"foobarfoobarfoobarfoobar",
            _ => [0; 24],
        };
        let line = prepare_line(rt, &self.setup, challenge, row.bytes);
        match row.name {
            "says" => say_command(rt, said, &line),
            "nick" => say_nick(rt, said, &line),
            "owner" => say_digest(rt, said, line.owner()),
            "password" | "challenged" => say_digest(rt, said, line.password()),
            _ => unknown(rt, row.name),
        }
    }
}

fn prepare_line(rt: &impl Machine, setup: &Setup, challenge: [u8; 24], bytes: &[u8]) -> Prepared {
    got!(rt; "hub_setup::prepare", LineRefused::Memory, prepare(rt.alloc(), setup, &First24, challenge, bytes))
}

fn say_command(rt: &impl Abort, said: &mut Vec<u8>, line: &Prepared) {
    match line.says() {
        Says::Nothing => say(rt, said, "nothing"),
        Says::Message(line) => say_bytes(rt, said, &line.command()),
        Says::NoMessage => say(rt, said, "no message"),
    }
}

fn say_nick(rt: &impl Abort, said: &mut Vec<u8>, line: &Prepared) {
    match line.inf() {
        Some(inf) => {
            say(rt, said, "update ");
            say(rt, said, inf.update().get(FieldName::nick()).unwrap_or(""));
        }
        None => say(rt, said, "no update"),
    }
}

fn say_digest(rt: &impl Abort, said: &mut Vec<u8>, digest: Option<[u8; 24]>) {
    match digest {
        Some(digest) => say_bytes(rt, said, &digest),
        None => say(rt, said, "none"),
    }
}

fn hub(rt: &impl Machine) -> Setup {
    let ana = account("ana", "secret", true);
    let accounts = [ana, account("\u{e9}", "another", true)];
    setup(rt, &with_lists(&accounts, &[]))
}

pub(crate) fn play_lines<R: Machine>(rt: &R, rows: &str) {
    play(rt, &mut Lines { setup: hub(rt) }, rows);
}

#[test]
fn reads_lines(rt: HostRuntime) {
    rows! { play_lines(rt) r"
        == reads lines ==
        says <> -> nothing | <x20> -> no message | BINF -> no message | BINF AAAB NIa\b -> no message | HSUP ADBASE ADTIGR -> SUP
        says BMSG AAAB NIana -> MSG | DINF AAAB AAAC NIana -> INF | BINF AAAB 1Iana -> INF | BINF AAAB NIana SS10 -> INF | BINF AAAB SS10 -> INF
        nick <> -> no update | <x20> -> no update | BINF -> no update | BINF AAAB NIa\b -> no update | HSUP ADBASE ADTIGR -> no update
        nick BMSG AAAB NIana -> no update | DINF AAAB AAAC NIana -> no update | BINF AAAB 1Iana -> no update
        nick BINF AAAB NIana SS10 -> update ana | BINF AAAB SS10 -> update <>
        == makes digests ==
        owner BINF AAAB NIana -> none | BINF AAAB NIbob -> none | BINF AAAB NI<xc3><xa9> -> none | BINF AAAB NIe<xcc><x81> -> none
        owner BINF AAAB SS10 -> none | BINF AAAB PDMZXW6YTBOJTG633CMFZGM33PMJQXEZTPN5RGC4Q NIbob -> <4*foobar>
        owner BINF AAAB PDMZXW6YTBOJTG633CMFZGM33PMJQXEZTPN5RGC4Q NIana -> <4*foobar> | BINF AAAB PDMZXW6YTB NIana -> none
        owner DINF AAAB AAAC PDMZXW6YTBOJTG633CMFZGM33PMJQXEZTPN5RGC4Q NIana -> none | <> -> none
        password BINF AAAB NIana -> secret<18*x00> | BINF AAAB NIbob -> none | BINF AAAB NI<xc3><xa9> -> another<17*x00>
        password BINF AAAB NIe<xcc><x81> -> another<17*x00> | BINF AAAB SS10 -> none
        password BINF AAAB PDMZXW6YTBOJTG633CMFZGM33PMJQXEZTPN5RGC4Q NIbob -> none
        password BINF AAAB PDMZXW6YTBOJTG633CMFZGM33PMJQXEZTPN5RGC4Q NIana -> secret<18*x00> | BINF AAAB PDMZXW6YTB NIana -> secret<18*x00>
        password DINF AAAB AAAC PDMZXW6YTBOJTG633CMFZGM33PMJQXEZTPN5RGC4Q NIana -> none | <> -> none
        == hashes the password before the challenge ==
        challenged BINF AAAB NIana -> secret<3*foobar>
    " }
}

fn is_shared<T: Send + Sync>(_value: &T) -> bool {
    true
}

#[test]
fn threads_may_share_them(rt: HostRuntime) {
    let setup = hub(&rt);
    let line = prepare_line(&rt, &setup, [0; 24], b"BINF AAAB NIana");
    assert!(rt; is_shared(&setup) && is_shared(&line));
}
