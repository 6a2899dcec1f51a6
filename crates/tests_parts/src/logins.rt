mod asks;
pub(crate) mod denials;
pub(crate) mod supports;

use crate::rows::*;
use adc_line::Kind;
use login_state::{Check, Deny, Stage, check_pass};

/// Says how a check ends: the line of the denial, if any.
fn say_check(rt: &impl Machine, said: &mut Vec<u8>, check: Check) {
    match check {
        Check::Go => say(rt, said, "Go"),
        Check::Deny(deny) => say_denial(rt, said, deny),
    }
}

/// Says the line of a denial without its line feed. It is fatal where the first digit of its code is 2.
fn say_denial(rt: &impl Machine, said: &mut Vec<u8>, deny: Deny) {
    let line = got!(rt; "login_state::Deny::line", AllocError, deny.line(rt.alloc()));
    let (last, text) = line.split_last().expect(rt, "a line");
    let is_fatal = text.get(5) == Some(&b'2');
    assert!(rt; *last == b'\n' && deny.is_fatal() == is_fatal);
    say_bytes(rt, said, text);
}

/// Passwords, and what is asked for at which stage.
#[derive(Drop)]
struct Stages;

const STAGES: [Stage; 5] = [
    Stage::Protocol,
    Stage::Identify,
    Stage::Verify,
    Stage::Normal,
    Stage::Gone,
];

impl Part for Stages {
    fn call(&mut self, rt: &impl Machine, row: Row<'_>, said: &mut Vec<u8>) {
        match row.name {
            "pass" => pass(rt, row.bytes, said),
            name => say_requests(rt, named(rt, name, &STAGES), row.text, said),
        }
    }
}

/// Compares a digest with that of the password `secret`; an empty one is none.
fn pass(rt: &impl Machine, bytes: &[u8], said: &mut Vec<u8>) {
    let digest = b"secret\0\0\0\0\0\0\0\0\0\0\0\0\0\0\0\0\0\0";
    say_check(rt, said, check_pass(digest, twenty_four(bytes)));
}

/// Tells the kind of a line by its head, as `BMSG`.
fn kind(rt: &impl Abort, head: &str) -> Kind {
    match head.as_bytes().first() {
        Some(b'B') => Kind::Broadcast,
        Some(b'C') => Kind::Client,
        Some(b'D') => Kind::Direct,
        Some(b'E') => Kind::Echo,
        Some(b'F') => Kind::Feature,
        Some(b'H') => Kind::Hub,
        Some(b'I') => Kind::Info,
        Some(b'U') => Kind::Udp,
        _ => unknown(rt, head),
    }
}

fn command(rt: &impl Abort, head: &str) -> [u8; 3] {
    match head.as_bytes() {
        [_, a, b, c] => [*a, *b, *c],
        _ => unknown(rt, head),
    }
}

/// Says of each of some heads of lines what it asks for at a stage, or with which code it is denied.
fn say_requests(rt: &impl Machine, stage: Stage, heads: &str, said: &mut Vec<u8>) {
    for head in heads.split(' ') {
        say_next(rt, said, "");
        match stage.request(kind(rt, head), command(rt, head)) {
            Ok(request) => say_shown(rt, said, &request),
            Err(Deny::Protocol) => say(rt, said, "140"),
            Err(Deny::BadStage(first)) => {
                assert!(rt; first.as_slice() == head.as_bytes(), "{head}");
                say(rt, said, "144");
            }
            Err(_) => unknown(rt, head),
        }
    }
}

#[test]
fn stages_ask(rt: HostRuntime) {
    rows! { rt, Stages, r"
        == lets in with the password ==
        pass secret<18*x00> -> Go | <24*x00> | <> -> ISTA 223 Invalid\spassword
        == asks by stage ==
        Protocol HSUP HSTA HPAS HINF HMSG HQUI -> Greeting Nothing 144 144 144 144
        Protocol BINF BMSG BSUP DMSG EMSG FSCH CSUP ISUP UMSG -> 144 144 144 144 144 144 140 140 140
        Identify HSUP HSTA HPAS HINF HMSG HQUI -> 144 Nothing 144 144 144 144
        Identify BINF BMSG BSUP DMSG EMSG FSCH CSUP ISUP UMSG -> Login 144 144 144 144 144 140 140 140
        Verify HSUP HSTA HPAS HINF HMSG HQUI -> 144 Nothing Password 144 144 144
        Verify BINF BMSG BSUP DMSG EMSG FSCH CSUP ISUP UMSG -> 144 144 144 144 144 144 140 140 140
        Normal HSUP HSTA HPAS HINF HMSG HQUI -> Support Nothing 144 140 Act 140
        Normal BINF BMSG BSUP DMSG EMSG FSCH CSUP ISUP UMSG -> Update Message 140 Message Message Search 140 140 140
        Gone HSUP HSTA HPAS HINF HMSG HQUI -> 144 144 144 144 144 144
        Gone BINF BMSG BSUP DMSG EMSG FSCH CSUP ISUP UMSG -> 144 144 144 144 144 144 140 140 140
        == knows commands that clients may not send ==
        Normal BSUP BSID BQUI BGPA BPAS BCMD BMSG BSCH BSTA BXYZ BINF -> 140 140 140 140 140 140 Message Search Message Message Update
        Normal DSUP DSID DQUI DGPA DPAS DCMD DMSG DSCH DSTA DXYZ DINF -> 140 140 140 140 140 140 Message Search Message Message 140
        Normal ESUP ESID EQUI EGPA EPAS ECMD EMSG ESCH ESTA EXYZ EINF -> 140 140 140 140 140 140 Message Search Message Message 140
        Normal FSUP FSID FQUI FGPA FPAS FCMD FMSG FSCH FSTA FXYZ FINF -> 140 140 140 140 140 140 Message Search Message Message 140
        Normal HINF HSID HQUI HGPA HCMD HSUP HPAS HMSG HSTA HSCH HXYZ -> 140 140 140 140 140 Support 144 Act Nothing Nothing Nothing
        Normal CSID ISID USID -> 140 140 140
    " }
}
