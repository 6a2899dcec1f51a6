use crate::memory::{Memory, Rest};
use adc_base32::Sid;
use hub_client::{
    Client, ClientFault, ClientIdentity, HubRequest, HubUser, LoginStep, NickText, act_line,
    chat_line, field_text, login_line, password_line,
};
use session_hash::First24;
use std::alloc::{AllocError, Global};
use tests_support::{Machine, again, transcript_of};

/// The client greets, is greeted, and sends its login.
const HELLO: &str = r"
op says HSUP ADBASE ADTIGR -> ISUP ADBASE ADTIGR ADPING ADUCMD | ISID AAAC | IINF CT32 NIHub VEadc-hub\s1.0 DEBe\skind
op says BINF AAAC ID<P0> PD<P0> NIop SS0 SF0 VEadc-hubctl\s1.0
";

/// It answers a challenge of zeros, by the password `secret` and the hash of tests.
const ASKED: &str = "op hears IGPA <39*A>\nop says HPAS <secret>";

const LIST: &str = r"op hears BINF AAAB IDMFXGC<34*A> NIana SS10 SF2 DEa\sb I4127.0.0.1";

const OWN: &str = r"op hears BINF AAAC ID<P0> NIop SS0 SF0 CT4";

const KICK: &str = r"op says HMSG !kick\sana\sbe\skind";

/// A deed of an operator.
#[derive(Clone, Copy)]
enum Deed {
    Kick,
    Say,
    List,
}

type Told = Result<String, ClientFault>;

/// The outcome as text: the answer, the users, or why it failed.
fn outcome(alloc: Global, memory: &mut Memory<'_>, deed: Deed) -> Told {
    let mut client = Client::new(alloc, memory);
    let sid = client.hello(false)?.sid;
    let nick = NickText::parse(alloc, "op").map_err(|_| ClientFault::Memory)?;
    let login = login_line(alloc, sid, &ClientIdentity::of(&First24, [0; 24]), &nick)?;
    if let LoginStep::Challenged(challenge) = client.enter(sid, &login)? {
        let answer = password_line(alloc, &First24, "secret", &challenge)?;
        if let LoginStep::Challenged(_) = client.enter(sid, &answer)? {
            return Err(ClientFault::NotAdc);
        }
    }
    act(alloc, &mut client, sid, deed)
}

fn act(alloc: Global, client: &mut Client<&mut Memory<'_>>, sid: Sid, deed: Deed) -> Told {
    match deed {
        Deed::Kick => {
            let Ok(request) = HubRequest::kick(alloc, "ana", "be kind") else {
                return Err(ClientFault::Memory);
            };
            let Ok(line) = act_line(alloc, &request) else {
                return Err(ClientFault::Memory);
            };
            let mut told = client.ask(&line)?.to_string(alloc)?;
            if let Some(who) = client.sent_away(sid)? {
                for part in [&who.nick, &who.cid] {
                    told.push_str(" ")?;
                    told.push_str(part)?;
                }
            }
            Ok(told)
        }
        Deed::Say => {
            client.chat(&chat_line(alloc, sid, "hi all")?)?;
            Ok(String::from_str(alloc, "said")?)
        }
        Deed::List => {
            let mut list = String::new(alloc);
            for line in client.users() {
                push_user(&mut list, &HubUser::read(alloc, line)?)?;
            }
            Ok(list)
        }
    }
}

fn push_user(list: &mut String, user: &HubUser) -> Result<(), AllocError> {
    list.push_str(&user.nick)?;
    list.push_str("|")?;
    list.push_str(user.role.name())?;
    for part in [&user.cid, &user.address, &user.share, &user.description] {
        list.push_str("|")?;
        list.push_str(part)?;
    }
    list.push_str("|")
}

/// Tells the outcome in words. Refused only where memory runs out.
fn outcome_text(alloc: Global, memory: &mut Memory<'_>, deed: Deed) -> Told {
    match outcome(alloc, memory, deed) {
        Err(ClientFault::Memory) => Err(ClientFault::Memory),
        Err(ClientFault::Refused(status)) => {
            let why = status.refusal();
            Ok(format!(in alloc; "{why:?}: {status}").map_err(|_| ClientFault::Memory)?)
        }
        Err(fault) => Ok(fault.to_string(alloc)?),
        Ok(text) => Ok(text),
    }
}

type Held = Result<(Vec<u8>, String), ClientFault>;

/// Gives what the client says and the outcome, where the hub says this.
fn converse(alloc: Global, heard: &[u8], rest: Rest, deed: Deed) -> Held {
    let mut memory = Memory::new(alloc, heard, rest)?;
    let told = outcome_text(alloc, &mut memory, deed)?;
    Ok((memory.said, told))
}

/// Compares what the client says in a conversation, which is told in parts, and what becomes of it.
fn plays(rt: &impl Machine, parts: &[&str], rest: Rest, deed: Deed, wanted: &str) {
    let (mut said, mut heard) = (Vec::new(rt.alloc()), Vec::new(rt.alloc()));
    for part in parts {
        let part = transcript_of(rt.alloc(), part, "op").expect(rt, part);
        again!(rt; tests_support::append(&mut said, &part.said));
        again!(rt; tests_support::append(&mut heard, &part.heard));
    }
    let (got, told) = again!(rt; converse(rt.alloc(), &heard, rest, deed));
    assert_eq!(rt; told.as_str(), wanted);
    assert!(rt; got == said, "said {got:?} and not {said:?}");
}

/// Plays a conversation whose last part stands in the test.
macro_rules! talk {
    ($rt:ident, $deed:ident, $rest:ident, [$($part:expr),+], $wanted:expr) => {
        plays(&$rt, &[$($part),+], Rest::$rest, Deed::$deed, $wanted)
    };
}

#[test]
fn operators_act(rt: HostRuntime) {
    talk! { rt, Kick, Waits, [HELLO, ASKED, LIST, OWN, KICK, r"
        op hears IQUI AAAB IDAAAC MSbe\skind
        op hears
        op hears ISTA 000 Done
    "], "Done ana MFXGCAAAAAAAAAAAAAAAAAAAAAAAAAAAAAAAAAA" }
    talk! { rt, Kick, Waits, [HELLO, ASKED, OWN, KICK, r"op hears BMSG AAAB hi | ISTA 100 No\ssuch\suser"], "Other: No such user" }
    talk! { rt, Kick, Waits, [HELLO, OWN, KICK, r"op hears ISTA 125 Access\sdenied FCHMSG"], "Other: Access denied (HMSG)" }
    talk! { rt, List, Waits, [HELLO, LIST, OWN],
        "ana|user|MFXGCAAAAAAAAAAAAAAAAAAAAAAAAAAAAAAAAAA|127.0.0.1|10|a b|" }
    talk! { rt, Say, Waits, [HELLO, LIST, OWN, r"
        op hears BMSG AAAB hi\sall
        op says BMSG AAAC hi\sall -> BMSG AAAC hi\sall
    "], "said" }
}

#[test]
fn others_answer_otherwise(rt: HostRuntime) {
    // Whom others sent away, who left by itself, and a session identifier that begins like a field's name.
    talk! { rt, Kick, Waits, [HELLO, LIST, r"
        op hears BINF IDAA IDGEZDG<34*A> NIold CT5
    ", OWN, KICK, r"
        op hears IQUI AAAB IDAAAD TL5 | IQUI AAAB | BINF IDAA NInew | IQUI IDAA IDAAAC TL5 MSa | ISTA 000 Done
    "], "Done new GEZDGAAAAAAAAAAAAAAAAAAAAAAAAAAAAAAAAAA" }
    talk! { rt, Kick, Waits, [HELLO, OWN, KICK, r"
        op hears IMSG no\ssuch\scommand
    "], "this hub does not answer operators' commands; it may be another kind" }
    talk! { rt, Kick, Waits, [HELLO, r"op hears ISTA 140 TLS\srequired"], "Other: TLS required" }
}

#[test]
fn logins_are_refused(rt: HostRuntime) {
    talk! { rt, Kick, Waits, [HELLO, "op hears ISTA 231 Banned"], "Banned: Banned" }
    talk! { rt, Kick, Waits, [HELLO, "op hears ISTA 232 Banned TL59"], "Banned: Banned for 59 seconds" }
    talk! { rt, Kick, Waits, [HELLO, r"op hears ISTA 222 Nick\staken"], "Other: Nick taken" }
    talk! { rt, Kick, Waits, [HELLO, r"op hears ISTA 243 INF\sfield\sbad FBSS"], "Other: INF field bad (SS)" }
    talk! { rt, Kick, Closes, [HELLO, ASKED, r"op hears ISTA 223 Invalid\spassword"], "Password: Invalid password" }
    talk! { rt, Kick, Closes, [r"op says HSUP ADBASE ADTIGR -> ISTA 211 Hub\sfull"], "Other: Hub full" }
}

#[test]
fn connections_fail(rt: HostRuntime) {
    talk! { rt, Kick, Closes, ["op says HSUP ADBASE ADTIGR -> HTTP/1.1 400 Bad HubRequest"], "this is no ADC hub" }
    for (rest, wanted) in [
        (Rest::Closes, "the hub closed the connection"),
        (Rest::Waits, "the hub did not answer in time"),
        (Rest::Fails, "the connection failed"),
    ] {
        plays(&rt, &[BROKEN], rest, Deed::Say, wanted);
        plays(&rt, &[HELLO, LIST], rest, Deed::Say, wanted);
    }
}

/// A line of the hub that does not end.
const BROKEN: &str = "op says HSUP ADBASE ADTIGR -> ISUP ADBASE\nop hears a part ISID AA";

/// A hub that tells a pinger of itself.
const PINGED: &str =
    r"op says HSUP ADBASE ADTIGR ADPING -> ISUP ADBASE | ISID AAAB | IINF CT32 NIThe\sHub UC3 SS36893488147419103230";

/// Gives what a pinger says, and what it is told.
fn ping(alloc: Global, heard: &[u8]) -> Held {
    let mut memory = Memory::new(alloc, heard, Rest::Waits)?;
    let facts = Client::new(alloc, &mut memory).hello(true)?.hub;
    let mut text = String::new(alloc);
    for name in ["NI", "UC", "SS", "DE"] {
        text.push_str(&field_text(alloc, &facts, name)?)?;
        text.push_str("|")?;
    }
    Ok((memory.said, text))
}

#[test]
fn pingers_are_told(rt: HostRuntime) {
    let hub = transcript_of(rt.alloc(), PINGED, "op").expect(&rt, PINGED);
    let (said, text) = again!(&rt; ping(rt.alloc(), &hub.heard));
    assert_eq!(rt; text.as_str(), "The Hub|3|36893488147419103230||");
    assert!(rt; said == hub.said, "said {said:?}");
}
