// Scenes that clients see of a server on loopback sockets.
mod bans;

use crate::conversation::spelled;
use crate::gate::GateHash;
use crate::machine::*;
use crate::run::{Ran, Way, runs};
use crate::warnings::shape;
use std::net::{TcpListener, TcpStream};
use system_answers::descriptor_limit;
use tests_support::steps_of;

/// Ana connects, is greeted and logs in.
const ANA_ENTERS: &str = "\
ana is greeted AAAB
ana says BINF AAAB ID<P0> PD<P0> NIana SS10 SF2 I40.0.0.0 SUTCP4,SEGA -> BINF AAAB ID<P0> NIana SS10 SF2 I4127.0.0.1 SUTCP4,SEGA
";

/// Bob does so then, and Ana, who has sent nothing since, hears of it.
const BOB_ENTERS: &str = "\
bob is greeted AAAC
bob says BINF AAAC ID<P1> PD<P1> NIbob SS5 SF1 SUTCP4 -> BINF AAAB ID<P0> NIana SS10 SF2 I4127.0.0.1 SUTCP4,SEGA
bob and ana hear BINF AAAC ID<P1> NIbob SS5 SF1 SUTCP4
";

const BOTH_LEAVE: &str = "ana and bob leave";

/// Ana chats, whatever Bob does.
const ANA_CHATS: &str = r"ana says BMSG AAAB still\shere -> BMSG AAAB still\shere";

/// The settings of hubs for two connections, and for one.
const TWO: &str = "listen = \"127.0.0.1:0\"\nhash = \"first24\"\nstop_after = 2\nmax_users = 4\n";

const ONE: &str = "listen = \"127.0.0.1:0\"\nhash = \"first24\"\nstop_after = 1\nmax_users = 4\n";

const TWO_JOINED: &[u8] = b"\njoins 2 present 0\n";

const ONE_JOINED: &[u8] = b"\njoins 1 present 0\n";

/// Makes the hash, whose gate is open or is not.
fn gate<R: ServerMachine>(rt: &R, is_open: bool) -> Arc<GateHash> {
    again!(rt; Arc::new(rt.alloc(), GateHash::new(is_open)))
}

/// Runs a server of these settings, while the clients play what is told.
fn plays<R: ServerMachine + Net<Stream = TcpStream, Listener = TcpListener>>(
    rt: &R,
    text: &str,
    way: Way,
    gate: &Arc<GateHash>,
    told: &str,
) -> Ran {
    let talk = again!(rt; steps_of(rt.alloc(), told).ok_or(AllocError));
    runs(rt, text, way, gate, &talk)
}

/// Runs a server of these settings, while the clients play these parts. Stops the test where they did not hear what they
/// should, or it does not end well and as it is to.
fn ran<R: ServerMachine + Net<Stream = TcpStream, Listener = TcpListener>>(
    rt: &R,
    text: &str,
    way: Way,
    gate: &Arc<GateHash>,
    parts: &[&str],
    said: &[u8],
) -> Ran {
    let ran = plays(rt, text, way, gate, &spelled(rt, parts));
    assert!(rt; ran.went_well && !ran.waited);
    assert!(rt; ran.status == 0, "{}", ran.status);
    assert!(rt; ran.output.starts_with(b"listening 127.0.0.1:") && ran.output.ends_with(said));
    ran
}

/// Runs a server that says this on standard error, times and ports apart, and stops the test as [`ran`] does.
fn warns<R: ServerMachine + Net<Stream = TcpStream, Listener = TcpListener>>(
    rt: &R,
    text: &str,
    way: Way,
    parts: &[&str],
    said: &[u8],
    errors: &[u8],
) {
    let ran = ran(rt, text, way, &gate(rt, true), parts, said);
    let shape = again!(rt; shape(rt.alloc(), &ran.errors));
    assert!(rt; shape.as_slice() == errors);
}

/// Plays a scene that a server of these settings, which warns of nobody, ends by saying this.
macro_rules! scene {
    ($rt:ident, $settings:expr, $said:expr, [$($part:expr),+]) => {
        warns(&$rt, $settings, Way::AsSet, &[$($part),+], $said, b"")
    };
}

/// A user says something, and both read it.
const CHATS: [&str; 5] = [
    "",
    "ana says BMSG AAAB hi
    ana and bob hear BMSG AAAB hi",
    "bob says BMSG AAAC hi
    ana and bob hear BMSG AAAC hi",
    "ana says BINF AAAB DEhi
    bob hears BINF AAAB DEhi",
    "ana says DMSG AAAB AAAC yo
    bob hears DMSG AAAB AAAC yo
    bob says EMSG AAAC AAAB yes
    ana and bob hear EMSG AAAC AAAB yes",
];

#[test]
fn what_happens_wakes_an_idle_session(rt: HostRuntime) {
    for chat in CHATS {
        scene! { rt, TWO, TWO_JOINED, [ANA_ENTERS, BOB_ENTERS, chat, BOTH_LEAVE] }
    }
}

/// Ana leaves, or is denied for good, and hears of that before the connection is closed.
const ENDS: [&str; 2] = [
    "ana leaves",
    r"ana says BMSG AAAC hi
    ana hears ISTA 240 Wrong\sSID
    ana hears the end",
];

#[test]
fn an_end_wakes_an_idle_session(rt: HostRuntime) {
    for end in ENDS {
        scene! { rt, TWO, TWO_JOINED, [ANA_ENTERS, BOB_ENTERS, end, "bob hears IQUI AAAB\nbob leaves"] }
    }
}

#[test]
fn one_who_never_reads_holds_up_nobody(rt: HostRuntime) {
    // Once he reads, what he hears ends before what was said.
    scene! { rt, TWO, TWO_JOINED, [ANA_ENTERS, BOB_ENTERS, r"
        ana chats long BMSG AAAB
        bob hears a part
        ana hears IQUI AAAC
        ana says BMSG AAAB still\shere -> BMSG AAAB still\shere
        ana leaves
    "] }
}

#[test]
fn one_who_sends_byte_by_byte_holds_up_nobody(rt: HostRuntime) {
    scene! { rt, TWO, TWO_JOINED, [ANA_ENTERS, r"
        bob connects
        bob says slowly HSUP ADBASE ADTIGR
        ana says BMSG AAAB still\shere -> BMSG AAAB still\shere
        bob hears ISUP ADBASE ADTIGR ADPING ADUCMD | ISID AAAC | IINF CT32 NIHub VEadc-hub\s1.0
        bob says slowly BINF AAAC ID<P1> PD<P1> NIbob SS5 SF1 SUTCP4
        bob hears BINF AAAB ID<P0> NIana SS10 SF2 I4127.0.0.1 SUTCP4,SEGA
        bob and ana hear BINF AAAC ID<P1> NIbob SS5 SF1 SUTCP4
        bob says slowly BMSG AAAC hi
        ana hears BMSG AAAC hi
    ", ANA_CHATS, BOTH_LEAVE] }
}

const WITH_OPERATOR: &str =
    "listen = \"127.0.0.1:0\"\nhash = \"first24\"\nstop_after = 2\nmax_users = 4\n\
[[account]]\nnick = \"op\"\npassword = \"sesame\"\noperator = true\n";

/// An operator comes in Ana's place, and Bob after her. Her challenge is the first 24 bytes of ChaCha20's stream for the seed of
/// 32 bytes 1, in base32. OpenSSL 3 prints these bytes: `head -c 24 /dev/zero | openssl enc -chacha20 -K 01..01 -iv 00..00`. Her
/// answer is the password and the challenge behind it, of which the stand-in for a hash takes 24 bytes, in base32.
const OPERATOR_AND_BOB_ENTER: &str = "\
ana is greeted AAAB
ana says BINF AAAB ID<P0> PD<P0> NIop -> IGPA AI7TOIB2ER3MIJLGUYOMKXB4VB25XNGMIHAN5NY
ana says HPAS ONSXGYLNMUBD6NZAHISHNRBFM2TBZRK4HSUHLWY -> BINF AAAB ID<P0> NIop CT4
bob is greeted AAAC
bob says BINF AAAC ID<P1> PD<P1> NIbob SS5 SF1 SUTCP4 -> BINF AAAB ID<P0> NIop CT4
bob and ana hear BINF AAAC ID<P1> NIbob SS5 SF1 SUTCP4
";

#[test]
fn an_operator_kicks_a_user(rt: HostRuntime) {
    scene! { rt, WITH_OPERATOR, TWO_JOINED, [OPERATOR_AND_BOB_ENTER, r"
        ana says HMSG !kick\sbob\sbe\skind
        bob hears IQUI AAAC IDAAAB MSbe\skind
        bob hears the end
        ana hears IQUI AAAC IDAAAB MSbe\skind | ISTA 000 Done
        ana leaves
    "] }
}

#[test]
fn a_last_line_arrives(rt: HostRuntime) {
    // Bob's last line is not read by his session any more, and what he is told waits in his socket.
    for _time in 0..5 {
        scene! { rt, WITH_OPERATOR, TWO_JOINED, [OPERATOR_AND_BOB_ENTER, r"
            ana whispers DMSG AAAB AAAC
            bob says
            ana says HMSG !kick\sbob\sbe\skind -> IQUI AAAC IDAAAB MSbe\skind | ISTA 000 Done
            bob says
            bob hears whispers DMSG AAAB AAAC
            bob hears IQUI AAAC IDAAAB MSbe\skind
            bob hears the end
            bob and ana leave
        "] }
    }
}

const WITH_MENU: &str =
    "listen = \"127.0.0.1:0\"\nhash = \"first24\"\nstop_after = 1\nmax_users = 4\n\
[[command]]\nname = \"Help\"\ncontext = 1\ntext = \"HMSG !help\\n\"\n";

#[test]
fn who_enters_gets_the_menu(rt: HostRuntime) {
    scene! { rt, WITH_MENU, ONE_JOINED, [r"
        ana connects
        ana says HSUP ADBAS0 ADTIGR ADUCM0 -> ISUP ADBASE ADTIGR ADPING ADUCMD | ISID AAAB | IINF CT32 NIHub VEadc-hub\s1.0
        ana says BINF AAAB ID<P0> PD<P0> NIop -> BINF AAAB ID<P0> NIop | ICMD Help CT1 TTHMSG\s!help\n
        ana leaves
    "] }
}

const ANA_FLOODS: &str = "ana connects\nana floods\nana waits for the close";

const BOB_FLOODS: &str = "bob connects\nbob floods\nbob waits for the close";

#[test]
fn a_line_too_long_is_warned_of(rt: HostRuntime) {
    let said = b"TIME 127.0.0.1:PORT a session ended by TooLong\n";
    warns(&rt, ONE, Way::AsSet, &[ANA_FLOODS], ONE_JOINED, said);
}

#[test]
fn each_session_has_its_warning(rt: HostRuntime) {
    let said = b"TIME 127.0.0.1:PORT a session ended by TooLong\n\
TIME 127.0.0.1:PORT a session ended by TooLong\n";
    let parts = [ANA_FLOODS, BOB_FLOODS];
    warns(&rt, TWO, Way::AsSet, &parts, TWO_JOINED, said);
}

#[test]
fn a_journal_has_priorities_and_a_start_and_an_end(rt: HostRuntime) {
    let allowed = descriptor_limit().into_inner().expect(&rt, "a limit");
    let said = again!(&rt; format!(in rt.alloc();
        "<6>TIME adc_hub 1.0 serves /etc/adc-hub/hub.toml at 127.0.0.1:PORT, descriptors: 36 needed, {allowed} allowed\n\
<4>TIME 127.0.0.1:PORT a session ended by TooLong\n\
<6>TIME adc_hub ended: as many connections were served as stop_after says, joins 1\n"));
    let parts = [ANA_FLOODS];
    warns(&rt, ONE, Way::Journal, &parts, ONE_JOINED, said.as_bytes());
}

#[test]
fn a_connection_that_breaks_off_is_warned_of(rt: HostRuntime) {
    let end = "bob breaks off\nana hears IQUI AAAC";
    let parts = [
        ANA_ENTERS,
        BOB_ENTERS,
        ANA_CHATS,
        end,
        ANA_CHATS,
        "ana leaves",
    ];
    let said = b"TIME 127.0.0.1:PORT a session ended by ReadFailed\n";
    warns(&rt, TWO, Way::AsSet, &parts, TWO_JOINED, said);
}

const FOR_ONE_USER: &str =
    "listen = \"127.0.0.1:0\"\nhash = \"first24\"\nstop_after = 2\nmax_users = 1\nthreads = 1\n";

#[test]
fn a_full_hub_says_so(rt: HostRuntime) {
    scene! { rt, FOR_ONE_USER, ONE_JOINED, [ANA_ENTERS, r"
        bob connects
        bob hears ISTA 211 Hub\sfull
        bob hears the end
        ana leaves
    "] }
}

const ANA_IS_HELD_UP: &str = "
ana is greeted AAAB
ana says BINF AAAB ID<P0> PD<P0> NIana SS10 SF2 I40.0.0.0 SUTCP4,SEGA
a digest begins
bob connects
bob says HSUP ADBASE ADTIGR -> ISUP ADBASE ADTIGR ADPING ADUCMD
the digest may end
ana hears BINF AAAB ID<P0> NIana SS10 SF2 I4127.0.0.1 SUTCP4,SEGA
";

#[test]
fn a_digest_holds_up_nobody_else(rt: HostRuntime) {
    let gate = gate(&rt, false);
    let parts = [ANA_IS_HELD_UP, BOTH_LEAVE];
    let ran = ran(&rt, TWO, Way::AsSet, &gate, &parts, TWO_JOINED);
    assert!(&rt; !gate.gave_up() && ran.errors.is_empty());
}

#[test]
fn a_listener_that_rests_accepts_again(rt: HostRuntime) {
    let parts = [ANA_ENTERS, ANA_CHATS, "ana leaves"];
    warns(&rt, ONE, Way::Flaky, &parts, ONE_JOINED, b"");
}
