//! Each public call that takes memory, below the hub, is refused it once: .ci/fallible names the test of each.
mod logs;

use crate::acts::{Acts, play_bans};
use crate::base32::Base32;
use crate::fields::play_user;
use crate::hashes::Hashes;
use crate::identities::Identities;
use crate::lines::{Lines, new_frames};
use crate::logins::denials::is_told;
use crate::logins::supports::play_supports;
use crate::queues::play_queue;
use crate::routing::Routing;
use crate::rows::*;
use crate::settings_files::play_file;
use crate::setups::given::Given;
use crate::setups::prepared::play_lines;
use crate::setups::texts::Texts;
use crate::users::alike::{keep, say_run};
use crate::users::play_table;
use crate::users::samples::{say_totals, user};
use login_state::{Deny, NamedField};
use plain_users::{Command, CommandAnswer, PlainUsers, RunRefused, run_users};
use user_table::{IndexedUsers, Users};

#[test]
fn base32(rt: HostRuntime) {
    // The last vector of RFC 4648, section 10.
    rows! { rt, Base32, "
        encode foobar -> MZXW6YTBOI
        decode 6 MZXW6YTBOI -> foobar
    " }
}

#[test]
fn nicks(rt: HostRuntime) {
    play(&rt, &mut Identities, "nick e\u{301}va -> \u{e9}va");
}

#[test]
fn tables(rt: HostRuntime) {
    play(&rt, &mut Hashes, "equal -> yes");
}

#[test]
fn denials(rt: HostRuntime) {
    let deny = Deny::Missing(NamedField::Nick);
    is_told(&rt, deny, r"ISTA 243 INF\sfield\smissing FMNI");
}

#[test]
fn feature_sets(rt: HostRuntime) {
    rows! { rt, Routing, "match +TCP4 TCP4,UDP4 | +UDP4 TCP4,UDP4 -> yes | +SEGA TCP4,UDP4 -> no" }
}

#[test]
fn escapes(rt: HostRuntime) {
    rows! { rt, Lines, r"
        escape a b\c<x0a>d -> a\sb\\c\nd
        unescape a\sb\\c\nd -> a b\c<x0a>d
    " }
}

#[test]
fn features(rt: HostRuntime) {
    rows! { play_supports(rt) "
        says HSUP ADBASE ADTIGR RMPING -> <>
        has BASE | TIGR -> yes | PING -> no
    " }
}

#[test]
fn frames(rt: HostRuntime) {
    rows! { rt, new_frames(&rt), "
        feed HSUP ADBASE | <x20>ADTIGR<x0a>BINF AAAB<x0a>B | MSG<x0a> -> <>
        next -> line HSUP ADBASE ADTIGR | -> line BINF AAAB | -> line BMSG | -> more
    " }
}

#[test]
fn updates(rt: HostRuntime) {
    rows! { play_user(rt) "
        read NIana PDX I40.0.0.0 SS5 SS6 -> <x20>NIana PDX I40.0.0.0 SS6
        pass_10.0.0.1 NIana PDX I40.0.0.0 SS5 SS6 -> <x20>NIana I410.0.0.1 SS6
        dotted 10 0 255 1 -> 10.0.255.1
    " }
}

#[test]
fn fields(rt: HostRuntime) {
    rows! { play_user(rt) "
        merge NIana DEx SS5 -> <x20>NIana DEx SS5
        get nick -> is ana
        merge NIeva SS -> <x20>NIeva DEx
        get nick -> is eva
        merge SL2 DE HN1 HR0 HO0 SF7 -> <x20>NIeva SL2 HN1 HR0 HO0 SF7
        get nick -> is eva
    " }
}

#[test]
fn acts(rt: HostRuntime) {
    rows! { rt, Acts, "read !kick ana out -> kick ana: out | !ban ana 60 spam -> ban ana 60: spam" }
}

#[test]
fn bans(rt: HostRuntime) {
    // Forty bans, one after the other.
    let mut rows = String::new(rt.alloc());
    for number in 0..40u8 {
        let row = again!(&rt; format!(in rt.alloc();
            "add {number} {number} 60 7 -> ok\ncount -> {}\nleft {number} {number} 9 -> 58\n", number.wrapping_add(1)));
        again!(&rt; rows.push_str(&row));
    }
    play_bans(&rt, &rows);
}

#[test]
fn shares(rt: HostRuntime) {
    rows! { play_queue(rt) "
        room 8 1000 -> 0
        shares_again IMSG a;IMSG b;IMSG c;IMSG d;IMSG e -> 5
        quits 1 -> 6
        shows 2 -> IMSG a<x0a>IMSG b<x0a>
        writes IMSG a;IMSG b;IMSG c -> IMSG a<x0a>IMSG b<x0a>IMSG c<x0a>
        takes 2 -> 2;IMSG a<x0a>IMSG b<x0a> | 256 -> 4;IMSG a<x0a>IMSG b<x0a>IMSG c<x0a>IMSG d<x0a>IMSG e<x0a>IQUI AAAB<x0a>
    " }
}

#[test]
fn setups(rt: HostRuntime) {
    rows! { rt, Given, r"
        tells name -> Hub | topic -> new one | max_users -> 512 | bob -> a user | ana -> nobody
        menu -> ISTA 000 Done<x0a>ICMD Help CT1 TTHMSG\s!help\n<x0a>ICMD Sep CT2 SP1<x0a>
        listed -> ISTA 000 Done<x0a>ICMD Help CT1 TTHMSG\s!help\n<x0a>ICMD Sep CT2 SP1<x0a>
        topic new one -> new one
    " }
}

#[test]
fn prepared_lines(rt: HostRuntime) {
    rows! { play_lines(rt) "
        says BINF AAAB NIana PD<39*A> SS5 -> INF
        nick BINF AAAB NIana PD<39*A> SS5 -> update ana
        owner BINF AAAB NIana PD<39*A> SS5 -> <24*x00>
        challenged BINF AAAB NIana PD<39*A> SS5 -> secret<3*foobar>
        says no message -> no message
        nick no message -> no update
    " }
}

#[test]
fn lines_of_the_hub(rt: HostRuntime) {
    rows! { rt, Texts, r"
        ping -> <x20>UC1 SS10 SF2 MC512 UP90
        hub My Hub;new one;ping -> IINF CT32 NIMy\sHub VEadc-hub\s1.0 DEnew\sone UC1 SS10 SF2 MC512 UP90
        topic new one -> IINF DEnew\sone
        identifier AAAB -> ISID AAAB
        challenge <24*x00> -> IGPA <39*A>
        password -> ISTA 223 Invalid\spassword
        passed BMSG AAAB hello\sall -> BMSG AAAB hello\sall
    " }
}

#[test]
fn lines_of_users(rt: HostRuntime) {
    rows! { rt, Texts, r"
        user ana NIana SS5 -> BINF AAAC NIana SS5 CT4
        update AAAC NIana SS5 -> BINF AAAC NIana SS5
        removal 60 bad words -> IQUI AAAC IDAAAB TL60 MSbad\swords
    " }
}

#[test]
fn settings(rt: HostRuntime) {
    rows! { play_file(rt) r#"
        read name = "My hub";max_users = 9;[[account]];nick = "op";password = "secret" -> ok
        hub name -> My hub | max_users -> 9 | opening -> 7 | operator op -> no
        program threads -> 2
    "# }
}

const ENTER_AND_CHANGE: &str = "
    enters 1 1 ana NIana SS5 | 2 2 bob NIbob SS5 | 3 3 eva NIeva SS5 | 4 4 dan NIdan SS5 | 5 5 leo NIleo SS5 -> ok
    renames rob 2 NIrob SS7 DEx -> ok
    all -> 1 1 ana NIana SS5; 2 2 rob NIrob SS7 DEx; 3 3 eva NIeva SS5; 4 4 dan NIdan SS5; 5 5 leo NIleo SS5; 5 27 0
    nick bob -> nobody | rob -> 2
    sid 6 -> nobody
    cid 6 -> nobody
";

#[test]
fn plain_users(rt: HostRuntime) {
    play_table::<PlainUsers>(&rt, &[ENTER_AND_CHANGE]);
}

#[test]
fn indexed_users(rt: HostRuntime) {
    play_table::<IndexedUsers>(&rt, &[ENTER_AND_CHANGE]);
}

fn commands(rt: &impl Machine) -> Vec<Command> {
    let mut commands = again!(rt; Vec::with_capacity(rt.alloc(), 3));
    for (number, name) in [(1, "ana"), (2, "bob")] {
        let user = user(rt, number, number as u8, name, "SS5");
        keep(rt, &mut commands, Command::Insert(user));
    }
    keep(rt, &mut commands, Command::Count);
    commands
}

/// Tests that no command is made where there is no room for the answers; where memory is refused later, one command is refused and the rest are made.
fn runs<U: Users>(rt: &impl Machine) {
    let mut users = U::new(rt.alloc());
    let mut said = Vec::new(rt.alloc());
    for answer in run_twice(rt, &mut users).iter() {
        say_run(rt, &mut said, *answer);
        say(rt, &mut said, ";");
    }
    let said = text_of(&said);
    if said == "done;done; 2 10 0;" {
        assert!(rt; has_totals(rt, &users, "2 10 0"));
    } else if said == "Memory;done; 1 5 0;" || said == "done;Memory; 1 5 0;" {
        let is_one = has_totals(rt, &users, "1 5 0");
        say_refused_memory(rt, "plain_users::run_users", is_one);
    } else {
        unknown(rt, "other answers");
    }
}

/// Runs the commands, once more where memory was refused: nobody is there then.
fn run_twice<U: Users>(rt: &impl Machine, users: &mut U) -> Vec<CommandAnswer> {
    match run_users(rt.alloc(), users, commands(rt)) {
        Ok(answers) => answers,
        Err(RunRefused::Memory) => {
            say_refused_memory(rt, "plain_users::run_users", has_totals(rt, users, "0 0 0"));
            again!(rt; run_users(rt.alloc(), users, commands(rt)))
        }
    }
}

fn has_totals<U: Users>(rt: &impl Machine, users: &U, wanted: &str) -> bool {
    let mut totals = Vec::new(rt.alloc());
    say_totals(rt, &mut totals, users);
    totals.as_slice() == wanted.as_bytes()
}

#[test]
fn run_on_plain_users(rt: HostRuntime) {
    runs::<PlainUsers>(&rt);
}

#[test]
fn run_on_indexed_users(rt: HostRuntime) {
    runs::<IndexedUsers>(&rt);
}
