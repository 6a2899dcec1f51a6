use super::*;
use crate::fields::{fields_of_line, update};
use crate::lines::line;
use adc_base32::Sid;
use hub_setup::{
    challenge_line, denial_line, done_line, hub_line, identifier_line, passed_line, ping_fields,
    removal_line, support_line, topic_line, update_line, user_line,
};
use login_state::Deny;
use user_table::Totals;

/// The lines of a hub where ana is an operator and bob is registered.
#[derive(Drop)]
pub(crate) struct Texts;

impl Part for Texts {
    fn call(&mut self, rt: &impl Machine, row: Row<'_>, said: &mut Vec<u8>) {
        let line = match row.name {
            "ping" => return say(rt, said, &ping(rt)),
            "hub" => hub(rt, row.text),
            "user" => user(rt, row.text),
            "removal" => removal(rt, row.text),
            _ => short(rt, row),
        };
        say_line(rt, said, &line);
    }
}

/// Makes a line that is told by few words.
fn short<R: Machine>(rt: &R, row: Row<'_>) -> Bytes {
    match row.name {
        "support" => again!(rt; support_line(rt.alloc())),
        "done" => again!(rt; done_line(rt.alloc())),
        "identifier" => identifier(rt, sid(rt, row.text)),
        "topic" => got!(rt; "hub_setup::topic_line", AllocError, topic_line(rt.alloc(), row.text)),
        "challenge" => challenge(rt, row.bytes),
        "password" =>
            got!(rt; "hub_setup::denial_line", AllocError, denial_line(rt.alloc(), Deny::Password)),
        "passed" => pass_line(rt, row.bytes),
        "update" => line_of_update(rt, row.text),
        _ => unknown(rt, row.name),
    }
}

fn sid(rt: &impl Abort, text: &str) -> Sid {
    Sid::parse(text.as_bytes()).expect(rt, text)
}

fn identifier(rt: &impl Machine, sid: Sid) -> Bytes {
    got!(rt; "hub_setup::identifier_line", AllocError, identifier_line(rt.alloc(), sid))
}

fn challenge(rt: &impl Machine, bytes: &[u8]) -> Bytes {
    let challenge = twenty_four(bytes).expect(rt, "a challenge");
    got!(rt; "hub_setup::challenge_line", AllocError, challenge_line(rt.alloc(), challenge))
}

fn pass_line(rt: &impl Machine, bytes: &[u8]) -> Bytes {
    let line = line(rt, bytes);
    got!(rt; "hub_setup::passed_line", AllocError, passed_line(rt.alloc(), &line))
}

fn line_of_update(rt: &impl Machine, text: &str) -> Bytes {
    let (who, words) = pair(text, ' ');
    let (sid, update) = (sid(rt, who), update(rt, words));
    got!(rt; "hub_setup::update_line", AllocError, update_line(rt.alloc(), sid, &update))
}

/// Writes what a hub for 512 users says to who asks, 90 seconds after it opened, where one is present.
fn ping(rt: &impl Machine) -> String {
    let (users, ss, sf) = (1, 10, 2);
    let totals = Totals { users, ss, sf };
    got!(rt; "hub_setup::ping_fields", AllocError, ping_fields(rt.alloc(), &totals, 512, 90))
}

/// Makes the line of a hub with a name and a topic, to who asks or to another.
fn hub(rt: &impl Machine, text: &str) -> Bytes {
    let (name, rest) = pair(text, ';');
    let (topic, asked) = pair(rest, ';');
    let setup = setup(rt, &options(name));
    let ping = ping(rt);
    let told = if asked == "ping" { ping.as_str() } else { "" };
    got!(rt; "hub_setup::hub_line", AllocError, hub_line(rt.alloc(), &setup, topic, told))
}

/// Makes the line of a user who is AAAC, with the account of a nick, and said some words.
fn user(rt: &impl Machine, text: &str) -> Bytes {
    let (nick, words) = pair(text, ' ');
    let (setup, known) = (of_ana_and_bob(rt), fields_of_line(rt, words));
    let (sid, account) = (sid(rt, "AAAC"), setup.account(nick));
    got!(rt; "hub_setup::user_line", AllocError, user_line(rt.alloc(), sid, &known, account))
}

/// Makes a setup in which ana is an operator and bob is registered.
fn of_ana_and_bob(rt: &impl Machine) -> Setup {
    let ana = account("ana", "secret", true);
    let accounts = [ana, account("bob", "secret", false)];
    setup(rt, &with_lists(&accounts, &[]))
}

/// Makes the line for AAAC whom AAAB removes for so many seconds, `-` where none are told, for a reason.
fn removal(rt: &impl Machine, text: &str) -> Bytes {
    let (seconds, reason) = pair(text, ' ');
    let seconds = match seconds {
        "-" => None,
        _ => Some(small(rt, seconds)),
    };
    let (target, operator) = (sid(rt, "AAAC"), sid(rt, "AAAB"));
    got!(rt; "hub_setup::removal_line", AllocError, removal_line(rt.alloc(), target, operator, seconds, reason))
}

#[test]
fn texts_are_written(rt: HostRuntime) {
    rows! { rt, Texts, r"
        == writes what never changes ==
        support -> ISUP ADBASE ADTIGR ADPING ADUCMD
        done -> ISTA 000 Done
        == writes the greeting ==
        identifier AAAC -> ISID AAAC
        hub Hub -> IINF CT32 NIHub VEadc-hub\s1.0 | Hub;new one -> IINF CT32 NIHub VEadc-hub\s1.0 DEnew\sone
        hub Hub;;ping -> IINF CT32 NIHub VEadc-hub\s1.0 UC1 SS10 SF2 MC512 UP90
        hub Hub;new one;ping -> IINF CT32 NIHub VEadc-hub\s1.0 DEnew\sone UC1 SS10 SF2 MC512 UP90 | My Hub -> IINF CT32 NIMy\sHub VEadc-hub\s1.0
        == writes a new topic ==
        topic new one -> IINF DEnew\sone | <> -> IINF DE
        == writes a challenge ==
        challenge <24*x00> -> IGPA <39*A> | <4*foobar> -> IGPA MZXW6YTBOJTG633CMFZGM33PMJQXEZTPN5RGC4Q
        == writes users ==
        user ana NIana DE SS10 -> BINF AAAC NIana SS10 CT4 | bob NIana DE SS10 -> BINF AAAC NIana SS10 CT2
        user carl NIana DE SS10 -> BINF AAAC NIana SS10
        update AAAC DE SS11 -> BINF AAAC DE SS11
        == writes removals ==
        removal - rude -> IQUI AAAC IDAAAB MSrude | - -> IQUI AAAC IDAAAB | 60 -> IQUI AAAC IDAAAB TL60 | 0 -> IQUI AAAC IDAAAB TL-1
        removal 60 very rude -> IQUI AAAC IDAAAB TL60 MSvery\srude
        == writes denials and passes lines on ==
        password -> ISTA 223 Invalid\spassword
        passed BMSG AAAB hello\sall -> BMSG AAAB hello\sall
    " }
}
