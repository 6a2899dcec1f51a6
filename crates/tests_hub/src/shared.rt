mod chatting;
pub(crate) mod guests;
pub(crate) mod refused;

ghost use Rattle.std.specs.Prelude.{◌≡◌};

use crate::refusal::*;
use crate::shared::chatting::{chats_of_two, is_one_chat, speaks_apart};
use crate::shared::guests::*;
use crate::shared::refused::{hears_it_once, is_said, is_told_nothing};
use hub_shared::{CloseRefused, Report};
use tests_support::GREETS;

/// Stops the test unless two joined and all visitors, of whom these are the last, are back when the hub is closed.
fn closes<R: Abort>(rt: &R, hall: Hall, host: Host, first: Visitor, second: Visitor)
    requires host { host.home ≡ hall.hub.home }
    requires first { first.home ≡ hall.hub.home }
    requires second { second.home ≡ hall.hub.home }
{
    let all = both(rt, hall.alloc, first, second);
    let Hall { hub, .. } = hall;
    let (joins, present) = (2, 0);
    let closed = hub.close(host, all);
    assert!(rt; closed.is_ok_and(|report| report == Report { joins, present }));
}

#[test]
fn what_one_thread_says_another_hears(rt: HostRuntime) {
    let (hall, host, ana, bob) = open_for_two(&rt, rt.alloc(), 512);
    let (ana, bob) = speaks_apart(&rt, &hall, ana, bob);
    assert!(rt; matches!(ana.pass.touched(), Touched::Everybody));
    let (mut ana, mut bob) = compare(&hall, ana, bob);
    hears_it_once(&rt, &hall, &mut bob);
    assert!(rt; matches!(bob.pass.touched(), Touched::Nobody));
    let look = looks(&rt, &hall, &mut ana);
    let is_right = look.stage == Stage::Normal && look.present == 2 && look.waiting == 1;
    assert!(rt; is_right, "{look:?}");
    let (ana, bob) = (leave(&rt, &hall, ana), leave(&rt, &hall, bob));
    closes(&rt, hall, host, ana, bob);
}

#[test]
fn who_finds_no_room_may_join_later(rt: HostRuntime) {
    let (hall, mut host, ana, bob) = open_for_two(&rt, rt.alloc(), 2);
    let Err((why, third)) = join(&rt, &hall, host.admit(&hall.hub)) else {
        panic!(rt; "a third connection")
    };
    holds(&rt, why == JoinRefused::Full, "it is full");
    let ana = leave(&rt, &hall, ana);
    assert!(rt; matches!(ana.touched(), Touched::Everybody));
    let Ok(mut third) = join(&rt, &hall, third) else {
        panic!(rt; "there is room")
    };
    says(&rt, &hall, &mut third, GREETS.as_bytes());
    let heard = hears(&rt, &hall, &mut third);
    let greeting =
        b"ISUP ADBASE ADTIGR ADPING ADUCMD\nISID AAAD\nIINF CT32 NIHub VEadc-hub\\s1.0\n";
    assert!(rt; heard.as_slice() == greeting.as_slice(), "{heard:?}");
    drop(bob);
}

#[test]
fn closes_once_all_visitors_are_back(rt: HostRuntime) {
    let (hall, host, ana, bob) = open_for_two(&rt, rt.alloc(), 512);
    holds(&rt, host.admitted() == 2, "two are admitted");
    let (ana, bob) = (leave(&rt, &hall, ana), leave(&rt, &hall, bob));
    let one = only(&rt, rt.alloc(), ana);
    let Hall { alloc, setup, hub } = hall;
    let Err((why, hub, host, mut one)) = hub.close(host, one) else {
        panic!(rt; "one visitor is left")
    };
    holds(&rt, why == CloseRefused::NotAlone, "why");
    holds(&rt, host.admitted() == 2, "two are admitted");
    holds(&rt, one.len() == 1, "one visitor");
    let Some(ana) = one.pop() else {
        panic!(rt; "the visitor came back")
    };
    closes(&rt, Hall { alloc, setup, hub }, host, ana, bob);
}

#[test]
fn all_hear_one_conversation(rt: HostRuntime) {
    let (hall, host, ana, bob) = open_for_two(&rt, rt.alloc(), 512);
    let ((ana, one), (bob, other)) = chats_of_two(&rt, &hall, ana, bob);
    holds(&rt, is_one_chat(&one), "one chat");
    holds(&rt, one == other, "both heard the same");
    let (ana, bob) = (leave(&rt, &hall, ana), leave(&rt, &hall, bob));
    closes(&rt, hall, host, ana, bob);
}

/// Tests that all hear the line once or nobody does, also where memory is refused to the line itself.
#[test]
fn a_line_is_heard_by_all_or_by_nobody(rt: HostRuntime) {
    let (hall, mut host, mut ana, mut bob) = open_for_two(&rt, rt.alloc(), 512);
    let mut cy = join_and_login(&rt, &hall, host.admit(&hall.hub), ENTERS[2]);
    let mut dan = join_and_login(&rt, &hall, host.admit(&hall.hub), ENTERS[3]);
    // The lines of the logins.
    hears(&rt, &hall, &mut ana);
    hears(&rt, &hall, &mut bob);
    hears(&rt, &hall, &mut cy);
    hears(&rt, &hall, &mut dan);
    if !is_said(&rt, &hall, &mut ana) {
        is_told_nothing(&rt, &hall, &mut ana);
        is_told_nothing(&rt, &hall, &mut bob);
        is_told_nothing(&rt, &hall, &mut cy);
        is_told_nothing(&rt, &hall, &mut dan);
        let is_said = is_said(&rt, &hall, &mut ana);
        holds(&rt, is_said, "refused twice");
    }
    hears_it_once(&rt, &hall, &mut ana);
    hears_it_once(&rt, &hall, &mut bob);
    hears_it_once(&rt, &hall, &mut cy);
    hears_it_once(&rt, &hall, &mut dan);
    drop(host);
}
