//! Conversations with a hub, told as text and played line by line. Blank lines, and blanks around a line, say nothing;
//! a line that is none of the following stops the test, as does each step that goes otherwise.
//!
//! A text has one conversation, or several, each behind a line `== NAME`. First come settings: `with max_users 900`, `with interval 10` and `with
//! opening 5` (seconds), `with registered_only`, `with name Hub`, `with topic TEXT`. Others are `with account op secret operator`, `with account reg
//! secret`, `with menu Help 1 text TEXT`, `with menu Sep 2 separator`. Where they are refused, `the hub is refused Limit` is all that follows.
//!
//! Then come steps, of which `tests_support::steps_of` and `tests_support::Deed` tell. A name that is taken again means the last who took it; `#450` is the 450th who
//! joined, but for those who `come and go`. Beside them there are
//!
//!     all take                  all who are there take what waits for them, up to 256 lines each
//!     for 2 to 9:               the steps up to the line `end` are played in rounds numbered 2 to 9
//!     each:                     the conversation up to here is played for each line of the rows `LINE | LINE -> ANSWER` that follow: a line
//!                               that is `<line>` or `<answer>` alone stands for these
//!
//! Who greets, and who enters, is followed by `all take`; and op sends its password, too.

mod played;

use crate::conversation::played::Played;
use crate::refusal::*;
use crate::settings::open;
use std::fmt::Debug;

/// Plays one conversation, with its text in the test.
macro_rules! talk {
    ($rt:ident, $text:expr) => {
        crate::conversation::play(&$rt, $text)
    };
}

pub(crate) use talk;

/// A conversation: its text, and what `<line>` and `<answer>` stand for.
#[derive(Clone, Copy)]
struct Told<'t> {
    text: &'t str,
    line: &'t str,
    answer: &'t str,
}

/// A line of a conversation.
#[derive(Clone, Copy)]
struct Place<'t> {
    name: &'t str,
    number: usize,
    text: &'t str,
}

/// Plays the conversations of a text, each with a new hub.
pub(crate) fn play(rt: &(impl Abort + AllocGlobal), text: &str) {
    for text in text.split("== ") {
        if !text.trim().is_empty() {
            play_rows(rt, rt.alloc(), text);
        }
    }
}

fn play_rows(rt: &impl Abort, alloc: Global, text: &str) {
    let Some((text, rows)) = text.split_once("each:") else {
        let (line, answer) = ("", "");
        return play_with(rt, alloc, Told { text, line, answer });
    };
    for row in rows.lines() {
        let row = row.trim();
        if !row.is_empty() {
            let (lines, answer) = row.split_once(" -> ").expect(rt, row);
            for line in lines.split(" | ") {
                play_with(rt, alloc, Told { text, line, answer });
            }
        }
    }
}

fn play_with(rt: &impl Abort, alloc: Global, told: Told<'_>) {
    let name = told.text.lines().next().unwrap_or("");
    match open(rt, alloc, told.text) {
        Ok(hub) => Played::new(alloc, hub, told, name).play(rt, name),
        Err(refused) => is_refused(rt, name, told.text, refused),
    }
}

/// Tests that the only step is this refusal.
fn is_refused(rt: &impl Abort, name: &str, text: &str, refused: SetupRefused) {
    let told = match refused {
        SetupRefused::Limit => "the hub is refused Limit",
        SetupRefused::Name => "the hub is refused Name",
        _ => panic!(rt; "{name}: no hub: {refused:?}"),
    };
    let mut steps = 0u32;
    for (number, line) in text.lines().enumerate() {
        let line = line.trim();
        if number != 0 && !line.is_empty() && !line.starts_with("with ") {
            assert!(rt; line == told, "{name}: {told}, not {line}");
            steps = steps.saturating_add(1);
        }
    }
    assert!(rt; steps == 1, "{name}: {told}");
}

/// Stops the test, since a step went like this.
fn is_otherwise<T: Debug>(rt: &impl Abort, place: Place<'_>, seen: &T) -> ! {
    let Place { name, number, text } = place;
    panic!(rt; "{name}: line {number}, {text}: {seen:?}")
}

/// Stops the test, since a line says what means nothing.
fn means_nothing(rt: &impl Abort, place: Place<'_>, why: &str, what: &str) -> ! {
    let Place { name, number, text } = place;
    panic!(rt; "{name}: line {number}, {text}: {why}{what}")
}
