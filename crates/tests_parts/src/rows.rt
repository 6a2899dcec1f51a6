//! Rows that are told as text: a call, ` -> ` and what it answers. Blank lines, blanks around a row, and lines that begin with `//` say
//! nothing. A row whose answer is another stops the test.
//!
//! A call is a name and what it is given. Calls of one name may stand in one row, as `sid 0 -> AAAA | 1 -> AAAB`; one without an answer is answered
//! like the next. What is given and what is answered are spelled as in conversations: `tests_support::spell` tells how.

pub(crate) use std::alloc::{AllocError, AllocGlobal, Global};
use std::fmt::Debug;
pub(crate) use std::process::Abort;
use tests_support::tell;
pub(crate) use tests_support::{Machine, again};

/// A call of a row: its name, and what it is given as bytes, and as text where it is UTF-8, else "".
#[derive(Clone, Copy)]
pub(crate) struct Row<'a> {
    pub(crate) name: &'a str,
    pub(crate) text: &'a str,
    pub(crate) bytes: &'a [u8],
}

/// A part of the rows: what a row calls.
pub(crate) trait Part {
    /// Makes a call and writes what it answers.
    fn call(&mut self, rt: &impl Machine, row: Row<'_>, said: &mut Vec<u8>);
}

/// Makes the calls of rows that stand in a test: `rows! { rt, Part, ".." }` on a new part, `rows! { play_it(rt) ".." }` by a function. Behind each
/// line `== NAME ==` they begin anew.
macro_rules! rows {
    ($rt:ident, $part:expr, $rows:expr) => {
        for rows in $rows.split("== ") {
            crate::rows::play(&$rt, &mut $part, crate::rows::behind_name(rows));
        }
    };
    ($play:ident($rt:ident) $rows:expr) => {
        for rows in $rows.split("== ") {
            $play(&$rt, crate::rows::behind_name(rows));
        }
    };
}

pub(crate) use rows;

/// Gives the rows behind a name, where one stands before them.
pub(crate) fn behind_name(rows: &str) -> &str {
    match rows.split_once(" ==\n") {
        Some((_, rows)) => rows,
        None => rows,
    }
}

/// Makes the calls of the rows, one after another.
pub(crate) fn play<R: Machine, P: Part>(rt: &R, part: &mut P, rows: &str) {
    for row in rows.lines() {
        let row = row.trim();
        if !row.is_empty() && !row.starts_with("//") {
            play_row(rt, part, row);
        }
    }
}

fn play_row<R: Machine, P: Part>(rt: &R, part: &mut P, row: &str) {
    let (name, calls) = pair(row, ' ');
    for (place, call) in calls.split(" | ").enumerate() {
        let (given, _) = call.split_once("-> ").unwrap_or((call, ""));
        let said = answer_to(rt, part, name, given.strip_suffix(' ').unwrap_or(given));
        if said != spell(rt, rt.alloc(), answer_of(rt, calls, place)) {
            is_another(rt, row, &said);
        }
    }
}

/// Gives the answer of a call of a row: its own, or that of the next that has one.
fn answer_of<'a>(rt: &impl Abort, calls: &'a str, place: usize) -> &'a str {
    for (number, call) in calls.split(" | ").enumerate() {
        if number >= place
            && let Some((_, answer)) = call.split_once("-> ")
        {
            return answer;
        }
    }
    unknown(rt, calls)
}

/// Makes a call, and gives what it answers.
fn answer_to<R: Machine, P: Part>(rt: &R, part: &mut P, name: &str, given: &str) -> Vec<u8> {
    let bytes = spell(rt, rt.alloc(), given);
    let mut said = Vec::new(rt.alloc());
    let row = Row {
        name,
        text: text_of(&bytes),
        bytes: &bytes,
    };
    part.call(rt, row, &mut said);
    said
}

pub(crate) fn text_of(bytes: &[u8]) -> &str {
    std::str::from_utf8(bytes).unwrap_or("")
}

fn is_another(rt: &impl Abort, row: &str, said: &[u8]) -> ! {
    match std::str::from_utf8(said) {
        Ok(said) => panic!(rt; "{row}: {said:?}"),
        Err(_) => panic!(rt; "{row}: no UTF-8"),
    }
}

/// Splits a text at the first such letter; nothing is behind it where it does not stand there.
pub(crate) fn pair(text: &str, at: char) -> (&str, &str) {
    text.split_once(at).unwrap_or((text, ""))
}

/// Gives the bytes that a text spells.
fn spell(rt: &impl Abort, alloc: Global, text: &str) -> Vec<u8> {
    tests_support::spell(alloc, text, 0).expect(rt, text)
}

pub(crate) fn unknown(rt: &impl Abort, what: &str) -> ! {
    panic!(rt; "{what}: unknown")
}

pub(crate) fn number(rt: &impl Abort, text: &str) -> u64 {
    text.parse::<u64>().expect(rt, text)
}

/// Reads a number below 2^32.
pub(crate) fn small(rt: &impl Abort, text: &str) -> u32 {
    text.parse::<u32>().expect(rt, text)
}

pub(crate) fn byte(rt: &impl Abort, text: &str) -> u8 {
    text.parse::<u8>().expect(rt, text)
}

pub(crate) fn twenty_four(bytes: &[u8]) -> Option<[u8; 24]> {
    bytes.try_into().ok()
}

pub(crate) fn say_bytes(rt: &impl Abort, said: &mut Vec<u8>, bytes: &[u8]) {
    tests_support::append(said, bytes).expect(rt, "refused twice");
}

pub(crate) fn say(rt: &impl Abort, said: &mut Vec<u8>, text: &str) {
    say_bytes(rt, said, text.as_bytes());
}

pub(crate) fn say_whether(rt: &impl Abort, said: &mut Vec<u8>, is_so: bool) {
    say(rt, said, if is_so { "yes" } else { "no" });
}

/// Says the word behind what was said before, if that is anything.
pub(crate) fn say_next(rt: &impl Abort, said: &mut Vec<u8>, text: &str) {
    if !said.is_empty() {
        say(rt, said, " ");
    }
    say(rt, said, text);
}

pub(crate) fn say_number(rt: &impl Machine, said: &mut Vec<u8>, number: u128) {
    let digits = again!(rt; shown(rt.alloc(), &number));
    say_next(rt, said, &digits);
}

/// Says a value by its name in the code.
pub(crate) fn say_shown<T: Debug>(rt: &impl Machine, said: &mut Vec<u8>, value: &T) {
    let text = again!(rt; shown(rt.alloc(), value));
    say(rt, said, &text);
}

fn shown<T: Debug>(alloc: Global, value: &T) -> Result<String, AllocError> {
    format!(in alloc; "{value:?}")
}

/// Says the bytes, or that there are none.
pub(crate) fn say_any(rt: &impl Abort, said: &mut Vec<u8>, bytes: Option<&[u8]>) {
    say_bytes(rt, said, bytes.unwrap_or(b"none"));
}

/// Finds the value that has this name in the code.
pub(crate) fn named<T: Copy + Debug>(rt: &impl Machine, name: &str, values: &[T]) -> T {
    for value in values {
        let shown = again!(rt; shown(rt.alloc(), value));
        if shown.as_str() == name {
            return *value;
        }
    }
    unknown(rt, name)
}

/// Tells that a call was refused memory, and stops the test where that changed something.
pub(crate) fn say_refused_memory(rt: &impl Machine, call: &str, is_unchanged: bool) {
    assert!(rt; tell(rt, call), "not written");
    assert!(rt; is_unchanged, "{call}: a refusal changed something");
}

/// Makes a call once more where memory was refused, which changes nothing that is seen. Whatever else it answers stands.
macro_rules! twice {
    ($rt:expr; $name:expr, $memory:pat, $call:expr) => {
        crate::rows::twice!($rt; $name, $memory, true, $call)
    };
    ($rt:expr; $name:expr, $memory:pat, $seen:expr, $call:expr) => {{
        let before = $seen;
        match $call {
            Err($memory) => {
                let seen = $seen;
                crate::rows::say_refused_memory($rt, $name, seen == before);
                $call
            }
            answer => answer,
        }
    }};
}

pub(crate) use twice;

/// Makes a call that has to succeed, as [`twice`] does.
macro_rules! got {
    ($rt:expr; $name:expr, $memory:pat, $($rest:expr),+) => {
        match crate::rows::twice!($rt; $name, $memory, $($rest),+) {
            Ok(value) => value,
            Err(_) => crate::rows::unknown($rt, $name),
        }
    };
}

pub(crate) use got;
