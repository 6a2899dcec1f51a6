ghost use Rattle.std.specs.Prelude.{◌≡◌, ◌∷◌, []};

pub(crate) use hub_core::{
    Account, Answer, Ask, Asked, Conn, Core, JoinRefused, Options, PlainOptions, Prepared, Setup,
    SetupRefused, Stage, Totals, Touched, Verdict, prepare, run_calls,
};
pub(crate) use session_hash::First24;
pub(crate) use std::alloc::{AllocError, AllocGlobal, Global};
pub(crate) use std::io::Print;
pub(crate) use std::process::Abort;
pub(crate) use std::sync::{Arc, Wait};
pub(crate) use tests_support::{Machine, again, tell};

/// Gives the options of a hub for so many users.
pub(crate) fn options_for(users: u32) -> Options<'static> {
    Options {
        plain: PlainOptions::for_users(users),
        ..Options::named("Hub")
    }
}

/// Puts an item last, at the second try where memory is refused at the first.
pub(crate) fn keep<T: Drop>(rt: &impl Abort, items: &mut Vec<T>, item: T) {
    tests_support::push(items, item).expect(rt, "refused twice");
}

/// Stops the test, since a conversation says what means nothing.
pub(crate) fn unknown(rt: &impl Abort, kind: &str, what: &str) -> ! {
    panic!(rt; "unknown {kind} {what}")
}

/// Stops the test unless this is so. Comparisons stop a test by this call alone, since an assertion is dearer to prove.
pub(crate) fn holds(rt: &impl Abort, is_so: bool, what: &str) {
    assert!(rt; is_so, "{what}");
}

/// Appends bytes, at the second try where memory is refused at the first.
pub(crate) fn append(rt: &impl Abort, bytes: &mut Vec<u8>, more: &[u8]) {
    tests_support::append(bytes, more).expect(rt, "refused twice");
}

/// Gives the bytes that a text spells.
pub(crate) fn spell(rt: &impl Abort, alloc: Global, text: &str, round: usize) -> Vec<u8> {
    match tests_support::spell(alloc, text, round) {
        Some(bytes) => bytes,
        None => unknown(rt, "spelling", text),
    }
}

/// Gives the text that a text spells.
pub(crate) fn spell_text(rt: &impl Abort, alloc: Global, text: &str) -> String {
    String::from_utf8(spell(rt, alloc, text, 0)).expect(rt, text)
}

/// Puts one item in a new vector.
pub(crate) fn only<S: Drop>(rt: &impl Abort, alloc: Global, item: S) -> Vec<S>
    ensures { result.items ≡ item ∷ [] }
{
    let mut all = again!(rt; Vec::with_capacity(alloc, 1));
    all.push_reserved(item);
    all
}
