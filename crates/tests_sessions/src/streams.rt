use crate::checks::{ENTERED, GREETING, are_same, are_so_many, begins, told};
use hub_core::{MenuEntry, MenuItem, Options, Setup};
use hub_stdio::{Counting, Failures, RunFault, run_one};
use session_hash::First24;
use std::alloc::{AllocGlobal, Global};
use std::process::Abort;
use std::sync::Arc;
use tests_support::{Input, Output, again};

/// Ana is greeted, and says what is no line.
const DENIED: &str = r"
ana is greeted AAAB
ana says <x78> -> ISTA 140 Protocol\serror
";

/// What is counted where each call succeeded.
const NONE: Failures = Failures {
    count: 0,
    is_last: false,
};

/// What is counted where the last call failed, and no other.
const ONE: Failures = Failures {
    count: 1,
    is_last: true,
};

/// The outcome of a run: what it answered, and what it left of its reader and its writer.
#[derive(Drop)]
struct Ran<'a> {
    answer: Result<(), RunFault>,
    input: Counting<Input<'a>>,
    output: Counting<Output>,
}

/// Makes a hub with this menu.
fn hub_with(alloc: Global, menu: &[MenuEntry<'_>]) -> Option<Arc<Setup>> {
    let options = Options {
        commands: menu,
        ..Options::named("Hub")
    };
    Arc::new(alloc, Setup::new(alloc, &options).ok()?).ok()
}

/// Runs a hub with this menu, of this reader, with a writer that takes `most` bytes a write and fails at call `bad`.
fn attempt<'a>(
    alloc: Global,
    menu: &[MenuEntry<'_>],
    input: Input<'a>,
    most: usize,
    bad: usize,
) -> Option<Ran<'a>> {
    let setup = hub_with(alloc, menu)?;
    let mut output = Counting::new(Output::new(alloc, most, bad).ok()?);
    let mut input = Counting::new(input);
    let answer = answer_of(alloc, setup, &mut input, &mut output);
    Some(Ran {
        answer,
        input,
        output,
    })
}

// A run promises much, so that its call stands in a function of its own, which promises nothing.
fn answer_of(
    alloc: Global,
    setup: Arc<Setup>,
    input: &mut Counting<Input<'_>>,
    output: &mut Counting<Output>,
) -> Result<(), RunFault> {
    run_one(alloc, setup, &First24, input, output)
}

/// Gives what was run, unless memory was refused: it wrote the front of `whole` then.
fn unless_refused<'a>(rt: &impl Abort, ran: Option<Ran<'a>>, whole: &[u8]) -> Option<Ran<'a>> {
    let ran = ran?;
    if ran.answer != Err(RunFault::Memory) {
        return Some(ran);
    }
    begins(rt, &ran.output.get_ref().got, whole);
    None
}

/// Runs it as [`attempt`] does, where memory is refused once at most: a run that met that wrote the front of `whole`, and another one is made.
fn run_with<'a, R: AllocGlobal + Abort>(
    rt: &R,
    menu: &[MenuEntry<'_>],
    input: Input<'a>,
    most: usize,
    bad: usize,
    whole: &[u8],
) -> Ran<'a> {
    match unless_refused(rt, attempt(rt.alloc(), menu, input, most, bad), whole) {
        Some(ran) => ran,
        None => attempt(rt.alloc(), menu, input, most, bad).expect(rt, "refused twice"),
    }
}

/// Stops the test unless a run of this reader, with a writer that takes all, ends by this answer and writes just this.
fn ends<'a, R: AllocGlobal + Abort>(
    rt: &R,
    input: Input<'a>,
    answer: Result<(), RunFault>,
    wanted: &[u8],
) -> Ran<'a> {
    let ran = run_with(rt, &[], input, 4096, 0, wanted);
    answers(rt, input.most, &ran, answer);
    are_same(rt, &ran.output.get_ref().got, wanted);
    ran
}

/// Stops the test unless a run answered as it should in this case.
fn answers(rt: &impl Abort, case: usize, ran: &Ran<'_>, answer: Result<(), RunFault>) {
    assert!(rt; ran.answer == answer, "case {case}: {:?}", ran.answer);
}

/// Stops the test unless these calls failed in this case.
fn failed(rt: &impl Abort, case: usize, failures: Failures, wanted: Failures) {
    assert!(rt; failures == wanted, "case {case}: {failures:?}");
}

/// Makes so many bytes, which begin like this; the others are letters.
fn padded(rt: &impl Abort, alloc: Global, front: &[u8], length: usize) -> Vec<u8> {
    let mut bytes = again!(rt; Vec::from_slice(alloc, front));
    again!(rt; bytes.resize(length, b'x'));
    bytes
}

/// Stops the test unless a run answers this input by just this, however it reads.
fn is_answered<R: AllocGlobal + Abort>(rt: &R, input: &[u8], wanted: &[u8]) {
    for most in [1, 2, 7, 4096] {
        drop(ends(rt, Input::of(input, most), Ok(()), wanted));
    }
}

#[test]
fn answers_the_lines_that_it_reads(rt: HostRuntime) {
    for text in [GREETING, ENTERED, "ana says\nana says\nana is greeted AAAB"] {
        let ana = told(&rt, rt.alloc(), text, "ana");
        is_answered(&rt, &ana.said, &ana.heard);
    }
    let denied: &[u8] = b"ISTA 140 Protocol\\serror\n";
    for input in [b"x\n".as_slice(), b"x\nx"] {
        is_answered(&rt, input, denied);
    }
    for input in [b"HSTA 000 x\n".as_slice(), b"HSUP ADBASE ADTIGR", b""] {
        is_answered(&rt, input, b"");
    }
}

#[test]
fn ends_once_the_connection_is_shut_out(rt: HostRuntime) {
    let wanted = b"ISTA 247 No\\scommon\\shash\n";
    let input = b"HSUP ADBASE\nHSUP ADBASE ADTIGR\n";
    // The line that shuts it out has 12 bytes, so twelve reads of one byte, or one of twelve, get it.
    for (most, reads) in [(1, 12), (12, 1), (4096, 1)] {
        let ran = ends(&rt, Input::of(input, most), Ok(()), wanted);
        are_so_many(&rt, most, ran.input.get_ref().reads, reads);
    }
    // A line that is too long behind that line is not looked at.
    let long = padded(&rt, rt.alloc(), b"HSUP ADBASE\n", 80_000);
    drop(ends(&rt, Input::of(&long, 4096), Ok(()), wanted));
}

/// Ana enters, and is owed too much.
const OWED: &str = r"
ana says HSUP ADBASE ADTIGR ADUCM0 -> ISUP ADBASE ADTIGR ADPING ADUCMD | ISID AAAB | IINF CT32 NIHub VEadc-hub\s1.0
ana says BINF AAAB ID<P0> PD<P0> NIana | BMSG AAAB hi
";

#[test]
fn ends_once_the_connection_is_owed_too_much(rt: HostRuntime) {
    // A newcomer is owed its own line and 64 commands at once, of over 20,000 bytes each: over 1,048,576 bytes together.
    let text = padded(&rt, rt.alloc(), b"", 20_000);
    let text = std::str::from_utf8(&text).expect(&rt, "a text");
    let entry = MenuEntry {
        name: "Long",
        context: 1,
        item: MenuItem::Text(text),
    };
    let menu = [entry; 64];
    let ana = told(&rt, rt.alloc(), OWED, "ana");
    // All that comes behind the line that is owed too much is not read.
    let ran = run_with(&rt, &menu, Input::of(&ana.said, 1), 4096, 0, &ana.heard);
    answers(&rt, 0, &ran, Ok(()));
    are_same(&rt, &ran.output.get_ref().got, &ana.heard);
    are_same(&rt, ran.input.get_ref().rest, b"BMSG AAAB hi\n");
}

#[test]
fn stops_at_a_line_that_is_too_long(rt: HostRuntime) {
    let ana = told(&rt, rt.alloc(), GREETING, "ana");
    // A line of 65,536 bytes may come to an end yet, and one of 65,537 is too long.
    for (length, answer) in [(65_555, Ok(())), (65_556, Err(RunFault::TooLong))] {
        let bytes = padded(&rt, rt.alloc(), &ana.said, length);
        drop(ends(&rt, Input::of(&bytes, 4096), answer, &ana.heard));
    }
}

#[test]
fn writes_on_as_the_writer_takes(rt: HostRuntime) {
    let ana = told(&rt, rt.alloc(), GREETING, "ana");
    let input = Input::of(&ana.said, 4096);
    for most in [1, 2, 73] {
        let ran = run_with(&rt, &[], input, most, 0, &ana.heard);
        answers(&rt, most, &ran, Ok(()));
        are_same(&rt, &ran.output.get_ref().got, &ana.heard);
    }
    let ran = run_with(&rt, &[], input, 0, 0, &ana.heard);
    answers(&rt, 0, &ran, Err(RunFault::Write));
    are_same(&rt, &ran.output.get_ref().got, b"");
    failed(&rt, 0, ran.output.failures(), ONE);
}

#[test]
fn stops_at_a_write_that_fails(rt: HostRuntime) {
    let ana = told(&rt, rt.alloc(), DENIED, "ana");
    let input = Input::of(&ana.said, 4096);
    let whole = ana.heard.as_slice();
    let good = run_with(&rt, &[], input, 10, 0, whole);
    answers(&rt, 0, &good, Ok(()));
    are_same(&rt, &good.output.get_ref().got, whole);
    failed(&rt, 0, good.output.failures(), NONE);
    for bad in 1..=good.output.get_ref().calls {
        let ran = run_with(&rt, &[], input, 10, bad, whole);
        answers(&rt, bad, &ran, Err(RunFault::Write));
        begins(&rt, &ran.output.get_ref().got, whole);
        failed(&rt, bad, ran.output.failures(), ONE);
        failed(&rt, bad, ran.input.failures(), NONE);
        are_so_many(&rt, bad, ran.output.get_ref().calls, bad);
    }
}

#[test]
fn stops_at_a_read_that_fails(rt: HostRuntime) {
    let ana = told(&rt, rt.alloc(), GREETING, "ana");
    // The 19 bytes of the line come in three reads.
    let all = ana.heard.as_slice();
    for (bad, wanted) in [(1, b"".as_slice()), (2, b""), (3, b""), (4, all)] {
        let mut input = Input::of(&ana.said, 7);
        input.bad = bad;
        let ran = ends(&rt, input, Err(RunFault::Read), wanted);
        failed(&rt, bad, ran.input.failures(), ONE);
        failed(&rt, bad, ran.output.failures(), NONE);
    }
}

#[test]
fn reads_so_often_and_no_more(rt: HostRuntime) {
    // Sixteen lines of 65,536 bytes, to which a hub says nothing, are read byte by byte.
    let mut line = padded(&rt, rt.alloc(), b"HSTA 000 ", 65_535);
    again!(&rt; line.push(b'\n'));
    let mut input = Input::of(b"", 1);
    input.again = &line;
    let ran = ends(&rt, input, Err(RunFault::Turns), b"");
    are_so_many(&rt, 0, ran.input.get_ref().reads, 1_048_576);
}
