// What is said and heard in all tests, and their comparisons: to prove an assertion with a message costs much more than to prove a call.
use adc_sessions::End;
use std::alloc::Global;
use std::process::Abort;
use tests_support::{Transcript, transcript_of};

/// Stops the test unless these are the bytes that are wanted.
pub(crate) fn are_same(rt: &impl Abort, got: &[u8], wanted: &[u8]) {
    assert!(rt; got == wanted, "{got:?}, not {wanted:?}");
}

/// Stops the test unless a session ended as it should.
pub(crate) fn is_end(rt: &impl Abort, end: End, wanted: End) {
    assert!(rt; end == wanted, "{end:?}, not {wanted:?}");
}

/// Stops the test unless there are as many as there should be in this case.
pub(crate) fn are_so_many(rt: &impl Abort, case: usize, count: usize, wanted: usize) {
    assert!(rt; count == wanted, "case {case}: {count}, not {wanted}");
}

/// Stops the test unless the second begins with the first.
pub(crate) fn begins(rt: &impl Abort, front: &[u8], whole: &[u8]) {
    assert!(rt; whole.starts_with(front), "{front:?} and not {whole:?}");
}

/// Stops the test where memory was refused twice.
pub(crate) fn refused_twice(rt: &impl Abort) -> ! {
    panic!(rt; "refused twice")
}

pub(crate) const GREETING: &str = "ana is greeted AAAB\n";

pub(crate) const ENTERED: &str = "\
ana is greeted AAAB
ana says BINF AAAB ID<P0> PD<P0> NIana SS10 SF2 I40.0.0.0 SUTCP4,SEGA -> BINF AAAB ID<P0> NIana SS10 SF2 I4127.0.0.1 SUTCP4,SEGA
";

/// Gives what one says and hears in a conversation.
pub(crate) fn told(rt: &impl Abort, alloc: Global, text: &str, who: &str) -> Transcript {
    transcript_of(alloc, text, who).expect(rt, text)
}
