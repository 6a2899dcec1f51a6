use counted_io::{CountedRead, Counting, write_and_flush, write_and_flush_counted};
use std::alloc::AllocGlobal;
use std::io::{self, Read};
use std::process::Abort;
use tests_support::{Output, again};

/// Gives what a write answered, of an error its kind.
fn kinds(answer: io::Result<()>) -> Result<(), io::ErrorKind> {
    answer.map_err(|error| error.kind())
}

/// Stops the test unless these bytes are written like this, and so many calls are made; and just so by a writer that counts, which counts the
/// call that fails.
fn writes<R: AllocGlobal + Abort>(
    rt: &R,
    bytes: &[u8],
    most: usize,
    bad: usize,
    wanted: Result<(), io::ErrorKind>,
    got: &[u8],
    calls: usize,
) {
    let mut taker = again!(rt; Output::new(rt.alloc(), most, bad));
    let answer = kinds(write_and_flush(&mut taker, bytes));
    assert!(rt; answer == wanted, "by {most}, bad {bad}: {answer:?}");
    let is_written = taker.got.as_slice() == got && taker.calls == calls;
    assert!(rt; is_written, "by {most}, bad {bad}");
    let mut taker = Counting::new(again!(rt; Output::new(rt.alloc(), most, bad)));
    let answer = kinds(write_and_flush_counted(&mut taker, bytes));
    let failures = taker.failures();
    let is_counted = failures.count == wanted.is_err() as u64
        && failures.is_last == wanted.is_err();
    let is_written = answer == wanted && taker.get_ref().got.as_slice() == got;
    assert!(rt;
        is_counted && is_written,
        "by {most}, bad {bad}: {failures:?}"
    );
}

#[test]
fn writes_all_or_the_front(rt: HostRuntime) {
    let broken = Err(io::ErrorKind::BrokenPipe);
    writes(&rt, b"", 2, 1, Ok(()), b"", 0);
    writes(&rt, b"abcde", 9, 0, Ok(()), b"abcde", 2);
    writes(&rt, b"abcde", 2, 0, Ok(()), b"abcde", 4);
    writes(&rt, b"abcde", 0, 0, Err(io::ErrorKind::WriteZero), b"", 1);
    // The fourth call is the flush.
    for (bad, got) in [(1, b"".as_slice()), (2, b"ab"), (3, b"abcd"), (4, b"abcde")] {
        writes(&rt, b"abcde", 2, bad, broken, got, bad);
    }
}

/// A reader that fails at each second call, from the first on.
#[derive(Drop)]
struct Stutterer {
    is_well: bool,
}

impl Read for Stutterer {
    fn read(&mut self, _buf: &mut [u8]) -> io::Result<usize> {
        self.is_well = !self.is_well;
        if self.is_well {
            return Err(io::ErrorKind::BrokenPipe.into());
        }
        Ok(0)
    }
}

#[test]
fn counts_the_reads_that_fail(rt: HostRuntime) {
    let mut reader = Counting::new(Stutterer { is_well: false });
    let mut buffer = [0; 4];
    for (count, is_last) in [(1, true), (1, false), (2, true), (2, false)] {
        let answer = reader.read_counted(&mut buffer);
        let failures = reader.failures();
        assert!(rt; answer.is_err() == is_last);
        let is_counted = failures.count == count && failures.is_last == is_last;
        assert!(rt; is_counted, "{failures:?}");
    }
}
