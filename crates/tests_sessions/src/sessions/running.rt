// Sessions of any kind. They are begun and polled here alone, so that no test has a session of its own kind to let go of.
use super::*;
use adc_sessions::SessionRefused;

/// The number of times that a session is polled at most.
const POLLS: u32 = 1_000_000;

/// The memory and the task of a test.
#[derive(Drop)]
pub(crate) struct Bench {
    pub(crate) alloc: Global,
    pub(crate) task: MockTask,
}

impl Bench {
    pub(crate) fn new<R: Abort + RandomSource + AllocGlobal>(rt: &R) -> Bench {
        Bench {
            alloc: rt.alloc(),
            task: again!(rt; MockTask::new(rt)),
        }
    }
}

/// Makes a session, a second time of what was given back where memory was refused.
pub(crate) fn make_session<S: AsyncRead + AsyncWrite, P: Port, B: Bell>(
    rt: &impl Abort,
    alloc: Global,
    stream: S,
    port: P,
    bell: B,
) -> Session<S, P, B> {
    match Session::new(alloc, stream, port, bell) {
        Ok(session) => session,
        Err((SessionRefused::Memory, stream, port, bell)) => {
            match Session::new(alloc, stream, port, bell) {
                Ok(session) => session,
                Err(_) => refused_twice(rt),
            }
        }
    }
}

/// Holds a session to its end, and tells how many polls came before the last.
pub(crate) fn hold<S: AsyncRead + AsyncWrite, P: Port, B: Bell>(
    rt: &impl Abort,
    bench: &Bench,
    stream: S,
    port: P,
    bell: B,
) -> (End, S, P::Left, u32) {
    let mut session = make_session(rt, bench.alloc, stream, port, bell);
    for polls in 0..POLLS {
        if let Poll::Ready((end, stream, left)) = bench.task.poll(&mut session) {
            return (end, stream, left, polls);
        }
    }
    panic!(rt; "polled a million times")
}
