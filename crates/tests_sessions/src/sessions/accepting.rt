ghost use Rattle.std.specs.Prelude.{⊤};

use super::*;
use adc_sessions::{Accept, AcceptEnd, Incoming, Peer, Starter};
use std::io;
use std::sync::atomic::{AtomicU32, Ordering};

/// A script that brings so many faults, then so many streams, and both again, and then lets wait.
#[derive(Drop)]
struct Script {
    faults: usize,
    streams: usize,
    at: usize,
}

impl Script {
    fn twice(faults: usize, streams: usize) -> Script {
        Script {
            faults,
            streams,
            at: 0,
        }
    }
}

impl Incoming for Script {
    type Stream = ();

    ghost brings = { λ _ _ _. ⊤ };

    fn poll_incoming(&mut self, cx: &mut Context<'_>) -> Poll<io::Result<((), Peer)>> {
        let half = self.faults.saturating_add(self.streams);
        if self.at >= half.saturating_mul(2) {
            return cx.yield_now();
        }
        let place = self.at.checked_sub(half).unwrap_or(self.at);
        self.at = self.at.saturating_add(1);
        if place >= self.faults {
            let address = [127, 0, 0, 1];
            return Poll::Ready(Ok(((), Peer { address })));
        }
        Poll::Ready(Err(io::ErrorKind::ConnectionAborted.into()))
    }
}

/// A starter that counts what it starts.
#[derive(Drop)]
struct Count<'a> {
    started: &'a AtomicU32,
}

impl Starter<()> for Count<'_> {
    ghost starts = { λ _ _ _. ⊤ };

    ghost starts_nothing = { λ _. tt };

    ghost starts_in_order = { λ _ _ _ _ _ _ _. tt };

    fn start(&mut self, _stream: (), _peer: Peer) {
        self.started.fetch_add(1, Ordering::Relaxed);
    }
}

/// Polls until it is over, at most so often, and tells how it ended and how many streams were started; at most 16 streams come of one poll.
fn polls<I: Incoming, T: Starter<I::Stream>>(
    rt: &impl Abort,
    bench: &Bench,
    accept: &mut Accept<I, T>,
    count: &AtomicU32,
) -> (Option<AcceptEnd>, u32) {
    for _ in 0..1_000 {
        let before = count.load(Ordering::Relaxed);
        let polled = bench.task.poll(accept);
        let started = count.load(Ordering::Relaxed);
        are_few(rt, before, started);
        if let Poll::Ready(end) = polled {
            return (Some(end), started);
        }
    }
    (None, count.load(Ordering::Relaxed))
}

fn are_few(rt: &impl Abort, before: u32, started: u32) {
    let are_few = started <= before.saturating_add(16);
    assert!(rt; are_few, "{before} and then {started}");
}

/// Stops the test unless it ends like this, or not within a thousand polls, once so many streams were started.
fn accepts(
    rt: &impl Abort,
    bench: &Bench,
    script: Script,
    stop_after: Option<u64>,
    end: Option<AcceptEnd>,
    wanted: u32,
) {
    let count = AtomicU32::new(0);
    let mut accept = Accept::new(script, Count { started: &count }, stop_after);
    let (ended, started) = polls(rt, bench, &mut accept, &count);
    assert!(rt; ended == end && started == wanted, "{ended:?}, {started}");
}

/// Tests that 64 faults in a row are too many, and 63 and a stream are not; and that as many streams are accepted as are to be, without a number all.
#[test]
fn streams_are_accepted_until_an_end(rt: HostRuntime) {
    let bench = Bench::new(&rt);
    let (failed, stopped) = (Some(AcceptEnd::AcceptFailed), Some(AcceptEnd::Stopped));
    accepts(&rt, &bench, Script::twice(64, 1), Some(2), failed, 0);
    accepts(&rt, &bench, Script::twice(63, 1), Some(2), stopped, 2);
    for number in [0, 1, 16, 17, 40u32] {
        let (script, most) = (Script::twice(1, 50), Some(u64::from(number)));
        accepts(&rt, &bench, script, most, stopped, number);
    }
    accepts(&rt, &bench, Script::twice(3, 50), None, None, 100);
}
