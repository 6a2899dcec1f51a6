// Sockets that linger: for how long, which one is cut off where too many do, and that the ticker waits for them.
use crate::histories::clock::StillClock;
use crate::machine::*;
use server_tasks::{LeavingSocket, Lingering, Shared, Ticker};
use std::sync::atomic::{AtomicU64, Ordering};
use tokio::runtime::Runtime;
use tokio::time::Sleep;

/// A socket whose client neither sends anything nor closes. Once it is closed, its number is noted.
struct Silent<'a> {
    number: u64,
    closed: &'a AtomicU64,
}

impl Drop for Silent<'_> {
    fn drop(self) {
        let Silent { number, closed } = self;
        closed.store(number, Ordering::SeqCst);
    }
}

impl AsyncRead for Silent<'_> {
    ghost use Rattle.std.specs.Prelude.{⊤};

    ghost reads = { λ _ _ _. ⊤ };

    ghost is_at_end = { λ _. ⊤ };

    ghost reads_nothing = { λ _. tt };

    ghost reads_in_order = { λ _ _ _ _ _ _ _. tt };

    fn poll_read(&mut self, cx: &mut Context<'_>, _buf: &mut [u8]) -> Poll<io::Result<usize>> {
        cx.yield_now()
    }
}

impl AsyncWrite for Silent<'_> {
    ghost use Rattle.std.specs.Prelude.{⊤};

    ghost writes = { λ _ _ _. ⊤ };

    ghost writes_nothing = { λ _. tt };

    ghost writes_in_order = { λ _ _ _ _ _ _ _. tt };

    fn poll_write(&mut self, _cx: &mut Context<'_>, buf: &[u8]) -> Poll<io::Result<usize>> {
        Poll::Ready(Ok(buf.len()))
    }

    fn poll_flush(&mut self, _cx: &mut Context<'_>) -> Poll<io::Result<()>> {
        Poll::Ready(Ok(()))
    }

    fn poll_shutdown(&mut self, _cx: &mut Context<'_>) -> Poll<io::Result<()>> {
        Poll::Ready(Ok(()))
    }
}

/// Lets a socket of this number begin to linger.
fn linger<'a, R: Wait>(
    lingering: &Lingering<Silent<'a>>,
    clock: &StillClock<R>,
    number: u64,
    closed: &'a AtomicU64,
) {
    let _ = lingering.linger(clock, LeavingSocket::new(Silent { number, closed }));
}

/// Answers whether a socket still lingers so many seconds after its session.
fn lingers<R: Wait + RandomSource + AllocGlobal>(rt: &R, seconds: u64) -> Result<bool, AllocError> {
    let clock = StillClock::<R>::new();
    let closed = AtomicU64::new(0);
    let task = MockTask::new(rt).map_err(|_| AllocError)?;
    let lingering = Lingering::new(rt.alloc())?;
    linger(&lingering, &clock, 1, &closed);
    clock.set(seconds);
    Ok(task.enter(|cx| lingering
        .poll_lingering(&clock, cx, false)
        .is_ok_and(|seen| seen.some())))
}

#[test]
fn a_socket_lingers_for_ten_seconds(rt: HostRuntime) {
    for (seconds, wanted) in [(9, true), (10, false)] {
        let lingers = again!(&rt; lingers(&rt, seconds));
        assert!(&rt; lingers == wanted, "after {seconds} seconds");
    }
}

/// Gives the number of the socket that was closed last, or 0, once so many have begun to linger, one a second.
fn closed_of<R: Wait + AllocGlobal>(rt: &R, count: u64) -> Result<u64, AllocError> {
    let clock = StillClock::<R>::new();
    let closed = AtomicU64::new(0);
    let lingering = Lingering::new(rt.alloc())?;
    for before in 0..count {
        clock.set(before);
        linger(&lingering, &clock, before.wrapping_add(1), &closed);
    }
    Ok(closed.load(Ordering::SeqCst))
}

#[test]
fn the_oldest_of_too_many_is_cut_off(rt: HostRuntime) {
    for (count, wanted) in [(16, 0), (17, 1), (18, 2)] {
        let closed = again!(&rt; closed_of(&rt, count));
        assert!(&rt; closed == wanted, "{closed} of {count}");
    }
}

/// Answers whether the ticker of a server that serves nobody any more is over, so many seconds after a socket began to linger.
fn is_over_after<R: ServerMachine>(rt: &R, seconds: u64) -> Result<bool, AllocError> {
    let clock = StillClock::<R>::new();
    let closed = AtomicU64::new(0);
    let runtime = Runtime::with_worker_threads(rt, 1).map_err(|_| AllocError)?;
    let time = runtime.handle().time();
    let timer = time.sleep(rt, Duration::ZERO).map_err(|_| AllocError)?;
    let task = MockTask::new(rt).map_err(|_| AllocError)?;
    let shared: Shared<(), Silent<'_>> = Shared::new(rt.alloc(), 0)?;
    linger(&shared.lingering, &clock, 1, &closed);
    let _ = shared.close(&clock, None);
    clock.set(seconds);
    let is_over = is_over(&shared, &clock, timer, &task);
    let (_, mut left) = shared.into_left();
    while let Some(()) = left.next() {}
    left.end();
    Ok(is_over)
}

/// Answers whether the ticker of this server is over.
fn is_over<'a, 's, R: Wait>(
    shared: &'a Shared<(), Silent<'s>>,
    clock: &'a StillClock<R>,
    timer: Sleep,
    task: &MockTask,
) -> bool {
    let mut ticker = Ticker::new(shared, clock, timer);
    task.enter(|cx| ticker.poll_over(cx)).is_ready()
}

#[test]
fn the_ticker_waits_for_who_lingers(rt: HostRuntime) {
    for (seconds, wanted) in [(1, false), (2, true)] {
        let is_over = again!(&rt; is_over_after(&rt, seconds));
        assert!(&rt; is_over == wanted, "after {seconds} seconds");
    }
}
