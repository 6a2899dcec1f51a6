ghost use Rattle.std.specs.Prelude.{⊤};

use super::*;
use tokio::io::{duplex, read_exact};

/// The number of lines that wait: more than three takes give.
const LINES: usize = 1_000;

const HI: &[u8] = b"hi\n";

/// A port for which lines wait from the beginning, and for which no more come.
#[derive(Drop)]
struct Store {
    bytes: Vec<u8>,
    given: usize,
}

impl Store {
    fn new(rt: &impl Abort, alloc: Global) -> Store {
        let mut bytes = Vec::new(alloc);
        for _ in 0..LINES {
            again!(rt; bytes.extend_from_slice(HI));
        }
        Store { bytes, given: 0 }
    }
}

impl Port for Store {
    type Left = ();

    ghost step = { λ _ _ _. ⊤ };

    ghost leaves = { λ _ _. ⊤ };

    fn line(&mut self, _alloc: Global, _line: &[u8]) -> Result<Verdict, LineRefused> {
        Ok(Verdict::Kept)
    }

    fn take(&mut self, count: usize, out: &mut Vec<u8>) -> Result<Taken, TakeRefused> {
        let rest = &self.bytes[self.given.min(self.bytes.len())..];
        let bytes = rest.len().min(count.saturating_mul(HI.len()));
        if out.extend_from_slice(&rest[..bytes]).is_err() {
            return Err(TakeRefused::Memory);
        }
        self.given = self.given.saturating_add(bytes);
        let (lines, ended) = ((bytes / HI.len()) as u64, false);
        Ok(Taken { lines, ended })
    }

    fn quit(self) {}
}

/// Polls a session as often as it is woken. Its client says nothing and closes nothing, and nobody rings for it. It ends only where
/// memory was refused.
fn rests<S: AsyncRead + AsyncWrite, P: Port, B: Bell>(
    rt: &impl Abort,
    task: &MockTask,
    session: &mut Session<S, P, B>,
) -> bool {
    for _ in 0..1_000 {
        if let Poll::Ready((end, _, _)) = task.poll(session) {
            assert!(rt; end == End::Memory, "{end:?}");
            return false;
        }
        if !task.is_woken() {
            return true;
        }
    }
    panic!(rt; "polled a thousand times")
}

/// Compares what a client gets with the lines that waited.
fn hears_lines<S: AsyncRead>(rt: &impl Abort, client: &Bench, far: S) {
    let room = again!(rt; vec![in client.alloc; 0; LINES * 3]);
    let Poll::Ready(Ok((_, heard))) = client.task.poll(&mut read_exact(far, room)) else {
        panic!(rt; "it rests while lines wait");
    };
    are_same(rt, &heard, &Store::new(rt, client.alloc).bytes);
}

/// Lets a session rest, and compares what its client gets; not where memory was refused.
fn hears_all(rt: &impl Abort, bench: &Bench, client: &Bench) -> bool {
    let alloc = bench.alloc;
    let (near, far) = again!(rt; duplex(alloc, 4_096));
    let mut session = make_session(rt, alloc, near, Store::new(rt, alloc), Silent::new());
    let has_rested = rests(rt, &bench.task, &mut session);
    if has_rested {
        hears_lines(rt, client, far);
    }
    has_rested
}

#[test]
fn a_session_rests_only_once_no_line_waits(rt: HostRuntime) {
    let (bench, client) = (Bench::new(&rt), Bench::new(&rt));
    let has_heard = hears_all(&rt, &bench, &client) || hears_all(&rt, &bench, &client);
    assert!(&rt; has_heard, "refused twice");
}
