ghost use Rattle.std.specs.Prelude.{⊤};

use super::*;

/// A port that notes how long its lines are.
#[derive(Clone, Copy)]
struct Ledger {
    lines: u32,
    longest: usize,
    takes: u32,
}

impl Port for Ledger {
    type Left = Ledger;

    ghost step = { λ _ _ _. ⊤ };

    ghost leaves = { λ _ _. ⊤ };

    fn line(&mut self, _alloc: Global, line: &[u8]) -> Result<Verdict, LineRefused> {
        self.lines = self.lines.saturating_add(1);
        self.longest = self.longest.max(line.len());
        Ok(Verdict::Kept)
    }

    fn take(&mut self, _count: usize, _out: &mut Vec<u8>) -> Result<Taken, TakeRefused> {
        self.takes = self.takes.saturating_add(1);
        let (lines, ended) = (0, false);
        Ok(Taken { lines, ended })
    }

    fn quit(self) -> Ledger {
        self
    }
}

/// Hands these bytes to a session, once more where memory was refused. Tells how it ended, what its port noted, and how many
/// polls came before the last.
fn hands(rt: &impl Abort, bench: &Bench, input: &[u8]) -> (End, Ledger, u32) {
    let port = Ledger {
        lines: 0,
        longest: 0,
        takes: 0,
    };
    for _ in 0..2 {
        let wire = Wire::new(rt, bench.alloc, input, 4_096);
        let (end, _, noted, polls) = hold(rt, bench, wire, port, Rung::Never);
        if end != End::Memory {
            return (end, noted, polls);
        }
    }
    refused_twice(rt)
}

/// Reads so many letters, with a line feed behind them or without.
fn reads(rt: &impl Abort, bench: &Bench, length: usize, is_ended: bool) -> (End, u32, usize) {
    let mut input = Vec::new(bench.alloc);
    again!(rt; input.resize(length, b'x'));
    if is_ended {
        again!(rt; input.push(b'\n'));
    }
    let (end, noted, _polls) = hands(rt, bench, &input);
    (end, noted.lines, noted.longest)
}

/// Tests that the longest line is handed over, a longer one ends the session, and a rest without a line feed is no line.
#[test]
fn lines_have_65_536_bytes_at_most(rt: HostRuntime) {
    let bench = Bench::new(&rt);
    for (length, is_ended, wanted) in [
        (65_536, true, (End::Closed, 1, 65_536)),
        (65_537, false, (End::TooLong, 0, 0)),
        (65_537, true, (End::TooLong, 0, 0)),
        (65_536, false, (End::Closed, 0, 0)),
    ] {
        let read = reads(&rt, &bench, length, is_ended);
        assert!(&rt; read == wanted, "{read:?}");
    }
}

/// Tests that each poll takes: it hands over at most 64 lines, so 1,000 lines take 16 polls or more.
#[test]
fn each_poll_takes(rt: HostRuntime) {
    let mut input = Vec::new(rt.alloc());
    for _ in 0..1_000 {
        again!(&rt; input.extend_from_slice(b"hi\n"));
    }
    let (end, Ledger { lines, takes, .. }, polls) = hands(&rt, &Bench::new(&rt), &input);
    assert!(&rt; end == End::Closed && lines == 1_000, "{end:?} {lines}");
    assert!(&rt; 15 <= polls && polls < takes, "{polls} {takes}");
}
