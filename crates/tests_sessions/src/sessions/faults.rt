use super::*;
use tests_support::Machine;

/// Bob is there; ana enters and says hi, and leaves.
const VISIT: &str = r"
ana is greeted AAAC
ana says BINF AAAC ID<P0> PD<P0> NIana SS10 SF2 I40.0.0.0 SUTCP4,SEGA -> BINF AAAB ID<P1> NIbob SS5 SF1 SUTCP4
ana and bob hear BINF AAAC ID<P0> NIana SS10 SF2 I4127.0.0.1 SUTCP4,SEGA
ana says BMSG AAAC hi
ana and bob hear BMSG AAAC hi
bob hears IQUI AAAC
";

/// Ana does not say anything, as far as bob is told.
const LOGIN_ALONE: &str = r"
bob hears BINF AAAC ID<P0> NIana SS10 SF2 I4127.0.0.1 SUTCP4,SEGA | IQUI AAAC
";

const BOBS_LOGIN: &str = "bob says BINF AAAB ID<P1> PD<P1> NIbob SS5 SF1 SUTCP4";

/// What is said and heard of a visit where nothing goes wrong, and what bob hears where ana does not get to say anything.
#[derive(Drop)]
struct Visit {
    ana: Transcript,
    bob: Transcript,
    bobs_login: Transcript,
    login_alone: Transcript,
}

impl Visit {
    fn new(rt: &impl Abort, alloc: Global) -> Visit {
        Visit {
            ana: told(rt, alloc, VISIT, "ana"),
            bob: told(rt, alloc, VISIT, "bob"),
            bobs_login: told(rt, alloc, BOBS_LOGIN, "bob"),
            login_alone: told(rt, alloc, LOGIN_ALONE, "bob"),
        }
    }

    /// Answers whether bob was told of ana as one of three visits tells: to the end, to the login, to neither.
    fn is_told(&self, bob: &[u8]) -> bool {
        bob.is_empty()
            || bob == self.login_alone.heard.as_slice()
            || bob == self.bob.heard.as_slice()
    }

    /// Plays a visit: bob is there; ana enters and says hi, byte by byte, and something goes wrong. Compares what both got, and tells how it ended.
    fn play(&self, rt: &impl Abort, bench: &Bench, trouble: Trouble, call: u32) -> End {
        let wire = Wire::new(rt, bench.alloc, &self.ana.said, 1).with_trouble(trouble, call);
        let login = self.bobs_login.said.strip_suffix(b"\n".as_slice());
        let (end, ana, mut left) = meet(rt, bench, login, wire, Rung::Never);
        let bob = left.heard(rt, bench.alloc);
        begins(rt, &ana.written, &self.ana.heard);
        assert!(rt; self.is_told(&bob), "{bob:?}");
        if end == End::Closed {
            are_same(rt, &ana.written, &self.ana.heard);
            are_same(rt, &bob, &self.bob.heard);
        }
        end
    }

    /// Plays a visit, once more where memory was refused, and tells how it ended.
    fn ends(&self, rt: &impl Abort, bench: &Bench, trouble: Trouble, call: u32) -> End {
        for _ in 0..2 {
            let end = self.play(rt, bench, trouble, call);
            if end != End::Memory {
                return end;
            }
        }
        refused_twice(rt)
    }
}

/// Makes the first call go wrong, then the second, and so on, up to a visit in which nothing does. It has to be as far behind all that ana
/// says, or hears, as this.
fn visits<R: Machine + RandomSource>(rt: &R, trouble: Trouble, end: End, behind: usize) {
    let visit = Visit::new(rt, rt.alloc());
    let bytes = match trouble {
        Trouble::Read => visit.ana.said.len(),
        _ => visit.ana.heard.len(),
    };
    let calls = calls_of(rt, &Bench::new(rt), &visit, trouble, end);
    are_so_many(rt, 0, calls as usize, bytes.saturating_add(behind));
}

fn calls_of(rt: &impl Abort, bench: &Bench, visit: &Visit, trouble: Trouble, end: End) -> u32 {
    for call in 1..1_000u32 {
        let ended = visit.ends(rt, bench, trouble, call);
        if ended == End::Closed {
            return call;
        }
        is_end_of(rt, call, ended, end);
    }
    panic!(rt; "no visit went well")
}

fn is_end_of(rt: &impl Abort, call: u32, end: End, wanted: End) {
    assert!(rt; end == wanted, "call {call}: {end:?}");
}

#[test]
fn any_read_may_fail(rt: HostRuntime) {
    visits(&rt, Trouble::Read, End::ReadFailed, 2);
}

#[test]
fn any_write_may_fail(rt: HostRuntime) {
    visits(&rt, Trouble::Write, End::WriteFailed, 1);
}

#[test]
fn any_write_may_take_nothing(rt: HostRuntime) {
    visits(&rt, Trouble::Full, End::WriteFailed, 1);
}
