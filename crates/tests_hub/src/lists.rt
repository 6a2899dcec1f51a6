// A list of calls on one hub: what `run_calls` answers.
use crate::hub::shared_setup;
use crate::refusal::*;
use tests_support::{Deed, Step, steps_of};

/// The calls. The first caller speaks and leaves, the second takes what it heard.
const CALLS: &str = "\
ana joins
ana says HSUP ADBASE ADTIGR | BINF AAAB ID<P0> PD<P0> NIana
bob joins
bob says HSUP ADBASE ADTIGR | BINF AAAC ID<P1> PD<P1> NIbob
ana says BMSG AAAB hello
ana quits
ana says BMSG AAAB hello
bob takes 0 | 1 | 256
";

/// What is answered: for each call a word, and behind `took` how many lines it were, and these.
const ANSWERS: &str = r"joined kept kept joined kept kept kept left skipped skipped took 1
ISUP ADBASE ADTIGR ADPING ADUCMD
took 6
ISID AAAC
IINF CT32 NIHub VEadc-hub\s1.0
BINF AAAB ID<P0> NIana
BINF AAAC ID<P1> NIbob
BMSG AAAB hello
IQUI AAAB
";

#[test]
fn a_list_of_calls_is_answered_in_turn(rt: HostRuntime) {
    let setup = shared_setup(&rt, rt.alloc(), &Options::named("Hub"));
    let steps = steps_of(rt.alloc(), CALLS).expect(&rt, CALLS);
    let lines = lines_of(&rt, &setup, &steps);
    let is_answered = answers(&rt, &setup, &steps, &lines) || answers(&rt, &setup, &steps, &lines);
    holds(&rt, is_answered, "refused twice");
}

/// Makes the line of each step ready.
fn lines_of(rt: &impl Machine, setup: &Setup, steps: &[Step<'_>]) -> Vec<Prepared> {
    let mut lines = Vec::new(rt.alloc());
    for step in steps {
        let bytes = spell(rt, rt.alloc(), step.line, 0);
        let line = again!(rt; prepare(rt.alloc(), setup, &First24, [0; 24], &bytes));
        keep(rt, &mut lines, line);
    }
    lines
}

fn asks<'a>(rt: &impl Machine, steps: &[Step<'_>], lines: &'a [Prepared]) -> Vec<Asked<'a>> {
    let mut asks = again!(rt; Vec::with_capacity(rt.alloc(), steps.len()));
    for (step, line) in steps.iter().zip(lines) {
        let caller = if step.who == "ana" { 1 } else { 2 };
        let ask = match step.deed {
            Deed::Joins => Ask::Join([127, 0, 0, 1], [0; 24], 0),
            Deed::Takes => Ask::Take(caller, step.line.parse().unwrap_or(0)),
            Deed::Quits => Ask::Quit(caller),
            _ => Ask::Line(caller, line, 0),
        };
        keep(rt, &mut asks, Asked { caller, ask });
    }
    asks
}

/// Makes the calls, and stops the test unless they are answered as they should be. Tells whether they were: not where memory was
/// refused to one of them.
fn answers(rt: &impl Machine, setup: &Arc<Setup>, steps: &[Step<'_>], lines: &[Prepared]) -> bool {
    let asks = asks(rt, steps, lines);
    let Ok((core, answers)) = run_calls(rt.alloc(), again!(rt; setup.clone()), asks) else {
        return false;
    };
    let mut told = Vec::new(rt.alloc());
    let is_plain = tell_all(rt, &mut told, &answers);
    if is_plain {
        let wanted = spell(rt, rt.alloc(), ANSWERS, 0);
        holds(rt, told == wanted, "other answers");
        holds(rt, core.joins() == 2, "other joins");
        holds(rt, core.totals().users == 1, "other users");
    }
    is_plain
}

/// Tells the answers. Gives whether memory was refused to none of the calls.
fn tell_all(rt: &impl Abort, told: &mut Vec<u8>, answers: &[Answer]) -> bool {
    for answer in answers {
        if matches!(answer, Answer::Memory) {
            return false;
        }
        tell(rt, told, answer);
    }
    true
}

fn tell(rt: &impl Abort, told: &mut Vec<u8>, answer: &Answer) {
    match answer {
        Answer::Joined(_) => append(rt, told, b"joined "),
        Answer::Said(Verdict::Kept) => append(rt, told, b"kept "),
        Answer::Left => append(rt, told, b"left "),
        Answer::Skipped => append(rt, told, b"skipped "),
        Answer::Took(bytes, taken) => tell_taken(rt, told, bytes, taken.lines),
        _ => append(rt, told, b"another "),
    }
}

fn tell_taken(rt: &impl Abort, told: &mut Vec<u8>, bytes: &[u8], lines: u64) {
    append(rt, told, b"took ");
    let digit = u8::try_from(lines).unwrap_or(u8::MAX);
    keep(rt, told, b'0'.wrapping_add(digit));
    append(rt, told, b"\n");
    append(rt, told, bytes);
}
