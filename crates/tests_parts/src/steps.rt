// The steps of conversations, as a line of text is short for them.
use std::alloc::Global;
use tests_support::{Machine, Step, append, steps_of};

const SAID_TWICE: &str = "0 a Says:A;0 a Hears:B;0 a Says:C;0 a HearsLast:D;";

/// Each kind of line, and the steps that it is short for.
const LINES: [(&str, &str); 9] = [
    ("ana enters", "0 ana Enters:;"),
    ("at 9 bob says BMSG AAAC hi", "9 bob Says:BMSG AAAC hi;"),
    ("a and b hear only X", "0 a HearsOnly:X;0 b HearsOnly:X;"),
    ("ana takes last 3\n", "0 ana TakesLast:3;"),
    ("\n  a digest begins", "0 a DigestBegins:;"),
    ("a says A | B -> C", "0 a Says:A;0 a Says:B;0 a Hears:C;"),
    ("a says A -> B | C", "0 a Says:A;0 a Hears:B;0 a Hears:C;"),
    ("a says A -> B | C -> last D", SAID_TWICE),
    ("bob and ana are concerned", "0 bob and ana IsConcerned:;"),
];

fn told(alloc: Global, steps: &[Step<'_>]) -> Option<Vec<u8>> {
    let mut told = Vec::new(alloc);
    for step in steps {
        let (moment, who) = (step.moment, step.who);
        let (deed, line) = (step.deed, step.line);
        let step = format!(in alloc; "{moment} {who} {deed:?}:{line};").ok()?;
        append(&mut told, step.as_bytes()).ok()?;
    }
    Some(told)
}

fn is_short_for(rt: &impl Machine, text: &str, wanted: &str) {
    for _ in 0..2 {
        if let Some(steps) = steps_of(rt.alloc(), text)
            && let Some(told) = told(rt.alloc(), &steps)
        {
            assert!(rt; told.as_slice() == wanted.as_bytes(), "{text}");
            return;
        }
    }
    panic!(rt; "{text}: no steps")
}

#[test]
fn steps_are_read(rt: HostRuntime) {
    for (text, wanted) in LINES {
        is_short_for(&rt, text, wanted);
    }
    for text in ["ana", "ana dances", "at x ana enters", "ana and bob"] {
        assert!(&rt; Step::read(text).is_none(), "{text}");
    }
}
