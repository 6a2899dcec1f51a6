//! What all test crates share: the grammar of conversations with its cast, and the second try of a call that may be refused memory, by which
//! tests make the call once more, and see that it changed nothing.
#![tactic(auto)]

mod cast;
mod fakes;
mod growth;
mod spelling;
mod steps;
mod transcript;

pub use cast::{GREETED, GREETS, Machine, login_of};
pub use fakes::{Input, Output};
pub use growth::{append, copy, push, tell};
pub use spelling::spell;
pub use steps::{Deed, Step, steps_of};
pub use transcript::{Transcript, transcript_of};

/// Makes a call that a test needs beside those that it is about, once more where memory was refused.
#[macro_export]
macro_rules! again {
    ($rt:expr; $call:expr) => {
        match $call {
            Ok(value) => value,
            Err(_) => match $call {
                Ok(value) => value,
                Err(_) => std::process::Abort::panic(&$rt, "refused twice"),
            },
        }
    };
}

/// Makes a call that may be refused memory. Where it is, what can be seen of the values that it may change is as before, and the same
/// call made again is not refused. That it was is told by a line, which a run whose memory suffices must not write.
#[macro_export]
macro_rules! once {
    ($rt:expr; $name:expr, $memory:pat, $call:expr) => {
        tests_support::once!($rt; $name, $memory, true, $call)
    };
    ($rt:expr; $name:expr, $memory:pat, $seen:expr, $call:expr) => {{
        let before = $seen;
        match $call {
            Ok(value) => value,
            Err(refused) => {
                assert!($rt; tests_support::tell($rt, $name), "not written");
                assert!($rt; matches!(refused, $memory), "{}: not for memory", $name);
                assert!($rt; $seen == before, "{}: a refusal changed something", $name);
                match $call {
                    Ok(value) => value,
                    Err(_) => std::process::Abort::panic(&$rt, "refused twice"),
                }
            }
        }
    }};
}
