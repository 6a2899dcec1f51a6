use crate::answer::SystemAnswer;
use std::env::{Env, FillError};

/// Asks for a variable of the environment: its length in bytes, or why it has none of at most 64.
pub fn variable<R: Env>(rt: &R, name: &str) -> SystemAnswer<Result<usize, FillError>> {
    let mut value = [0; 64];
    SystemAnswer {
        given: rt.var(name, &mut value),
    }
}
