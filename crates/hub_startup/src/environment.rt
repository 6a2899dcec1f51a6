//! The variables of the environment.
ghost use Rattle.std.specs.Prelude.{ℕ, Result, codes};
ghost use Rattle.std.specs.declared.env.FillError.{FillError};
ghost use Rattle.hub_startup.specs.Variables.{TellsWhetherSet};

use std::env::{Env, FillError};
use system_answers::SystemAnswer;

/// What knows the variables of the environment.
pub trait Variables {
    ghost use Rattle.std.specs.Prelude.{ℕ, List, Result};
    ghost use Rattle.std.specs.declared.env.FillError.{FillError};

    /// The answers that it may give to what the variable of this name is: its length in bytes, or why it has none.
    ghost knows: { Self → List ℕ → Result ℕ FillError → Type 0 };

    /// Asks for the variable of this name.
    fn variable(&self, name: &str) -> SystemAnswer<Result<usize, FillError>>
        ensures known { knows self.now name.now result.given };
}

impl<R: Env> Variables for R {
    ghost use Rattle.std.specs.Prelude.{⊤};

    // The contract of an environment says nothing of what it holds, so any answer may be its.
    ghost knows = { λ _ _ _. ⊤ };

    fn variable(&self, name: &str) -> SystemAnswer<Result<usize, FillError>> {
        system_answers::variable(self, name)
    }
}

/// Tells whether a variable is set, by what came of reading it.
fn is_set(answer: Result<usize, FillError>) -> bool
    ensures { TellsWhetherSet answer result }
{
    match answer {
        Err(FillError::NotPresent) => false,
        Ok(_) | Err(FillError::TooLong) => true,
    }
}

/// Answers whether standard error is the journal, as systemd says by a variable of the environment.
pub fn has_journal<R: Variables>(rt: &R) -> bool
    ensures { (answer : Result ℕ FillError) × R.knows rt.now (codes "JOURNAL_STREAM") answer × TellsWhetherSet answer result }
{
    is_set(rt.variable("JOURNAL_STREAM").into_inner())
}
