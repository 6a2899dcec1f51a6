//! The files that a program opens by their paths.
use std::fs::Files;
use std::io::{self, Read};
use system_answers::{SystemAnswer, opened};

/// What opens files, to be read.
pub trait Opens {
    ghost use Rattle.std.specs.Prelude.{ℕ, List, IfOk};

    /// The files.
    type Opened: Read + Drop;

    /// The files that it may open at a path.
    ghost opens: { Self → List ℕ → Self.Opened → Type 0 };

    /// Opens the file at this path. It fails where the system does not open it.
    fn open_at(&self, path: &str) -> SystemAnswer<io::Result<Self::Opened>>
        ensures opened { IfOk result.given (opens self.now path.now) };
}

impl<R: Files> Opens for R {
    ghost use Rattle.std.specs.Prelude.{⊤};

    type Opened = R::File;

    // The contract of files says nothing of what stands at a path, so any file may.
    ghost opens = { λ _ _ _. ⊤ };

    fn open_at(&self, path: &str) -> SystemAnswer<io::Result<R::File>> {
        opened(self, path)
    }
}
