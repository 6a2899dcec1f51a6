ghost use Rattle.std.specs.Prelude.{⊤};

use super::*;
use futures::task::{Source, Waker};

/// A bell that is always rung, or that never is.
#[derive(Clone, Copy)]
pub(crate) enum Rung {
    Always,
    Never,
}

impl Bell for Rung {
    ghost hears = { λ _ _ _. ⊤ };

    fn ring(&self) {}

    fn wait(&mut self, cx: &mut Context<'_>) -> bool {
        match self {
            Rung::Always => true,
            Rung::Never => {
                let _: Poll<()> = cx.yield_now();
                false
            }
        }
    }

    fn may_hand(&mut self, _bytes: usize) -> bool {
        true
    }

    fn wrote(&mut self, _bytes: usize, _was_full: bool) {}
}

/// A bell that never is, and that wakes nobody.
#[derive(Drop)]
pub(crate) struct Silent {
    source: Source,
    waker: Option<Waker>,
}

impl Silent {
    pub(crate) fn new() -> Silent {
        Silent {
            source: Source::new(),
            waker: None,
        }
    }
}

impl Bell for Silent {
    ghost hears = { λ _ _ _. ⊤ };

    fn ring(&self) {}

    fn wait(&mut self, cx: &mut Context<'_>) -> bool {
        let _: Poll<()> = cx.register(&self.source, &mut self.waker);
        false
    }

    fn may_hand(&mut self, _bytes: usize) -> bool {
        true
    }

    fn wrote(&mut self, _bytes: usize, _was_full: bool) {}
}
