ghost use Rattle.std.specs.Prelude.{◌≡◌, ◌+◌, ◌<◌, IsFalse, IsTrue};

/// The number of times that a client may still read on or take a line out. It goes down one by one.
#[derive(Drop)]
pub(crate) struct Turns {
    left: u64,
}

impl Turns {
    /// As many as 64 bits count.
    pub(crate) fn all() -> Turns
        ensures { result.left ≡ 18_446_744_073_709_551_615 }
    {
        Turns { left: u64::MAX }
    }

    /// Tests whether some are left.
    pub(crate) fn are_left(&self) -> bool
        ensures some { IsTrue result → 0 < self.now.left }
        ensures none { IsFalse result → self.now.left ≡ 0 }
    {
        self.left > 0
    }

    /// Takes one, where some are left.
    pub(crate) fn take(&mut self)
        requires some { 0 < self.old.left }
        ensures { self.new.left + 1 ≡ self.old.left }
    {
        self.left -= 1;
    }
}
