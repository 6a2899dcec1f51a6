ghost use Rattle.std.specs.Prelude.{◌≡◌};
ghost use Rattle.server_tasks.specs.Amounts.{one_line, both, without, larger, is_beyond};

/// A number of lines, and the number of their bytes with the line feeds.
#[derive(Clone, Copy, Debug, PartialEq, Eq)]
pub struct Amount {
    /// The number of lines.
    pub lines: u64,
    /// The number of their bytes.
    pub bytes: u64,
}

impl Amount {
    /// No line.
    pub const NONE: Amount = Amount { lines: 0, bytes: 0 };

    /// Gives that of one line of so many bytes.
    pub fn of_line(bytes: u64) -> Amount
        ensures { result ≡ one_line bytes }
    {
        Amount { lines: 1, bytes }
    }

    /// Gives both together.
    pub fn plus(self, more: Amount) -> Amount
        ensures { result ≡ both self more }
    {
        Amount {
            lines: self.lines.saturating_add(more.lines),
            bytes: self.bytes.saturating_add(more.bytes),
        }
    }

    /// Gives what is left without the other, and none where that is more.
    pub fn minus(self, less: Amount) -> Amount
        ensures { result ≡ without self less }
    {
        Amount {
            lines: self.lines.saturating_sub(less.lines),
            bytes: self.bytes.saturating_sub(less.bytes),
        }
    }

    /// Gives the larger number of each.
    pub fn or_more(self, other: Amount) -> Amount
        ensures { result ≡ larger self other }
    {
        Amount {
            lines: self.lines.max(other.lines),
            bytes: self.bytes.max(other.bytes),
        }
    }

    /// Answers whether either number is larger than that of the bound.
    pub fn is_beyond(self, bound: Amount) -> bool
        ensures { result ≡ is_beyond self bound }
    {
        self.lines > bound.lines || self.bytes > bound.bytes
    }
}
