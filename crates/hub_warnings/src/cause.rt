ghost use Rattle.std.specs.Prelude.{◌≡◌, Some};
ghost use Rattle.hub_warnings.specs.Texts.{cause_text};

use std::fmt;
use std::fmt::{Display, Formatter};

/// The causes of which a server warns. Each is shown with its name.
#[derive(Clone, Copy, Debug, Default, PartialEq, Eq)]
pub enum Cause {
    /// A session's socket could not be read.
    #[default]
    ReadFailed,
    /// A session's socket could not be written.
    WriteFailed,
    /// A client sent a line of too many bytes.
    TooLong,
    /// A session had no memory.
    OutOfMemory,
    /// A connection could not join for want of memory.
    Refused,
    /// A connection could not be accepted for want of memory.
    Lost,
}

impl Cause {
    /// Gives what is said of it.
    #[tactic(auto, unfolding(crate::specs::Texts::cause_text))]
    fn text(self) -> &'static str
        ensures { result.now ≡ cause_text self }
    {
        match self {
            Cause::ReadFailed => "a session ended by ReadFailed",
            Cause::WriteFailed => "a session ended by WriteFailed",
            Cause::TooLong => "a session ended by TooLong",
            Cause::OutOfMemory => "a session ended by Memory",
            Cause::Refused => "a connection was refused by Memory",
            Cause::Lost => "a connection was lost by Memory",
        }
    }
}

impl Display for Cause {
    ghost output = { λ cause. Some (cause_text cause) };

    fn fmt<W: fmt::Write>(&self, f: &mut Formatter<W>) -> fmt::Result {
        f.write_str(self.text())
    }
}
