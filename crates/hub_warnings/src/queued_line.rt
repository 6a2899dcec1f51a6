//! The lines of a queue, each whole, and the one that is being put together.
ghost use Rattle.std.specs.Prelude.{◌≡◌, ◌≢◌, ◌++◌, ◌∷◌, [], Some, None, true, false, IfSome, OnOk, IsNone, IsSome, IsTrue};
ghost use Rattle.std.specs.Io.KnownBytes.{Appends};
ghost use Rattle.hub_warnings.specs.Queued.{is_line, IsOpen, open_after};

use std::alloc::Global;
use std::io::Write;
use system_answers::{WriteFailed, write_bytes};

/// A line with its line feed.
#[derive(Drop)]
pub(crate) struct QueuedLine {
    bytes: Vec<u8>,
    pub(crate) ghost whole: { IsTrue (is_line bytes.items) },
}

impl QueuedLine {
    /// Writes it. It fails where a write does.
    pub(crate) fn write<W: Write>(&self, writer: &mut W) -> Result<(), WriteFailed>
        ensures bytes { OnOk result (Appends (W.contents writer.old) (W.contents writer.new) self.now.bytes.items) }
        ensures whole { IsTrue (is_line self.now.bytes.items) }
    {
        write_bytes(writer, &self.bytes)
    }
}

/// A line whose line feed did not come yet.
#[derive(Drop)]
pub(crate) struct OpenLine {
    bytes: Vec<u8>,
    // Memory was wanting for a part of it.
    is_lost: bool,
    pub(crate) ghost open: { IsOpen bytes.items },
}

/// A line whose line feed came: the line, unless memory was wanting for a part of it.
#[derive(Drop)]
pub(crate) enum Ended {
    Whole(QueuedLine),
    Lost,
}

impl OpenLine {
    /// Makes an open line of no bytes.
    pub(crate) fn new(alloc: Global) -> OpenLine
        ensures bytes { result.bytes.items ≡ [] }
        ensures lost { result.is_lost ≡ false }
    {
        OpenLine {
            bytes: Vec::new(alloc),
            is_lost: false,
        }
    }

    /// Takes the next byte, and gives the line if this byte ends it. The next begins then.
    pub(crate) fn take(&mut self, alloc: Global, byte: u8) -> Option<Ended>
        ensures goes_on { byte ≢ 10 → IsNone result }
        ensures ends { byte ≡ 10 → IsSome result }
        ensures line { (line : _) → result ≡ Some (Ended.Whole line) → line.bytes.items ≡ self.old.bytes.items ++ 10 ∷ [] }
        ensures lost { self.old.is_lost ≡ true → byte ≡ 10 → result ≡ Some Ended.Lost }
        ensures stays_lost { self.old.is_lost ≡ true → byte ≢ 10 → self.new.is_lost ≡ true }
        ensures bytes { self.new.is_lost ≡ false → self.new.bytes.items ≡ open_after self.old.bytes.items (byte ∷ []) }
    {
        if byte != b'\n' {
            if self.bytes.push(byte).is_err() {
                self.is_lost = true;
            }
            return None;
        }
        let line = std::mem::replace(self, OpenLine::new(alloc));
        Some(line.end())
    }

    /// Ends it.
    fn end(self) -> Ended
        ensures line { (line : _) → result ≡ Ended.Whole line → line.bytes.items ≡ self.bytes.items ++ 10 ∷ [] }
        ensures lost { self.is_lost ≡ true → result ≡ Ended.Lost }
    {
        let OpenLine { bytes, is_lost } = self;
        let mut bytes = bytes;
        if is_lost || bytes.push(b'\n').is_err() {
            return Ended::Lost;
        }
        Ended::Whole(QueuedLine { bytes })
    }
}
