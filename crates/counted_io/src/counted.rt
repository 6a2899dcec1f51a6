ghost use Rattle.std.specs.Prelude.{◌≡◌, ◌<◌, length, false, IfOk, OnOk};
ghost use Rattle.std.specs.Io.{ReadsAtMost, WritesAtMost};
ghost use Rattle.std.specs.Io.KnownBytes.{Keeps, ReadConsumes, WriteAppends};
ghost use Rattle.counted_io.specs.Calls.{CountsFailures};
ghost use Rattle.counted_io.specs.declared.failures.Failures.{Failures};

use std::io::{self, Read, Write};

/// A reader that tells how many of its calls failed.
pub trait CountedRead: Read {
    ghost failures: { Self → Failures };

    /// Reads as [`Read::read`] does. A call that fails is counted.
    fn read_counted(&mut self, buf: &mut [u8]) -> io::Result<usize>
        ensures bound { ReadsAtMost result buf.new }
        ensures bytes { ReadConsumes (Self.remaining self.old) (Self.remaining self.new) result buf.new }
        ensures counts { CountsFailures result (failures self.old) (failures self.new) }
        ensures well { OnOk result ((failures self.new).is_last ≡ false) };
}

/// A writer that tells how many of its calls failed.
pub trait CountedWrite: Write {
    ghost failures: { Self → Failures };

    /// Writes some of the bytes, one at least, and gives how many. A call that fails is counted.
    ///
    /// It fails as [`Write::write`] does, and with `WriteZero` where no byte of some is taken.
    fn write_counted(&mut self, buf: &[u8]) -> io::Result<usize>
        ensures bound { WritesAtMost result buf.now }
        ensures bytes { WriteAppends (Self.contents self.old) (Self.contents self.new) result buf.now }
        ensures some { IfOk result (λ count. 0 < length buf.now → 0 < count) }
        ensures counts { CountsFailures result (failures self.old) (failures self.new) }
        ensures well { OnOk result ((failures self.new).is_last ≡ false) };

    /// Flushes as [`Write::flush`] does. A call that fails is counted.
    fn flush_counted(&mut self) -> io::Result<()>
        ensures bytes { Keeps (Self.contents self.old) (Self.contents self.new) }
        ensures counts { CountsFailures result (failures self.old) (failures self.new) }
        ensures well { OnOk result ((failures self.new).is_last ≡ false) };
}
