ghost use Rattle.std.specs.Prelude.{◌≡◌, [], IsOk, OnOk, OnErr};
ghost use Rattle.std.specs.Io.KnownBytes.{Appends};
ghost use Rattle.counted_io.specs.Calls.{CountsFailures};
ghost use Rattle.counted_io.specs.Parts.{AppendsFront};

use crate::counted::CountedWrite;
use std::io::{self, Write};

/// Writes all bytes and flushes; nothing is done where there are none.
///
/// It fails where a write or the flush fails, with that error, and with `WriteZero` where a write takes no byte.
/// Then the front of the bytes was written.
pub fn write_and_flush<W: Write>(writer: &mut W, bytes: &[u8]) -> io::Result<()>
    ensures ok { OnOk result (Appends (W.contents writer.old) (W.contents writer.new) bytes.now) }
    ensures err { OnErr result (AppendsFront (W.contents writer.old) (W.contents writer.new) bytes.now) }
    ensures nothing { bytes.now ≡ [] → IsOk result }
{
    if bytes.is_empty() {
        return Ok(());
    }
    let mut written = 0;
    while written < bytes.len() {
        match writer.write(&bytes[written..]) {
            Ok(0) => return Err(io::ErrorKind::WriteZero.into()),
            Ok(count) => written += count,
            Err(error) => return Err(error),
        }
    }
    writer.flush()
}

/// Writes and flushes as [`write_and_flush`] does. It makes no further call once one has failed.
pub fn write_and_flush_counted<W: CountedWrite>(writer: &mut W, bytes: &[u8]) -> io::Result<()>
    ensures ok { OnOk result (Appends (W.contents writer.old) (W.contents writer.new) bytes.now) }
    ensures err { OnErr result (AppendsFront (W.contents writer.old) (W.contents writer.new) bytes.now) }
    ensures nothing { bytes.now ≡ [] → IsOk result }
    ensures counts { CountsFailures result (W.failures writer.old) (W.failures writer.new) }
{
    if bytes.is_empty() {
        return Ok(());
    }
    let mut taken = 0;
    while taken < bytes.len() {
        match writer.write_counted(&bytes[taken..]) {
            Ok(count) => taken += count,
            Err(error) => return Err(error),
        }
    }
    writer.flush_counted()
}
