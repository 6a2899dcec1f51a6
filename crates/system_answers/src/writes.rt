ghost use Rattle.std.specs.Prelude.{◌++◌, ◌∷◌, [], IfSome, OnOk};
ghost use Rattle.std.specs.Io.KnownBytes.{Appends};

use std::fmt::Display;
use std::io::Write;

/// The word that a write failed. Only the calls of this crate give it.
#[derive(Drop)]
pub struct WriteFailed(());

/// Writes all of these bytes, or says that a write failed.
pub fn write_bytes<W: Write>(writer: &mut W, bytes: &[u8]) -> Result<(), WriteFailed>
    ensures { OnOk result (Appends (W.contents writer.old) (W.contents writer.new) bytes.now) }
{
    match writer.write_all(bytes) {
        Ok(()) => Ok(()),
        Err(_) => Err(WriteFailed(())),
    }
}

/// Writes a line of this beginning and this text, or says that a write failed.
pub fn write_line<W: Write, D: Display>(
    writer: &mut W,
    start: &str,
    text: &D,
) -> Result<(), WriteFailed>
    ensures { IfSome (D.output text.now) (λ words. OnOk result (Appends (W.contents writer.old) (W.contents writer.new) (start.now ++ words ++ 10 ∷ []))) }
{
    match writeln!(writer, "{start}{text}") {
        Ok(()) => Ok(()),
        Err(_) => Err(WriteFailed(())),
    }
}
