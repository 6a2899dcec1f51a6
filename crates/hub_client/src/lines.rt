ghost use Rattle.std.specs.Prelude.{◌≡◌, ◌⊎◌, ◌++◌, ◌∷◌, [], false, IfErr, IfOk, OnOk};
ghost use Rattle.std.specs.Io.KnownBytes.{Appends};
ghost use Rattle.std.specs.Result.{is_ok};
ghost use Rattle.adc_line.specs.Frames.{lf};
ghost use Rattle.adc_line.specs.Lines.{reading};
ghost use Rattle.hub_client.specs.Broken.{IsCut};

use crate::fault::{ClientFault, not_adc};
use adc_line::Line;
use counted_io::{CountedWrite, write_and_flush_counted};
use std::alloc::Global;

/// Returns the message that a line is. Refused: `NotAdc` if it is none; `Memory`.
pub(crate) fn message_in(alloc: Global, bytes: &[u8]) -> Result<Line, ClientFault>
    ensures message { IfOk result (λ line. reading bytes.now ≡ Ok line) }
    ensures none { IfErr result (λ fault. (fault ≡ ClientFault.Memory) ⊎ ((fault ≡ ClientFault.NotAdc) × (is_ok (reading bytes.now) ≡ false))) }
{
    match Line::parse(alloc, bytes) {
        Ok(line) => Ok(line),
        Err(fault) => Err(not_adc(fault)),
    }
}

/// Writes a message and its line feed, whole, or fails.
pub(crate) fn say<W: CountedWrite>(
    alloc: Global,
    stream: &mut W,
    line: &Line,
) -> Result<(), ClientFault>
    ensures whole { OnOk result (Appends (W.contents stream.old) (W.contents stream.new) (line.now.text ++ lf ∷ [])) }
    ensures cut { IfErr result (IsCut (W.failures stream.new)) }
{
    let mut bytes = Vec::new(alloc);
    bytes.extend_from_slice(line.text().as_bytes())?;
    bytes.push(b'\n')?;
    write_and_flush_counted(stream, &bytes)?;
    Ok(())
}
