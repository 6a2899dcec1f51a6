ghost use Rattle.std.specs.Prelude.{◌≡◌, [], IfErr, OnOk};
ghost use Rattle.std.specs.Arc.{arc_value};
ghost use Rattle.counted_io.specs.Calls.{NoneFailed};
ghost use Rattle.hub_stdio.specs.Serving.{Starts};
ghost use Rattle.hub_stdio.specs.Streams.{RunServes, RunStops};

use crate::fault::RunFault;
use crate::session::StreamSession;
use counted_io::{CountedRead, CountedWrite};
use hub_core::Setup;
use session_hash::SessionHash;
use std::alloc::Global;
use std::sync::Arc;

/// The number of bytes that are read at once.
const READ_LENGTH: usize = 4096;

/// The number of times that the input is read at most.
const MOST_READS: u32 = 1_048_576;

/// Runs a hub for one connection, which sends what the reader gives and gets what the writer takes: from 127.0.0.1, with a
/// challenge of 24 zero bytes, each call at moment 0.
///
/// The answer to a line is written and flushed before the next line is handled. The run ends well at the end of the input,
/// or once nothing more will come from the hub, as the connection was shut out or was owed more at once than may wait. All
/// that it is owed is written then, and what the reader has left is not read.
///
/// Refused: `Memory`; `Read` where a read failed; `Write` where a write or a flush failed, or a write took no byte of some;
/// `TooLong` where a line has over 65,536 bytes, once those before it were answered (ADC 1.0, "Message syntax"); `Turns`
/// after 1,048,576 reads.
pub fn run_one<H: SessionHash, R: CountedRead, W: CountedWrite>(
    alloc: Global,
    setup: Arc<Setup>,
    hash: &H,
    reader: &mut R,
    writer: &mut W,
) -> Result<(), RunFault>
    ensures ok { OnOk result (RunServes (arc_value setup) (H.digest_of hash.now) R.remaining reader.old reader.new W.contents writer.old writer.new) }
    ensures reads { OnOk result (NoneFailed (R.failures reader.old) (R.failures reader.new)) }
    ensures writes { OnOk result (NoneFailed (W.failures writer.old) (W.failures writer.new)) }
    ensures fault { IfErr result (λ fault.
        RunStops fault (arc_value setup) (H.digest_of hash.now) R.remaining R.failures reader.old reader.new W.contents W.failures writer.old writer.new) }
{
    let mut session = StreamSession::open(alloc, &setup)?;
    let ended = run_session(alloc, &mut session, &setup, hash, reader, writer);
    drop(session);
    ended
}

/// Runs a session that has just begun, which is owned elsewhere: it is dear to prove that it is let go at each end.
fn run_session<H: SessionHash, R: CountedRead, W: CountedWrite>(
    alloc: Global,
    session: &mut StreamSession,
    setup: &Arc<Setup>,
    hash: &H,
    reader: &mut R,
    writer: &mut W,
) -> Result<(), RunFault>
    requires starts { Starts (arc_value setup.now) (H.digest_of hash.now) session.old.core }
    requires unread { session.old.framer ≡ [] }
    ensures ok { OnOk result (RunServes (arc_value setup.now) (H.digest_of hash.now) R.remaining reader.old reader.new W.contents writer.old writer.new) }
    ensures reads { OnOk result (NoneFailed (R.failures reader.old) (R.failures reader.new)) }
    ensures writes { OnOk result (NoneFailed (W.failures writer.old) (W.failures writer.new)) }
    ensures fault { IfErr result (λ fault.
        RunStops fault (arc_value setup.now) (H.digest_of hash.now) R.remaining R.failures reader.old reader.new W.contents W.failures writer.old writer.new) }
{
    let mut buffer = [0; READ_LENGTH];
    for _turn in 0..MOST_READS {
        match reader.read_counted(&mut buffer) {
            Ok(0) => return Ok(()),
            Ok(count) => {
                if session.hear(alloc, setup, hash, &buffer[..count], writer)? {
                    return Ok(());
                }
            }
            Err(_) => return Err(RunFault::Read),
        }
    }
    Err(RunFault::Turns)
}
