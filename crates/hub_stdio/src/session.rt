ghost use Rattle.std.specs.Prelude.{◌≡◌, ℕ, List, [], ◌∷◌, ◌++◌, OnOk, IfOk, IfErr, OnErr};
ghost use Rattle.std.specs.Arc.{arc_value};
ghost use Rattle.hub_core.specs.Moves.{StandsAt};
ghost use Rattle.hub_rules.specs.Configured.{Configured};
ghost use Rattle.hub_stdio.specs.Runs.{first};
ghost use Rattle.hub_stdio.specs.Serving.{IsIdle, IsRunning, Starts, FallsShort, IsInAnswering, WritesEnd};

use crate::fault::RunFault;
use adc_line::{Framer, Next};
use counted_io::{CountedWrite, write_and_flush_counted};
use hub_core::{Conn, Core, JoinRefused, Setup, prepare};
use session_hash::SessionHash;
use std::alloc::Global;
use std::sync::Arc;

/// The address from which the connection comes.
const PEER: [u8; 4] = [127, 0, 0, 1];

/// The challenge of the connection.
const CHALLENGE: [u8; 24] = [0; 24];

/// The moment of all calls, in seconds.
const NOW: u64 = 0;

/// The number of lines that are taken at once.
const MOST_TAKEN: usize = 256;

/// A hub and its only connection, whose lines come from a stream.
#[derive(Drop)]
pub(crate) struct StreamSession {
    pub(crate) core: Core,
    connection: Conn,
    pub(crate) framer: Framer,
    line: Vec<u8>,
    output: Vec<u8>,
    ghost is_first: { connection ≡ first },
}

impl StreamSession {
    ghost use Rattle.hub_stdio.specs.Streams.{AnswersLine, BreaksInLine, HearsPiece, StopsInPiece, WritesAll};

    /// Opens a hub, which the connection joins.
    ///
    /// Refused: `Memory`.
    pub(crate) fn open(alloc: Global, setup: &Arc<Setup>) -> Result<StreamSession, RunFault>
        ensures starts { IfOk result (λ session. (hash : List ℕ → List ℕ) → Starts (arc_value setup.now) hash session.core) }
        ensures unread { IfOk result (λ session. session.framer ≡ []) }
        ensures fault { IfErr result (λ fault. fault ≡ RunFault.Memory) }
    {
        let mut core = Core::open(alloc, setup.clone()?)?;
        let connection = join(alloc, setup, &mut core)?;
        Ok(StreamSession {
            core,
            connection,
            framer: Framer::new(alloc),
            line: Vec::new(alloc),
            output: Vec::new(alloc),
        })
    }

    /// Handles the lines that the piece ends, each answered in full before the next is handled. It tells whether
    /// nothing more will come from the hub. The hub was opened with this setup.
    ///
    /// Refused: `Memory`, `Write`; `TooLong` once all lines before the one that is too long were
    /// handled, unless nothing more will come from the hub.
    pub(crate) fn hear<H: SessionHash, W: CountedWrite>(
        &mut self,
        alloc: Global,
        setup: &Arc<Setup>,
        hash: &H,
        piece: &[u8],
        writer: &mut W,
    ) -> Result<bool, RunFault>
        requires ready { IsIdle (arc_value setup.now) (H.digest_of hash.now) self.old.core (W.contents writer.old) }
        ensures ok { IfOk result (λ ended. HearsPiece (arc_value setup.now) (H.digest_of hash.now) self.old piece.now ended self.new W.contents writer.old writer.new) }
        ensures fault { IfErr result (λ fault. StopsInPiece fault (arc_value setup.now) (H.digest_of hash.now) self.old piece.now self.new W.contents writer.old writer.new) }
        ensures writes { WritesEnd result (W.failures writer.old) (W.failures writer.new) }
    {
        self.framer.feed(piece)?;
        let mut ended = false;
        loop {
            match self.framer.next(&mut self.line)? {
                Next::Line => ended = self.answer(alloc, setup, hash, writer)?,
                Next::More => return Ok(ended),
                Next::TooLong if ended => return Ok(ended),
                Next::TooLong => return Err(RunFault::TooLong),
            }
        }
    }

    /// Handles the line that was framed last, and writes all that the connection is owed. It tells whether
    /// nothing more will come from the hub.
    fn answer<H: SessionHash, W: CountedWrite>(
        &mut self,
        alloc: Global,
        setup: &Arc<Setup>,
        hash: &H,
        writer: &mut W,
    ) -> Result<bool, RunFault>
        requires ready { IsIdle (arc_value setup.now) (H.digest_of hash.now) self.old.core (W.contents writer.old) }
        ensures ok { IfOk result (λ ended. AnswersLine (arc_value setup.now) (H.digest_of hash.now) ended self.old self.new W.contents writer.old writer.new) }
        ensures framer { self.new.framer ≡ self.old.framer }
        ensures err { OnErr result (BreaksInLine (arc_value setup.now) (H.digest_of hash.now) self.old W.contents writer.old writer.new) }
        ensures fault { IfErr result IsInAnswering }
        ensures writes { WritesEnd result (W.failures writer.old) (W.failures writer.new) }
    {
        let line = prepare(alloc, setup, hash, CHALLENGE, &self.line)?;
        let _verdict = self.core.line(alloc, self.connection, &line, NOW)?;
        let ended = self.write_waiting(writer)?;
        Ok(ended)
    }

    /// Takes all that waits for the connection, and writes it. It tells whether nothing more will come.
    fn write_waiting<W: CountedWrite>(&mut self, writer: &mut W) -> Result<bool, RunFault>
        requires running { (setup : Configured) × (hash : List ℕ → List ℕ) × IsRunning setup hash self.old.core (W.contents writer.old) }
        ensures ok { IfOk result (λ ended. WritesAll ended self.old self.new W.contents writer.old writer.new) }
        ensures framer { self.new.framer ≡ self.old.framer }
        ensures err { OnErr result ((setup : Configured) (hash : List ℕ → List ℕ) → FallsShort setup hash self.old.core (W.contents writer.old) (W.contents writer.new)) }
        ensures fault { IfErr result IsInAnswering }
        ensures writes { WritesEnd result (W.failures writer.old) (W.failures writer.new) }
    {
        loop {
            self.output.clear();
            let taken = self
                .core
                .take(self.connection, MOST_TAKEN, &mut self.output)?;
            let Ok(()) = write_and_flush_counted(writer, &self.output) else {
                return Err(RunFault::Write);
            };
            if taken.lines < MOST_TAKEN as u64 {
                return Ok(taken.ended);
            }
        }
    }
}

/// Joins the hub, which nothing but want of memory can prevent on an empty hub.
fn join(alloc: Global, setup: &Setup, core: &mut Core) -> Result<Conn, RunFault>
    requires empty { (hash : List ℕ → List ℕ) → StandsAt setup.now hash [] core.old }
    ensures first { IfOk result (λ connection. connection ≡ first) }
    ensures starts { OnOk result ((hash : List ℕ → List ℕ) → Starts setup.now hash core.new) }
    ensures fault { IfErr result (λ fault. fault ≡ RunFault.Memory) }
{
    // So an empty hub has room.
    prove!(setup.max_users() >= 1);
    match core.join(alloc, PEER, CHALLENGE, NOW) {
        Ok(connection) => Ok(connection),
        Err(JoinRefused::Memory) => Err(RunFault::Memory),
        Err(JoinRefused::Full) => unreachable!(),
        Err(JoinRefused::JoinsSpent) => unreachable!(),
    }
}
