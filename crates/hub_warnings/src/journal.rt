ghost use Rattle.std.specs.Prelude.{◌≡◌, true, false, [], Some, IfSome};
ghost use Rattle.std.specs.Io.KnownBytes.{Appends};
ghost use Rattle.log.specs.Record.{record_args};
ghost use Rattle.hub_warnings.specs.Texts.{journal_line, priority_text};
ghost use Rattle.hub_warnings.specs.Logged.{is_prioritised, level_of, priority_if, runtime_of};

use log::kv::Source;
use log::span::Spans;
use log::{Level, Log, Metadata, Record};
use std::fmt::Display;
use std::io::Write;
use std::sync::{Mutex, Wait};

/// Writes the message of each record as a line to `W`, under a lock, so that lines of threads do not mix. For the journal of
/// systemd a line begins with its priority, as `<4>`. A write that fails is dropped, and a line that stopped part way is
/// ended before the next.
pub struct Journal<R, W> {
    rt: R,
    has_priorities: bool,
    out: Mutex<Out<W>>,
}

impl<R: Drop, W: Drop> Drop for Journal<R, W> {
    fn drop(self) {
        let Journal {
            rt,
            has_priorities: _,
            out,
        } = self;
        drop(rt);
        drop(out);
    }
}

// A writer, and that the last line stopped part way.
#[derive(Drop)]
struct Out<W> {
    writer: W,
    is_torn: bool,
}

impl<R: Wait, W: Write> Journal<R, W> {
    /// Makes a journal over this writer, which the lock of `rt` guards. Lines begin with their priority where that is asked for.
    pub fn new(rt: R, has_priorities: bool, writer: W) -> Journal<R, W>
        ensures runtime { runtime_of result ≡ rt }
        ensures priorities { is_prioritised result ≡ has_priorities }
    {
        Journal {
            rt,
            has_priorities,
            out: Mutex::new(Out::new(writer)),
        }
    }

    // Each of its lines has a priority, or none has.
    fn note(&self, word: LineWord)
        requires { word.has_priority ≡ is_prioritised self.now }
    {
        let LineWord { has_priority: _ } = word;
    }
}

impl<W: Write> Out<W> {
    fn new(writer: W) -> Out<W>
        ensures writer { result.writer ≡ writer }
        ensures torn { result.is_torn ≡ false }
    {
        Out {
            writer,
            is_torn: false,
        }
    }

    // A line that was written whole stands behind the end of the one that was torn.
    fn line<D: Display, K, S>(
        &mut self,
        has_priorities: bool,
        entry: &Record<'_, D, K, S>,
    ) -> LineWord
        ensures word { result.has_priority ≡ has_priorities }
        ensures whole { self.new.is_torn ≡ false → IfSome (D.output (record_args entry.now)) (λ words.
            Appends (W.contents self.old.writer) (W.contents self.new.writer)
            (journal_line self.old.is_torn (priority_if has_priorities (level_of entry.now)) words)) }
    {
        let word = LineWord {
            has_priority: has_priorities,
        };
        if self.is_torn && self.writer.write_all(b"\n").is_err() {
            return word;
        }
        let priority = priority(has_priorities, entry.level());
        let text = entry.args();
        self.is_torn = writeln!(self.writer, "{priority}{text}").is_err();
        word
    }
}

// The word that a writer was given a line, with its priority or without. Nobody may drop it, and only the journal takes it.
struct LineWord {
    has_priority: bool,
}

/// Gives what stands before a line of this level, where priorities are asked for: as in syslog (RFC 5424, section 6.2.1).
#[tactic(auto, unfolding(crate::specs::Texts::priority_text))]
pub(crate) fn priority(has_priorities: bool, level: Level) -> &'static str
    ensures { result.now ≡ priority_if has_priorities level }
{
    if !has_priorities {
        return "";
    }
    match level {
        Level::Error => "<3>",
        Level::Warn => "<4>",
        Level::Info => "<6>",
        Level::Debug | Level::Trace => "<7>",
    }
}

impl<R: Wait, W: Write> Log for Journal<R, W> {
    ghost enables = { λ _ _ _. Some true };

    ghost target_of = { λ _. Some [] };

    fn enabled(&self, _metadata: &Metadata<'_>) -> bool {
        true
    }

    fn log<D: Display, K: Source, S: Spans>(&self, record: &Record<'_, D, K, S>) {
        let word = self.out.lock(&self.rt).line(self.has_priorities, record);
        self.note(word);
    }

    fn flush(&self) {
        let _ = self.out.lock(&self.rt).writer.flush();
    }

    fn target(&self) -> &str {
        ""
    }
}
