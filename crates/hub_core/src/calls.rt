ghost use Rattle.std.specs.Prelude.{◌≡◌, ℕ, true, List, [], IfOk};
ghost use Rattle.std.specs.Arc.{arc_value};
ghost use Rattle.hub_core.specs.Runs.{Answers, RunsTo, is_skipped};
ghost use Rattle.hub_core.specs.declared.calls.Ask.TheVariants.{Join, Line, Quit, Take};

use crate::connection::Connection;
use crate::hub::Core;
use crate::refused::{JoinRefused, OpenRefused};
use hub_rules::Verdict;
use hub_setup::{Prepared, Setup};
use outboxes::Taken;
use std::alloc::Global;
use std::sync::Arc;

/// A call that is asked of a hub. A connection is named by the number of its join, from 1 on; moments are seconds.
#[derive(Drop)]
pub enum Ask<'a> {
    /// A request to be admitted: the peer's address, the challenge, the moment.
    Join([u8; 4], [u8; 24], u64),
    /// A line of a connection to handle: the connection, the line, the moment.
    Line(u64, &'a Prepared, u64),
    /// A connection to let go.
    Quit(u64),
    /// A request to hand over lines that wait for a connection: the connection, how many at most, 1 to 256.
    Take(u64, usize),
}

/// A call of a hub, with who makes it.
#[derive(Drop)]
pub struct Asked<'a> {
    /// The number of the caller.
    pub caller: u64,
    /// The call that is asked.
    pub ask: Ask<'a>,
}

/// The answer to a call.
#[derive(Debug, Drop)]
pub enum Answer {
    /// The join was accepted, as this connection.
    Joined(Connection),
    /// The hub is full: as many connections are open as it admits.
    Full,
    /// The joins are spent: as many were accepted as can be counted.
    JoinsSpent,
    /// The verdict that the line brought on its connection.
    Said(Verdict),
    /// The connection left.
    Left,
    /// The bytes that were taken.
    Took(Vec<u8>, Taken),
    /// Memory ran out, and the call changed nothing.
    Memory,
    /// The call was not made: it names a connection that is not open, or asks for no line or for too many.
    Skipped,
}

/// Makes each call in turn on a new hub, and answers each at its place.
///
/// A call is skipped where it names a connection that is not open at its turn, or takes no line or too many; that changes
/// nothing, and the calls behind it are made. Of a call that is made, the connection is one that its caller joined, and
/// the line was made ready for it: then the answers are those of one legal history of the calls that were made, and the
/// hub stands at it. A call for which memory runs out is answered with `Memory` and changes nothing; those behind it are made.
///
/// Refused: `Memory`, where no hub can be opened or there is no room for the answers; then no call was made.
pub fn run_calls(
    alloc: Global,
    setup: Arc<Setup>,
    calls: Vec<Asked<'_>>,
) -> Result<(Core, Vec<Answer>), OpenRefused>
    ensures { IfOk result (λ run. (hash : List ℕ → List ℕ) → RunsTo (arc_value setup) hash [] calls.entry.items run.1.items run.0) }
{
    let mut core = Core::open(alloc, setup)?;
    let mut answers = Vec::with_capacity(alloc, calls.len())?;
    for asked in calls {
        let answer = make(alloc, &mut core, asked);
        answers.push(answer).unwrap();
    }
    Ok((core, answers))
}

fn make(alloc: Global, core: &mut Core, asked: Asked<'_>) -> Answer
    ensures answers { Answers asked.entry.caller asked.entry.ask result core.old core.new }
    ensures skipped { is_skipped result ≡ true → core.new ≡ core.old }
{
    match asked.ask {
        Ask::Join(peer, challenge, now) => join(alloc, core, peer, challenge, now),
        Ask::Line(number, line, now) => say(alloc, core, number, line, now),
        Ask::Quit(number) => quit(core, number),
        Ask::Take(number, count) => take(alloc, core, number, count),
    }
}

fn join(alloc: Global, core: &mut Core, peer: [u8; 4], challenge: [u8; 24], now: u64) -> Answer
    ensures answers { (caller : ℕ) → Answers caller (Join peer challenge now) result core.old core.new }
    ensures skipped { is_skipped result ≡ true → core.new ≡ core.old }
{
    match core.join(alloc, peer, challenge, now) {
        Ok(connection) => Answer::Joined(connection),
        Err(JoinRefused::Full) => Answer::Full,
        Err(JoinRefused::JoinsSpent) => Answer::JoinsSpent,
        Err(JoinRefused::Memory) => Answer::Memory,
    }
}

fn say(alloc: Global, core: &mut Core, number: u64, line: &Prepared, now: u64) -> Answer
    ensures answers { (caller : ℕ) → Answers caller (Line number line.entry now) result core.old core.new }
    ensures skipped { is_skipped result ≡ true → core.new ≡ core.old }
{
    let connection = Connection { number };
    if !core.is_open(connection) {
        return Answer::Skipped;
    }
    match core.line(alloc, connection, line, now) {
        Ok(verdict) => Answer::Said(verdict),
        Err(_) => Answer::Memory,
    }
}

fn quit(core: &mut Core, number: u64) -> Answer
    ensures answers { (caller : ℕ) → Answers caller (Quit number) result core.old core.new }
    ensures skipped { is_skipped result ≡ true → core.new ≡ core.old }
{
    let connection = Connection { number };
    if !core.is_open(connection) {
        return Answer::Skipped;
    }
    core.quit(connection);
    Answer::Left
}

fn take(alloc: Global, core: &mut Core, number: u64, count: usize) -> Answer
    ensures answers { (caller : ℕ) → Answers caller (Take number count) result core.old core.new }
    ensures skipped { is_skipped result ≡ true → core.new ≡ core.old }
{
    let connection = Connection { number };
    if !core.is_open(connection) {
        return Answer::Skipped;
    }
    if count == 0 {
        return Answer::Skipped;
    }
    if count > 256 {
        return Answer::Skipped;
    }
    let mut bytes = Vec::new(alloc);
    match core.take(connection, count, &mut bytes) {
        Ok(taken) => Answer::Took(bytes, taken),
        Err(_) => Answer::Memory,
    }
}
