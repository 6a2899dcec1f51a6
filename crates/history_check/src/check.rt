ghost use Rattle.std.specs.Prelude.{[], IfOk, IfSome};
ghost use Rattle.std.specs.Arc.{arc_value};
ghost use Rattle.hub_core.specs.Moves.{Moves, StandsAt};
ghost use Rattle.hub_core.specs.State.{IsSeated};
ghost use Rattle.hub_rules.specs.declared.history.Call.TheVariants.{Take};
ghost use Rattle.history_check.specs.Following.{Finds, IsJoin, IsMade, IsSaidLine, Looks};
ghost use Rattle.history_check.specs.Judged.{IsJudged};
ghost use Rattle.history_check.specs.Written.{call_of, reply_of};

use crate::written::{LineCount, WrittenCall, WrittenEntry, WrittenReply, is_same};
use hub_core::{Conn, Core, JoinRefused, Setup, prepare};
use session_hash::SessionHash;
use std::alloc::{AllocError, Global};
use std::sync::Arc;

/// The demand of the rules where an entry is not legal.
#[derive(Drop)]
pub enum Demand {
    /// The call may not be made there: it names a connection that is not open, or that another caller joined.
    NoCall,
    /// The call is answered by this reply.
    Gives(WrittenReply),
}

/// The judgement on a written history.
#[derive(Drop)]
pub enum Judgement {
    /// Each reply is what the rules give at that point.
    Legal,
    /// The entry at this place, from 0 on, is the first of which this is not so, and the rules demand this.
    Fault(usize, Demand),
}

/// A connection that joined.
#[derive(Clone, Copy)]
pub(crate) struct Joined {
    connection: Conn,
    caller: u64,
    challenge: [u8; 24],
}

/// Judges a history that is written oldest first: plays its calls on a new hub of this setup and hash, and compares
/// each reply.
///
/// Refused only where memory runs out.
pub fn check_history<H: SessionHash>(
    alloc: Global,
    setup: Arc<Setup>,
    hash: &H,
    entries: &[WrittenEntry],
) -> Result<Judgement, AllocError>
    ensures { IfOk result (λ judgement. IsJudged (arc_value setup) (H.digest_of hash.now) entries.now judgement) }
{
    let Ok(core) = Core::open(alloc, setup.clone()?) else {
        return Err(AllocError);
    };
    let mut core = core;
    let judgement = play(alloc, &setup, hash, &mut core, entries);
    // By a call, once: a hub that is let go of at each end is dear to prove.
    drop(core);
    judgement
}

/// Plays the calls of these entries on a hub to which nobody has connected, and compares each reply.
fn play<H: SessionHash>(
    alloc: Global,
    setup: &Setup,
    hash: &H,
    core: &mut Core,
    entries: &[WrittenEntry],
) -> Result<Judgement, AllocError>
    requires new { StandsAt setup.now (H.digest_of hash.now) [] core.old }
    ensures { IfOk result (λ judgement. IsJudged setup.now (H.digest_of hash.now) entries.now judgement) }
{
    let mut joined = Vec::new(alloc);
    for (place, entry) in entries.iter().enumerate() {
        if let Some(demand) = look(alloc, setup, hash, core, &mut joined, entry)? {
            return Ok(Judgement::Fault(place, demand));
        }
    }
    Ok(Judgement::Legal)
}

/// Looks at the next entry: tells what the rules demand in its place, where it is not legal.
fn look<H: SessionHash>(
    alloc: Global,
    setup: &Setup,
    hash: &H,
    core: &mut Core,
    joined: &mut Vec<Joined>,
    entry: &WrittenEntry,
) -> Result<Option<Demand>, AllocError>
    ensures { IfOk result (λ demand. Looks setup.now (H.digest_of hash.now) entry.now demand core.old joined.old.items core.new joined.new.items) }
{
    let Some(reply) = make(alloc, setup, hash, core, joined, entry.caller, &entry.call)? else {
        return Ok(Some(Demand::NoCall));
    };
    if is_same(&entry.reply, &reply) {
        Ok(None)
    } else {
        Ok(Some(Demand::Gives(reply)))
    }
}

/// Makes a call, where its caller may make it, and gives what it is answered.
fn make<H: SessionHash>(
    alloc: Global,
    setup: &Setup,
    hash: &H,
    core: &mut Core,
    joined: &mut Vec<Joined>,
    caller: u64,
    call: &WrittenCall,
) -> Result<Option<WrittenReply>, AllocError>
    ensures { IfOk result (λ reply. IsMade setup.now (H.digest_of hash.now) caller (call_of call.now) reply core.old joined.old.items core.new joined.new.items) }
{
    match call {
        WrittenCall::Join(peer, challenge, now) => {
            let reply = join(alloc, core, joined, caller, *peer, *challenge, *now)?;
            Ok(Some(reply))
        }
        WrittenCall::Line(connection, bytes, now) => match find(core, joined, caller, *connection) {
            Some(found) => Ok(Some(say(alloc, setup, hash, core, found, bytes, *now)?)),
            None => Ok(None),
        },
        WrittenCall::Quit(connection) => match find(core, joined, caller, *connection) {
            Some(found) => {
                core.quit(found.connection);
                Ok(Some(WrittenReply::Left))
            }
            None => Ok(None),
        },
        WrittenCall::Take(connection, count) => match find(core, joined, caller, *connection) {
            Some(found) => Ok(Some(take(alloc, core, found, *count)?)),
            None => Ok(None),
        },
    }
}

/// Finds a connection that is open and that this caller joined.
fn find(core: &Core, joined: &[Joined], caller: u64, connection: u64) -> Option<Joined>
    ensures seated { IfSome result (λ found. IsSeated found.connection core.now) }
    ensures finds { Finds caller connection core.now joined.now result }
{
    if connection == 0 {
        return None;
    }
    let place = (connection - 1) as usize;
    if place >= joined.len() {
        return None;
    }
    let found = joined[place];
    if found.caller != caller {
        return None;
    }
    if !core.is_open(found.connection) {
        return None;
    }
    Some(found)
}

fn say<H: SessionHash>(
    alloc: Global,
    setup: &Setup,
    hash: &H,
    core: &mut Core,
    found: Joined,
    bytes: &[u8],
    now: u64,
) -> Result<WrittenReply, AllocError>
    requires { IsSeated found.connection core.old }
    ensures { IfOk result (λ reply. IsSaidLine setup.now (H.digest_of hash.now) found.connection found.challenge bytes.now now reply core.old core.new) }
{
    let Ok(line) = prepare(alloc, setup, hash, found.challenge, bytes) else {
        return Err(AllocError);
    };
    match core.line(alloc, found.connection, &line, now) {
        Ok(verdict) => Ok(WrittenReply::Said(verdict)),
        Err(_) => Err(AllocError),
    }
}

fn join(
    alloc: Global,
    core: &mut Core,
    joined: &mut Vec<Joined>,
    caller: u64,
    peer: [u8; 4],
    challenge: [u8; 24],
    now: u64,
) -> Result<WrittenReply, AllocError>
    ensures { IfOk result (λ reply. IsJoin caller peer challenge now reply core.old joined.old.items core.new joined.new.items) }
{
    match core.join(alloc, peer, challenge, now) {
        Ok(connection) => {
            joined.push(Joined {
                connection,
                caller,
                challenge,
            })?;
            Ok(WrittenReply::Joined(core.joins()))
        }
        Err(JoinRefused::Full) => Ok(WrittenReply::Full),
        Err(JoinRefused::JoinsSpent) => Ok(WrittenReply::JoinsSpent),
        Err(JoinRefused::Memory) => Err(AllocError),
    }
}

fn take(
    alloc: Global,
    core: &mut Core,
    found: Joined,
    count: LineCount,
) -> Result<WrittenReply, AllocError>
    requires { IsSeated found.connection core.old }
    ensures { IfOk result (λ reply. Moves core.old (Take found.connection count) (reply_of reply) core.new) }
{
    let mut bytes = Vec::new(alloc);
    match core.take(found.connection, count.get(), &mut bytes) {
        Ok(taken) => Ok(WrittenReply::Took(bytes, taken.lines, taken.ended)),
        Err(_) => Err(AllocError),
    }
}
