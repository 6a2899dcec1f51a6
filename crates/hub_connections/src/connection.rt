ghost use Rattle.std.specs.Prelude.{◌≡◌, ◌≤◌, ◌-◌, ◌++◌, true, false, None, IfOk, IfErr, OnOk, OnErr, IsSomeAnd, length, nat_le};
ghost use Rattle.server_tasks.specs.declared.slots.SlotEvent.TheVariants.{Cleared, Named};
ghost use Rattle.hub_core.specs.declared.share.Touched.TheVariants.{One};
ghost use Rattle.hub_rules.specs.Prepared.{prepared_line};
ghost use Rattle.hub_connections.specs.PortCalls.{Leaves};
ghost use Rattle.hub_connections.specs.ServedByHub.{ServesByHub};
ghost use Rattle.hub_connections.specs.Wakes.{AreWokenOrOwed, HasRung};
ghost use Rattle.hub_shared.specs.Calls.{SaysLine, Saw, TakesLines, behind};

use crate::free_slot::OfHub;
use crate::left_slot::LeftSlot;
use crate::no_memory::{NoMemory, session};
use crate::server::Server;
use crate::slot::Slot;
use crate::slot_bell::SlotBell;
use crate::ticket::Ticket;
use crate::waking::{Concerned, Woken};
use adc_sessions::{Port, Session, Stream};
use futures::Future;
use futures::spin::GaveUp;
use hub_core::{LineRefused, Prepared, Setup, TakeRefused, Taken, Touched, Verdict, prepare};
use hub_listener::{CallMoment, Moments};
use hub_shared::{Hub, Pass};
use server_tasks::{Amount, Broadcasts, Receipt, SlotEvent};
use session_hash::SessionHash;
use std::alloc::{AllocGlobal, Global};
use std::sync::Wait;
use std::time::Clock;
use tokio::io::{AsyncRead, AsyncWrite};

/// The number of bytes of the line by which all hear that a connection has quit, where nothing more is said.
const QUIT: u64 = 10;

/// One connection of the hub, for its session.
pub struct Connection<
    'a,
    B: OfHub<H, S>,
    S: Stream,
    T: Ticket<S, H, C>,
    H: SessionHash,
    R,
    C: Moments,
> {
    server: &'a Server<'a, B, S, T, H, R, C>,
    pass: Pass<H>,
    challenge: [u8; 24],
    slot: usize,
    // The receipt of the slot's having been given to this session, and of its name, once the connection has a session identifier.
    occupied: Result<Receipt, GaveUp>,
    named: Option<Result<Receipt, GaveUp>>,
    // Lines for everybody for which nobody was woken yet, and the second of the last of them.
    owes: bool,
    owed: Amount,
    second: u64,
    // The receipts of those whom the last line concerned, and of the last time that everybody was woken.
    woken: Woken,
    rung: Option<Result<Receipt, GaveUp>>,
    ghost here: { pass.home ≡ server.now.hub.now.home },
    ghost challenged: { pass.challenge ≡ challenge },
    ghost occupies: { ∥ IfOk occupied (λ deed. deed ≡ Cleared slot true) ∥₁ },
}

impl<'a, B: OfHub<H, S>, S: Stream, T: Ticket<S, H, C>, H: SessionHash, R, C: Moments> Drop
    for Connection<'a, B, S, T, H, R, C> {
    fn drop(self) {
        let Connection {
            server: _,
            pass,
            challenge: _,
            slot: _,
            occupied,
            named,
            owes: _,
            owed: _,
            second: _,
            woken,
            rung,
        } = self;
        drop(pass);
        drop(occupied);
        drop(named);
        drop(woken);
        drop(rung);
    }
}

impl<
    'a,
    B: OfHub<H, S>,
    S: AsyncRead + AsyncWrite,
    T: Ticket<S, H, C>,
    H: SessionHash,
    R: Wait + Clock,
    C: Moments,
> Connection<'a, B, S, T, H, R, C> {
    /// Makes the connection of a pass that joined with this challenge, and gives it the slot.
    pub fn new(
        server: &'a Server<'a, B, S, T, H, R, C>,
        pass: Pass<H>,
        challenge: [u8; 24],
        slot: usize,
    ) -> Connection<'a, B, S, T, H, R, C>
        requires here { pass.home ≡ server.now.hub.now.home }
        requires challenged { pass.challenge ≡ challenge }
        ensures server { result.server ≡ server.entry }
        ensures pass { result.pass ≡ pass }
        ensures slot { result.slot ≡ slot }
    {
        Connection {
            server,
            pass,
            challenge,
            slot,
            occupied: server.shared.wakers.occupy(slot),
            named: None,
            owes: false,
            owed: Amount::NONE,
            second: 0,
            woken: Woken::Nobody,
            rung: None,
        }
    }

    /// Gives the bell of this connection's session.
    pub fn bell(&self) -> SlotBell<'a>
        ensures { result.slot ≡ self.now.slot }
    {
        SlotBell::new(&self.server.shared.wakers, self.slot)
    }

    /// Wakes those whom the last line concerned, of so many bytes. A client's lines often come together, so where one is for
    /// everybody, they are woken once for all, by the take that follows.
    fn wake(&mut self, concerned: Concerned, bytes: u64)
        ensures server { self.new.server ≡ self.old.server }
        ensures pass { self.new.pass ≡ self.old.pass }
        ensures slot { self.new.slot ≡ self.old.slot }
        ensures rung { self.new.rung ≡ self.old.rung }
        ensures owes { self.old.owes ≡ true → self.new.owes ≡ true }
        ensures named { (sid : _) → concerned ≡ One sid → self.old.named ≡ None → IsSomeAnd self.new.named (λ it. IfOk it (λ deed. deed ≡ Named self.old.slot sid)) }
        ensures woken { AreWokenOrOwed concerned self.old.slot self.new.woken self.new.owes }
    {
        let wakers = &self.server.shared.wakers;
        let touched = concerned.touched();
        // Before it has a session identifier, a connection's lines concern nobody but itself.
        if self.named.is_none()
            && let Touched::One(sid) = touched
        {
            self.named = Some(wakers.name(self.slot, sid));
        }
        if let Touched::Everybody = touched {
            concerned.owe();
            wakers.count_broadcast(bytes);
            self.owed = self.owed.plus(Amount::of_line(bytes));
            self.owes = true;
            self.woken = Woken::Nobody;
        } else {
            self.woken = concerned.wake(wakers, self.slot, bytes, self.second);
        }
    }

    /// Wakes everybody, where that is owed.
    fn wake_owed(&mut self)
        ensures server { self.new.server ≡ self.old.server }
        ensures pass { self.new.pass ≡ self.old.pass }
        ensures slot { self.new.slot ≡ self.old.slot }
        ensures second { self.new.second ≡ self.old.second }
        ensures settled { self.new.owes ≡ false }
        ensures rung { self.old.owes ≡ true → HasRung self.old.slot self.new.rung }
    {
        if self.owes {
            let owed = self.owed;
            self.owed = Amount::NONE;
            self.owes = false;
            let wakers = &self.server.shared.wakers;
            self.rung = Some(wakers.wake_everybody(self.slot, owed, self.second));
        }
    }
}

/// What the hub said of a line, whom that concerned, and in which second it was.
struct SaidLine {
    verdict: Verdict,
    concerned: Concerned,
    second: u64,
}

/// Has the hub handle a line of this pass at this moment, and names those whom that concerned.
fn say<H: SessionHash, R: Wait>(
    rt: &R,
    hub: &Hub<H>,
    alloc: Global,
    pass: &mut Pass<H>,
    line: &Prepared,
    moment: CallMoment,
) -> Result<SaidLine, LineRefused>
    requires here { pass.old.home ≡ hub.now.home }
    requires prepared { line.now ≡ prepared_line hub.now.setup (H.digest_of hub.now.hash) pass.old.challenge line.now.bytes }
    ensures same { pass.new ≡ record pass.old { caller = pass.new.caller; touched = pass.new.touched } }
    ensures made { IfOk result (λ r. SaysLine hub.now.setup (H.digest_of hub.now.hash) pass.old line.now.bytes moment r.verdict pass.new.caller) }
    ensures concerned { IfOk result (λ r. r.concerned ≡ pass.new.touched) }
    ensures refused { OnErr result (Saw hub.now.setup (H.digest_of hub.now.hash) pass.old.caller pass.new.caller) }
{
    let second = moment.into_seconds();
    let verdict = hub.line(rt, alloc, pass, line, second)?;
    Ok(SaidLine {
        verdict,
        concerned: Concerned::new(pass.touched()),
        second,
    })
}

/// Takes lines for the pass of this slot, and notes with the wakers what it took once so much had been said to everybody: what others
/// say while the hub is asked may not be among what it gives. Gives the word of that, too.
fn take_after<
    B: OfHub<H, S>,
    S: AsyncRead + AsyncWrite,
    T: Ticket<S, H, C>,
    H: SessionHash,
    R: Wait,
    C: Moments,
>(
    server: &Server<'_, B, S, T, H, R, C>,
    said: Broadcasts,
    slot: usize,
    pass: &mut Pass<H>,
    count: usize,
    out: &mut Vec<u8>,
) -> Result<(Taken, Result<Receipt, GaveUp>), TakeRefused>
    requires here { pass.old.home ≡ server.now.hub.now.home }
    requires some { 1 ≤ count }
    requires few { count ≤ 256 }
    ensures same { pass.new ≡ record pass.old { caller = pass.new.caller; touched = pass.new.touched } }
    ensures made { IfOk result (λ it. TakesLines server.now.hub.now.setup (H.digest_of server.now.hub.now.hash) pass.old count
        out.old.items out.new.items it.0 pass.new.caller) }
    ensures noted { IfOk result (λ it. IfOk it.1 (λ receipt. receipt ≡ SlotEvent.Took slot said.amount
        (record { lines = it.0.lines; bytes = length out.new.items - length out.old.items }) (nat_le count it.0.lines))) }
    ensures appended { OnOk result (out.new.items ≡ out.old.items ++ behind out.old.items out.new.items) }
    ensures refused { OnErr result (Saw server.now.hub.now.setup (H.digest_of server.now.hub.now.hash) pass.old.caller pass.new.caller) }
    ensures unchanged { OnErr result (out.new.items ≡ out.old.items) }
{
    let before = out.len();
    let taken = server.hub.take(server.rt, pass, count, out)?;
    let has_more = taken.lines >= count as u64;
    let amount = Amount {
        lines: taken.lines,
        bytes: out.len().saturating_sub(before) as u64,
    };
    let noted = server
        .shared
        .wakers
        .note_taken(slot, said, amount, has_more);
    Ok((taken, noted))
}

/// Makes a line ready for the hub with this setup and this hash, and for who was challenged by this.
#[tactic(auto, unfolding(hub_rules::specs::Prepared::prepared_line))]
fn prepare_line<H: SessionHash>(
    alloc: Global,
    setup: &Setup,
    hash: &H,
    challenge: [u8; 24],
    line: &[u8],
) -> Result<Prepared, LineRefused>
    ensures prepared { IfOk result (λ ready. ready ≡ prepared_line setup.now (H.digest_of hash.now) challenge ready.bytes) }
    ensures bytes { IfOk result (λ ready. ready.bytes ≡ line.now) }
{
    prepare(alloc, setup, hash, challenge, line)
}

impl<
    B: OfHub<H, S>,
    S: AsyncRead + AsyncWrite,
    T: Ticket<S, H, C>,
    H: SessionHash,
    R: Wait + Clock,
    C: Moments,
> Port for Connection<'_, B, S, T, H, R, C> {
    ghost use Rattle.std.specs.Prelude.{◌≡◌};
    ghost use Rattle.hub_connections.specs.PortCalls.{Calls, Leaves};
    ghost use Rattle.hub_connections.specs.Wakes.{Wakes, AreWoken, OwesOn};

    type Left = LeftSlot<H>;

    ghost step = { λ a call b. (b.server ≡ a.server) × Calls a.server.now.hub.now.setup (H.digest_of a.server.now.hub.now.hash) B.may_read a.pass call b.pass
        × (b.slot ≡ a.slot) × Wakes call b.pass.touched a.slot a.owes b.owes b.woken b.rung };

    ghost leaves = { λ a left. Leaves a.server.now.hub.now.setup (H.digest_of a.server.now.hub.now.hash) a.pass left.visitor
        × (left.slot ≡ a.slot) × AreWoken left.visitor.touched a.slot 10 a.second left.woken × OwesOn a.owes false a.slot left.rung };

    fn line(&mut self, alloc: Global, line: &[u8]) -> Result<Verdict, LineRefused> {
        // Their digests may take long.
        if line.starts_with(b"BINF") || line.starts_with(b"HPAS") {
            self.wake_owed();
            let _ = self.server.shared.wakers.call_for_help(self.slot);
        }
        let server = self.server;
        let prepared = prepare_line(alloc, server.setup, server.hash, self.challenge, line)?;
        let SaidLine {
            verdict,
            concerned,
            second,
        } = say(
            server.rt,
            server.hub,
            alloc,
            &mut self.pass,
            &prepared,
            server.moment_of_call(),
        )?;
        self.second = second;
        let bytes = (line.len() as u64).saturating_add(1);
        self.wake(concerned, bytes);
        Ok(verdict)
    }

    fn take(&mut self, count: usize, out: &mut Vec<u8>) -> Result<Taken, TakeRefused> {
        self.wake_owed();
        let server = self.server;
        let said = server.shared.wakers.broadcasts();
        let (taken, _noted) = take_after(server, said, self.slot, &mut self.pass, count, out)?;
        Ok(taken)
    }

    fn quit(mut self) -> LeftSlot<H> {
        self.wake_owed();
        let Connection {
            server,
            pass,
            challenge: _,
            slot,
            occupied,
            named,
            owes: _,
            owed: _,
            second,
            woken,
            rung,
        } = self;
        drop(occupied);
        drop(named);
        drop(woken);
        let visitor = server.hub.quit(server.rt, pass);
        let concerned = Concerned::new(visitor.touched());
        let woken = concerned.wake(&server.shared.wakers, slot, QUIT, second);
        LeftSlot {
            visitor,
            slot,
            woken,
            rung,
        }
    }
}

/// The session of a connection of the hub, over this stream.
pub type HubSession<'a, B, S, T, H, R, C> = Session<
    S,
    Connection<'a, B, S, T, H, R, C>,
    SlotBell<'a>,
>;

/// Serves a stream for a pass that joined with this challenge, as the connection of this slot. The session is a future.
///
/// Whatever it ends with, the hub was sent the first lines of what was read from the stream, each once and in order, and the stream
/// was written the first bytes of what the hub gave the connection, which has quit. All these calls stand in one legal
/// history, as the caller's only ones after those that it had made (`specs/ServedByHub` has all that is promised).
///
/// Refused for want of memory; then the connection has quit, and the stream and the slot are given back, with the word of that.
pub fn serve_connection<
    'a,
    B: OfHub<H, S>,
    S: AsyncRead + AsyncWrite,
    T: Ticket<S, H, C>,
    H: SessionHash,
    R: Wait + Clock + AllocGlobal,
    C: Moments,
>(
    server: &'a Server<'a, B, S, T, H, R, C>,
    stream: S,
    pass: Pass<H>,
    challenge: [u8; 24],
    slot: &Slot,
) -> Result<HubSession<'a, B, S, T, H, R, C>, (S, LeftSlot<H>, NoMemory)>
    requires here { pass.home ≡ server.now.hub.now.home }
    requires challenged { pass.challenge ≡ challenge }
    ensures serves { IfOk result (λ session. ServesByHub server.now.hub.now.setup (H.digest_of server.now.hub.now.hash) ⟦<S as Stream>⟧.reports B.may_read stream pass
        (⟦<Session<S, Connection<'a, B, S, T, H, R, C>, SlotBell<'a>> as Future>⟧.gives session) (λ left. left.visitor)) }
    ensures stream { IfErr result (λ back. back.0 ≡ stream) }
    ensures left { IfErr result (λ back. Leaves server.now.hub.now.setup (H.digest_of server.now.hub.now.hash) pass back.1.visitor) }
{
    let connection = Connection::new(server, pass, challenge, slot.number());
    let bell = connection.bell();
    match session(server.rt.alloc(), stream, connection, bell) {
        Ok(session) => Ok(session),
        Err((no_memory, stream, connection, _bell)) => Err((stream, connection.quit(), no_memory)),
    }
}
