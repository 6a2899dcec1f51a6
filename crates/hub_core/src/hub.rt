ghost use Rattle.std.specs.Prelude.{◌≡◌, ◌≤◌, ◌↔◌, ℕ, List, [], IsTrue, IfOk, OnOk, OnErr};
ghost use Rattle.std.specs.Arc.{arc_value};
ghost use Rattle.hub_rules.specs.declared.history.Call.TheVariants.{Join, Quit, Take};
ghost use Rattle.hub_rules.specs.declared.history.Reply.TheVariants.{Left};
ghost use Rattle.hub_core.specs.CoreState.{noted};
ghost use Rattle.hub_core.specs.Moves.{Moves, LineMoves, StandsAt};
ghost use Rattle.hub_core.specs.TouchedSids.{LineTouches, Touches, TouchesNobody};
ghost use Rattle.hub_core.specs.Departures.{left_core};
ghost use Rattle.hub_core.specs.Decided.{IsDecided, IsHandled};
ghost use Rattle.hub_core.specs.Phases.{stage_in};
ghost use Rattle.hub_core.specs.Seats.{phase_in};
ghost use Rattle.hub_core.specs.State.{IsPlace, IsSeated, carried_out};
ghost use Rattle.hub_rules.specs.Legal.{verdict_of};

use crate::change::SharedState;
use crate::connection::Connection;
use crate::delivery::{deliver, plan, prepare, take_lines};
use crate::look::Look;
use crate::present::Present;
use crate::seat::{Seat, add, decide_at, has_seat, place, sids};
use crate::share::{Touched, touched_by_line, touched_by_quit};
use crate::sid_index::SidIndex;
use crate::{JoinRefused, OpenRefused};
use adc_base32::Sid;
use hub_decisions::HubFacts;
use hub_rules::{Effect, LineRefused, Sender, Topic, Verdict};
use hub_setup::{Prepared, Setup};
use operator_acts::Bans;
use outboxes::{TakeRefused, Taken};
use shared_log::Backlogs;
use std::alloc::{AllocError, Global};
use std::marker::Model;
use std::sync::Arc;
use user_table::{Totals, Users};

/// The number of lines that may wait for a connection.
const MAX_LINES: usize = 1_024;

/// The number of bytes that they may have together.
const MAX_BYTES: usize = 1_048_576;

/// How many entries the log has room for at first: as many lines as may wait for a connection, and a departure of each.
const LOG_PLACES: usize = 2_048;

/// A hub for one thread. Its promises are about histories: after any list of calls, each answer and
/// what it keeps are what the calls before demand. A call refused for want of memory changes nothing.
pub struct Core {
    setup: Arc<Setup>,
    joins: u64,
    last: u32,
    seats: Vec<Seat>,
    /// What waits for each of them, in the same order. Who is present is a member.
    backlogs: Backlogs,
    /// Finds a seat by its session identifier, so that a line for one user is not held against each seat.
    index: SidIndex,
    commons: SharedState,
    /// The users whom the last call concerned: a hint, which no history determines.
    touched: Touched,
}

impl Drop for Core {
    fn drop(self) {
        let Core {
            setup,
            joins: _,
            last: _,
            seats,
            backlogs,
            index,
            commons,
            touched: _,
        } = self;
        drop(commons);
        drop(index);
        drop(backlogs);
        drop(seats);
        drop(setup);
    }
}

impl Model for Core {
    ghost use Rattle.hub_core.specs.CoreState.{CoreState};

    ghost Value = { CoreState };

    ghost use Rattle.hub_core.specs.CoreView.{core_view, IsCore};

    ghost view = { core_view };

    ghost invariant = { IsCore };
}

impl Core {
    ghost use Rattle.hub_core.specs.Promises.{JoinMoves, TakeMoves, SidOf, LooksAt, CountsJoins, SumsUp};

    /// Opens a hub, to which nobody has connected.
    ///
    /// Refused: `Memory`.
    pub fn open(alloc: Global, setup: Arc<Setup>) -> Result<Core, OpenRefused>
        ensures { IfOk result (λ core. (hash : List ℕ → List ℕ) → StandsAt (arc_value setup) hash [] core) }
    {
        let seats = Vec::with_capacity(alloc, setup.max_users() as usize)?;
        let backlogs = Backlogs::new(alloc, LOG_PLACES, MAX_LINES, MAX_BYTES)?;
        let topic = Topic::new(alloc, setup.topic())?;
        Ok(Core {
            setup,
            joins: 0,
            last: 0,
            seats,
            backlogs,
            index: SidIndex::new(alloc),
            commons: SharedState {
                present: Present::new(alloc),
                bans: Bans::new(alloc),
                topic,
            },
            touched: Touched::Nobody,
        })
    }

    /// Admits a connection from this address, with the challenge that it would be given.
    ///
    /// Refused, by the first that applies: `Full` where as many connections are open as the setup
    /// admits, `JoinsSpent` after 18,446,744,073,709,551,615 joins; then `Memory`.
    pub fn join(
        &mut self,
        alloc: Global,
        peer: [u8; 4],
        challenge: [u8; 24],
        now: u64,
    ) -> Result<Connection, JoinRefused>
        ensures moves { JoinMoves result self.old (Join peer challenge now) self.new }
        ensures touched { OnOk result (TouchesNobody self.old (Join peer challenge now) self.new) }
    {
        let connection = self.admit(alloc, peer, challenge, now)?;
        self.note(Touched::Nobody);
        Ok(connection)
    }

    fn admit(
        &mut self,
        alloc: Global,
        peer: [u8; 4],
        challenge: [u8; 24],
        now: u64,
    ) -> Result<Connection, JoinRefused>
        ensures { JoinMoves result self.old (Join peer challenge now) self.new }
    {
        if self.seats.len() >= self.setup.max_users() as usize {
            return Err(JoinRefused::Full);
        }
        if self.joins == u64::MAX {
            return Err(JoinRefused::JoinsSpent);
        }
        let taken = sids(alloc, &self.seats)?;
        let sid = Sid::next_free(self.last, &taken);
        let number = self.joins + 1;
        let seat = Seat::new(number, Sender::new(alloc, sid, peer, challenge));
        self.backlogs.add()?;
        if add(&mut self.seats, &mut self.index, seat).is_err() {
            self.backlogs.remove(self.seats.len());
            return Err(JoinRefused::Memory);
        }
        self.joins = number;
        self.last = sid.number();
        Ok(Connection { number })
    }

    /// Answers whether a connection is open: it joined here, and has not quit. The other calls ask that it is.
    pub fn is_open(&self, connection: Connection) -> bool
        ensures { IsTrue result ↔ IsSeated connection self.now }
    {
        has_seat(&self.seats, connection.number)
    }

    /// Gives the session identifier of a connection that is open.
    pub fn sid(&self, connection: Connection) -> Sid
        requires seated { IsSeated connection self.now }
        ensures { SidOf result connection self.now }
    {
        self.seats[place(&self.seats, connection.number)].sender.sid
    }

    /// Handles a line of a connection that is open, at a moment in seconds. The line was made ready for this
    /// connection: by this hub's setup and hash, with its challenge.
    ///
    /// Refused: `Memory`; then nothing changed, and the line may be sent again.
    pub fn line(
        &mut self,
        alloc: Global,
        connection: Connection,
        line: &Prepared,
        now: u64,
    ) -> Result<Verdict, LineRefused>
        requires seated { IsSeated connection self.old }
        ensures moves { IfOk result (λ verdict. LineMoves self.old connection line.now now verdict self.new) }
        ensures touched { OnOk result (LineTouches self.old connection line.now now self.new) }
        ensures err { OnErr result (self.new ≡ self.old) }
    {
        let verdict = self.handle(alloc, connection.number, line, now)?;
        Ok(verdict)
    }

    /// Lets a connection that is open go. What waited for it is given up. It takes no memory.
    pub fn quit(&mut self, connection: Connection)
        requires seated { IsSeated connection self.old }
        ensures moves { Moves self.old (Quit connection) Left self.new }
        ensures touched { Touches self.old (Quit connection) self.new }
    {
        let place = place(&self.seats, connection.number);
        let touched = touched_by_quit(&self.seats[place].phase);
        self.leave(connection.number, place);
        self.note(touched);
    }

    /// Removes the first `count` lines that wait for an open connection, or all if fewer wait, and
    /// appends their bytes. `count` is from 1 to 256.
    ///
    /// Refused: `Memory`; then nothing is removed or appended.
    pub fn take(
        &mut self,
        connection: Connection,
        count: usize,
        out: &mut Vec<u8>,
    ) -> Result<Taken, TakeRefused>
        requires seated { IsSeated connection self.old }
        requires some { 1 ≤ count }
        requires few { count ≤ 256 }
        ensures moves { IfOk result (λ taken. TakeMoves taken connection count out.old.items out.new.items self.old self.new) }
        ensures touched { OnOk result (TouchesNobody self.old (Take connection count) self.new) }
        ensures err { OnErr result ((self.new ≡ self.old) × (out.new.items ≡ out.old.items)) }
    {
        let place = place(&self.seats, connection.number);
        let is_over = self.seats[place].phase.is_over();
        let taken = take_lines(&mut self.backlogs, place, is_over, count, out)?;
        self.touched = Touched::Nobody;
        Ok(taken)
    }

    /// Names whom the last call that was not refused concerned: to whose connections it gave lines, and whom it shut out. It
    /// may name somebody too many; after a take or a join it names nobody. It takes no memory.
    pub fn touched(&self) -> Touched
        ensures { result ≡ self.now.touched }
    {
        self.touched
    }

    /// Looks at an open connection. It takes no memory.
    pub fn look(&self, connection: Connection) -> Look
        requires seated { IsSeated connection self.now }
        ensures { LooksAt result connection self.now }
    {
        let place = place(&self.seats, connection.number);
        Look {
            stage: self.seats[place].phase.stage(),
            present: self.commons.present.users.totals().users,
            waiting: self.backlogs.waiting(place),
        }
    }

    /// Gives how many users are present, and what they share. It takes no memory.
    pub fn totals(&self) -> Totals
        ensures { SumsUp result self.now }
    {
        self.commons.present.users.totals()
    }

    /// Gives how many joins were accepted. It takes no memory.
    pub fn joins(&self) -> u64
        ensures { CountsJoins result self.now }
    {
        self.joins
    }

    fn handle(
        &mut self,
        alloc: Global,
        number: u64,
        line: &Prepared,
        now: u64,
    ) -> Result<Verdict, AllocError>
        requires { IsSeated number self.old }
        ensures handled { OnOk result (IsHandled number line.now now self.old self.new) }
        ensures verdict { IfOk result (λ verdict. verdict ≡ verdict_of (stage_in (phase_in number self.new.seats))) }
        ensures err { OnErr result (self.new ≡ self.old) }
    {
        let place = place(&self.seats, number);
        let effect = self.decide(alloc, number, place, line, now)?;
        let touched = touched_by_line(self.seats[place].sender.sid, &effect);
        self.carry_out(alloc, number, place, effect)?;
        self.note(touched);
        let verdict = self.verdict(number, place);
        Ok(verdict)
    }

    /// Decides what a line of a connection leads to, whose seat stands at this place.
    fn decide<'a>(
        &self,
        alloc: Global,
        number: u64,
        place: usize,
        line: &'a Prepared,
        now: u64,
    ) -> Result<Effect<'a>, AllocError>
        requires { IsPlace number place self.now.seats }
        ensures { IfOk result (λ effect. IsDecided number line.now now self.now effect) }
    {
        let hub = HubFacts {
            setup: &self.setup,
            users: &self.commons.present.users,
            lines: &self.commons.present.lines,
            bans: &self.commons.bans,
            topic: &self.commons.topic,
        };
        let effect = decide_at(alloc, &hub, &self.seats[place], line, now)?;
        Ok(effect)
    }

    /// Keeps whom a call concerned.
    fn note(&mut self, touched: Touched)
        ensures { self.new ≡ noted touched self.old }
    {
        self.touched = touched;
    }

    fn verdict(&self, number: u64, place: usize) -> Verdict
        requires { IsPlace number place self.now.seats }
        ensures { result ≡ verdict_of (stage_in (phase_in number self.now.seats)) }
    {
        self.seats[place].phase.verdict()
    }

    /// Lets the connection go whose seat stands at this place.
    fn leave(&mut self, number: u64, place: usize)
        requires { IsPlace number place self.old.seats }
        ensures { self.new ≡ left_core number self.old }
    {
        let sid = self.seats[place].sender.sid;
        drop(self.seats.remove(place));
        self.backlogs.quit(place, sid);
        self.index.remove(sid);
        self.commons.present.remove(sid);
    }

    /// Carries out what was decided of a line of a connection, whose seat stands at this place, whole or not at all.
    fn carry_out(
        &mut self,
        alloc: Global,
        number: u64,
        place: usize,
        effect: Effect<'_>,
    ) -> Result<(), AllocError>
        requires { IsPlace number place self.old.seats }
        ensures ok { OnOk result (self.new ≡ carried_out number effect.entry self.old) }
        ensures err { OnErr result (self.new ≡ self.old) }
    {
        let delivery = plan(alloc, &self.seats, &self.index, number, place, &effect)?;
        prepare(&mut self.backlogs, place, &delivery)?;
        let seat = &mut self.seats[place];
        self.commons
            .change(alloc, &self.setup, seat, effect.change)?;
        deliver(&mut self.seats, &mut self.backlogs, place, delivery);
        Ok(())
    }
}
