ghost use Rattle.std.specs.Prelude.{◌≡◌, ◌∷◌, [], Some, IfSome, IfOk, ◌==◌, ◌++◌, map, position, OnOk, OnErr};
ghost use Rattle.std.specs.Option.{unwrap_or, option_copied};
ghost use Rattle.hub_core.specs.Decided.{expected_at, Decided, user_at};
ghost use Rattle.hub_core.specs.Index.{IsSetAtSid};
ghost use Rattle.hub_core.specs.Phases.{stage_in};
ghost use Rattle.hub_core.specs.Seats.{new_seat, seat_after, seat_after_change_at};
ghost use Rattle.hub_rules.specs.Effects.{is_over, is_present};
ghost use Rattle.hub_rules.specs.Legal.{verdict_of};
ghost use Rattle.hub_core.specs.declared.seat.Seat.{Seat};
ghost use Rattle.hub_core.specs.Numbers.{Rising, numbers};
ghost use Rattle.hub_core.specs.State.{has_seat, HasSeat, IsPlace};

use crate::sid_index::SidIndex;
use adc_base32::Sid;
use feature_route::FeatureSet;
use hub_decisions::{HubFacts, SenderFacts, decide};
use hub_rules::{Effect, Entrant, SeatChange, Sender, Verdict};
use hub_setup::Prepared;
use login_state::Stage;
use std::alloc::{AllocError, Global};
use user_table::{IndexedUsers, User, Users};

/// The phase of a connection: how far it has come, with what is kept of its user (ADC 1.0, "States").
#[derive(Drop)]
pub enum Phase {
    /// The connection has yet to say what it supports.
    Protocol,
    /// The connection has yet to log in.
    Identify,
    /// A user who may enter, once its password gives this digest.
    Verify(Entrant, [u8; 24]),
    /// The user is present, with these features in the field SU.
    Normal(FeatureSet),
    /// The connection is shut out.
    Gone,
}

/// The seat of a connection: what is kept of it.
#[derive(Drop)]
pub struct Seat {
    /// The number of its join.
    pub(crate) number: u64,
    /// Its plain fields.
    pub(crate) sender: Sender,
    pub(crate) phase: Phase,
}

impl Phase {
    /// Gives the stage alone.
    pub(crate) fn stage(&self) -> Stage
        ensures { result ≡ stage_in self.now }
    {
        match self {
            Phase::Protocol => Stage::Protocol,
            Phase::Identify => Stage::Identify,
            Phase::Verify(_, _) => Stage::Verify,
            Phase::Normal(_) => Stage::Normal,
            Phase::Gone => Stage::Gone,
        }
    }

    /// Answers whether it is shut out.
    pub(crate) fn is_over(&self) -> bool
        ensures { result ≡ is_over (stage_in self.now) }
    {
        match self {
            Phase::Gone => true,
            Phase::Protocol | Phase::Identify | Phase::Verify(_, _) | Phase::Normal(_) => false,
        }
    }

    /// Gives the verdict that its connection is told after a line.
    pub(crate) fn verdict(&self) -> Verdict
        ensures { result ≡ verdict_of (stage_in self.now) }
    {
        if self.is_over() {
            Verdict::Ended
        } else {
            Verdict::Kept
        }
    }

    /// Gives the digest that its password must give, while it waits for one.
    pub(crate) fn expected_digest(&self) -> Option<[u8; 24]>
        ensures { unwrap_or result [] ≡ expected_at self.now }
    {
        match self {
            Phase::Verify(_, expected) => Some(*expected),
            Phase::Protocol | Phase::Identify | Phase::Normal(_) | Phase::Gone => None,
        }
    }

    /// Answers whether its user is present.
    pub(crate) fn is_present(&self) -> bool
        ensures { result ≡ is_present (stage_in self.now) }
    {
        match self {
            Phase::Normal(_) => true,
            Phase::Protocol | Phase::Identify | Phase::Verify(_, _) | Phase::Gone => false,
        }
    }
}

impl Seat {
    /// Makes the seat of a connection that has just joined.
    pub(crate) fn new(number: u64, sender: Sender) -> Seat
        ensures { result ≡ new_seat number sender }
    {
        Seat {
            number,
            sender,
            phase: Phase::Protocol,
        }
    }

    /// Gives the session identifier.
    fn sid(&self) -> Sid
        ensures { result ≡ self.now.sender.sid }
    {
        self.sender.sid
    }

    /// Changes the connection where its user is present and has this session identifier.
    pub(crate) fn change_if_named(&mut self, sid: Sid, change: SeatChange)
        ensures { self.new ≡ seat_after_change_at (Some (sid, change)) self.old }
    {
        if self.phase.is_present() && self.sender.sid == sid {
            self.change(change);
        }
    }

    /// Makes the change of the connection that an operator asked for.
    fn change(&mut self, change: SeatChange)
        ensures { self.new ≡ seat_after change self.old }
    {
        self.sender.notes.change(change);
        if change.is_removal() {
            self.phase = Phase::Gone;
        }
    }
}

/// Decides what a line of the connection of a seat leads to.
pub(crate) fn decide_at<'a>(
    alloc: Global,
    hub: &HubFacts<'_>,
    seat: &Seat,
    line: &'a Prepared,
    now: u64,
) -> Result<Effect<'a>, AllocError>
    ensures { IfOk result (λ effect. Decided hub.now seat.now line.now now effect) }
{
    let user = user_at(hub.users, seat);
    let own = SenderFacts {
        sender: &seat.sender,
        stage: seat.phase.stage(),
        fields: match user {
            Some(user) => Some(user.fields()),
            None => None,
        },
        expected: seat.phase.expected_digest(),
    };
    decide(alloc, hub, &own, user, line, now)
}

/// Gives the user of the connection of a seat, where it has one.
fn user_at<'a>(users: &'a IndexedUsers, seat: &'a Seat) -> Option<&'a User>
    ensures { option_copied result ≡ user_at seat.now.phase seat.now.sender.sid users.now }
{
    match &seat.phase {
        Phase::Verify(newcomer, _) => Some(&newcomer.user),
        Phase::Normal(_) => users.by_sid(seat.sender.sid),
        Phase::Protocol | Phase::Identify | Phase::Gone => None,
    }
}

/// Finds the place of a connection's seat. Seats stand in the order of their joins, so it is found without a walk.
pub(crate) fn place(seats: &[Seat], number: u64) -> usize
    requires seated { HasSeat number seats.now }
    requires rising { Rising (numbers seats.now) }
    ensures { IsPlace number result seats.now }
{
    match find(seats, number) {
        Some(place) => place,
        None => unreachable!(),
    }
}

/// Finds the place of a connection's seat, where it has one.
pub(crate) fn find(seats: &[Seat], number: u64) -> Option<usize>
    requires { Rising (numbers seats.now) }
    ensures { result ≡ position (λ (seat : Seat). seat.number == number) seats.now }
{
    match guess(seats, number) {
        Some(place) => Some(place),
        None => search(seats, number),
    }
}

/// Finds it where it is as long as nobody between it and the first has left: a search reads many seats, which lie far apart.
fn guess(seats: &[Seat], number: u64) -> Option<usize>
    requires { Rising (numbers seats.now) }
    ensures { IfSome result (λ place. position (λ (seat : Seat). seat.number == number) seats.now ≡ Some place) }
{
    let first = seats.first()?;
    let place = number.checked_sub(first.number)? as usize;
    if place >= seats.len() {
        return None;
    }
    if seats[place].number != number {
        return None;
    }
    Some(place)
}

fn search(seats: &[Seat], number: u64) -> Option<usize>
    requires { Rising (numbers seats.now) }
    ensures { result ≡ position (λ (seat : Seat). seat.number == number) seats.now }
{
    match seats.binary_search_by_key(&number, |seat| seat.number) {
        Ok(place) => Some(place),
        Err(_) => None,
    }
}

/// Answers whether a connection has a seat.
pub(crate) fn has_seat(seats: &[Seat], number: u64) -> bool
    requires { Rising (numbers seats.now) }
    ensures { result ≡ has_seat number seats.now }
{
    find(seats, number).is_some()
}

/// Puts a connection's seat behind the others, and its session identifier into the index, whole or not at all.
pub(crate) fn add(seats: &mut Vec<Seat>, index: &mut SidIndex, seat: Seat) -> Result<(), AllocError>
    ensures seats { OnOk result (seats.new.items ≡ seats.old.items ++ seat ∷ []) }
    ensures index { OnOk result (IsSetAtSid seat.sender.sid (Some seat.number) index.old index.new) }
    ensures err { OnErr result ((seats.new.items ≡ seats.old.items) × (index.new ≡ index.old)) }
{
    let (sid, number, count) = (seat.sid(), seat.number, seats.len());
    if seats.push(seat).is_err() {
        return Err(AllocError);
    }
    if index.put(sid, number).is_err() {
        seats.truncate(count);
        return Err(AllocError);
    }
    Ok(())
}

/// Gives the session identifiers that are taken.
pub(crate) fn sids(alloc: Global, seats: &[Seat]) -> Result<Vec<Sid>, AllocError>
    ensures { IfOk result (λ sids. sids.items ≡ map (λ (seat : Seat). seat.sender.sid) seats.now) }
{
    let mut sids = Vec::with_capacity(alloc, seats.len())?;
    for seat in seats {
        sids.push(seat.sender.sid)?;
    }
    Ok(sids)
}
