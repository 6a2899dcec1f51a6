ghost use Rattle.std.specs.Prelude.{◌≡◌, ◌≢◌, ◌<◌, ◌≤◌, ◌++◌, [], ℕ, Some, true, get_or, length, map, if◌then◌else◌, IfNone, IfOk, IfSome, OnOk};
ghost use Rattle.hub_core.specs.Index.{AreIndexedBySid, keys};
ghost use Rattle.hub_core.specs.Numbers.{Rising, numbers};
ghost use Rattle.hub_core.specs.Owed.{AreQuietBut, IsMeant, IsOnlyFor, share_at, shares_from};
ghost use Rattle.hub_core.specs.Phases.{is_among, phase_hears, stage_in};
ghost use Rattle.hub_core.specs.Seats.{own_share, seat_share};
ghost use Rattle.hub_core.specs.State.{IsPlace};
ghost use Rattle.hub_core.specs.TouchedSids.{NamesEffect, NamesHearers, NamesOthers, NamesOwed, falls, names};
ghost use Rattle.hub_core.specs.declared.seat.Seat.{Seat};
ghost use Rattle.hub_rules.specs.declared.effect.Change.TheVariants.{Sender};
ghost use Rattle.hub_rules.specs.declared.effect.Hearers.TheVariants.{Those};
ghost use Rattle.hub_rules.specs.Effects.{is_present};
ghost use Rattle.hub_rules.specs.Shares.{change_at};

use crate::seat::{Phase, Seat, find};
use crate::sid_index::SidIndex;
use adc_base32::Sid;
use feature_route::{Audience, FeatureSet};
use hub_rules::{Change, Effect, Hearers, HubChange, SeatChange, SenderChange};
use outboxes::Batch;
use std::alloc::{AllocError, Global};

/// The lines that one call owes to one connection.
#[derive(Drop)]
pub struct Share {
    /// The place of its seat.
    pub(crate) place: usize,
    /// The lines.
    pub(crate) lines: Batch,
}

/// Makes what an effect of a connection owes to those connections that hear something. All of it is made before any is
/// given. Where it is known who may hear something, the other seats are not looked at. Who sent the line has the seat at the
/// place that is passed.
pub(crate) fn shares(
    alloc: Global,
    seats: &[Seat],
    index: &SidIndex,
    number: u64,
    place: usize,
    effect: &Effect<'_>,
) -> Result<Vec<Share>, AllocError>
    requires place { IsPlace number place seats.now }
    requires rising { Rising (numbers seats.now) }
    requires indexed { AreIndexedBySid index.now (keys seats.now) }
    ensures { IfOk result (λ shares. shares.items ≡ shares_from 0 (seat_share number effect.now) seats.now) }
{
    match reach(seats, index, number, place, effect) {
        Some(other) if other < place => two_shares(alloc, seats, other, place, number, effect),
        Some(other) => two_shares(alloc, seats, place, other, number, effect),
        None => all_shares(alloc, seats, number, effect),
    }
}

/// Finds the seat beside the sender's at which it has to be looked, since the effect may owe its connection something: `None`
/// where that may be any. It is the sender's own where there is no other. A user whom a line names is found without a walk
/// over the seats.
fn reach(
    seats: &[Seat],
    index: &SidIndex,
    number: u64,
    place: usize,
    effect: &Effect<'_>,
) -> Option<usize>
    requires place { IsPlace number place seats.now }
    requires rising { Rising (numbers seats.now) }
    requires indexed { AreIndexedBySid index.now (keys seats.now) }
    ensures { IfSome result (λ other. AreQuietBut place other (seat_share number effect.now) seats.now) }
{
    let own = seats[place].sender.sid;
    let sid = meant(effect, own)?;
    if sid == own {
        return Some(place);
    }
    match place_by_sid(seats, index, sid) {
        Some(other) => Some(other),
        None => Some(place),
    }
}

/// Gives the session identifier of the only user beside the sender who may hear the others' lines of an effect: `None` where
/// there may be more. It is the sender's own where nobody else hears them.
fn meant(effect: &Effect<'_>, own: Sid) -> Option<Sid>
    ensures { IfSome result (λ sid. IsMeant own sid effect.now) }
{
    if effect.others.is_empty() {
        return Some(own);
    }
    match &effect.hearers {
        Hearers::Others => None,
        Hearers::Those(audience) => meant_by(audience, own),
    }
}

fn meant_by(audience: &Audience<'_>, own: Sid) -> Option<Sid>
    ensures { IfSome result (λ sid. IsOnlyFor own sid audience.now) }
{
    match audience {
        Audience::Nobody => Some(own),
        Audience::One(sid) => Some(*sid),
        Audience::Two(sid, other) if *other == own => Some(*sid),
        Audience::Two(_, _) | Audience::All | Audience::Having(_) => None,
    }
}

/// Finds the place of the seat with this session identifier.
fn place_by_sid(seats: &[Seat], index: &SidIndex, sid: Sid) -> Option<usize>
    requires rising { Rising (numbers seats.now) }
    requires indexed { AreIndexedBySid index.now (keys seats.now) }
    ensures some { IfSome result (λ place. (i : ℕ) (d : Seat) → i < length seats.now → i ≢ place → (get_or seats.now i d).sender.sid ≢ sid) }
    ensures within { IfSome result (λ place. place < length seats.now) }
    ensures none { IfNone result ((i : ℕ) (d : Seat) → i < length seats.now → (get_or seats.now i d).sender.sid ≢ sid) }
{
    find(seats, index.get(sid)?)
}

/// Makes the shares of the seats at two places, which may be one, where no other is owed anything.
fn two_shares(
    alloc: Global,
    seats: &[Seat],
    first: usize,
    second: usize,
    number: u64,
    effect: &Effect<'_>,
) -> Result<Vec<Share>, AllocError>
    requires order { first ≤ second }
    requires quiet { AreQuietBut first second (seat_share number effect.now) seats.now }
    ensures { IfOk result (λ shares. shares.items ≡ shares_from 0 (seat_share number effect.now) seats.now) }
{
    let mut shares = Vec::new(alloc);
    push_owed(alloc, &mut shares, first, &seats[first], number, effect)?;
    if second == first {
        return Ok(shares);
    }
    push_owed(alloc, &mut shares, second, &seats[second], number, effect)?;
    Ok(shares)
}

fn all_shares(
    alloc: Global,
    seats: &[Seat],
    number: u64,
    effect: &Effect<'_>,
) -> Result<Vec<Share>, AllocError>
    ensures { IfOk result (λ shares. shares.items ≡ shares_from 0 (seat_share number effect.now) seats.now) }
{
    let mut shares = Vec::with_capacity(alloc, expected_shares(seats, &effect.hearers))?;
    for (place, seat) in seats.iter().enumerate() {
        push_owed(alloc, &mut shares, place, seat, number, effect)?;
    }
    Ok(shares)
}

/// Adds what a seat is owed, where it hears anything. Of most seats a look shows that they do not.
fn push_owed(
    alloc: Global,
    shares: &mut Vec<Share>,
    place: usize,
    seat: &Seat,
    number: u64,
    effect: &Effect<'_>,
) -> Result<(), AllocError>
    ensures { OnOk result (shares.new.items ≡ shares.old.items ++ share_at place (seat_share number effect.now seat.now)) }
{
    if seat.number == number {
        return push_share(shares, place, sender_share(alloc, seat, effect)?);
    }
    if hears(&seat.phase, false, &effect.hearers, seat.sender.sid) {
        return push_share(shares, place, effect.others.share()?);
    }
    Ok(())
}

/// Makes the share of the connection that sent the line, which has this seat.
pub(crate) fn sender_share(
    alloc: Global,
    seat: &Seat,
    effect: &Effect<'_>,
) -> Result<Batch, AllocError>
    ensures { IfOk result (λ share. share ≡ own_share effect.now seat.now) }
{
    let hears = hears(&seat.phase, true, &effect.hearers, seat.sender.sid);
    lines_owed(alloc, hears, effect)
}

/// Gives about how many shares there will be.
fn expected_shares(seats: &[Seat], hearers: &Hearers<'_>) -> usize {
    match hearers {
        Hearers::Others | Hearers::Those(Audience::All) => seats.len(),
        Hearers::Those(_) => 0,
    }
}

/// Adds the share of a seat, where it has lines.
fn push_share(shares: &mut Vec<Share>, place: usize, lines: Batch) -> Result<(), AllocError>
    ensures { OnOk result (shares.new.items ≡ shares.old.items ++ share_at place lines) }
{
    if !lines.is_empty() {
        shares.push(Share { place, lines })?;
    }
    Ok(())
}

/// Makes the share of the connection that sent the line, which may hear what others hear.
fn lines_owed(alloc: Global, hears: bool, effect: &Effect<'_>) -> Result<Batch, AllocError>
    ensures { IfOk result (λ share. share ≡ (if hears then effect.now.others else []) ++ effect.now.own) }
{
    let mut share = Batch::new(alloc);
    if hears && share.push_all(&effect.others).is_err() {
        return Err(AllocError);
    }
    if share.push_all(&effect.own).is_err() {
        return Err(AllocError);
    }
    Ok(share)
}

/// Answers whether a connection hears what users hear.
fn hears(phase: &Phase, is_caller: bool, hearers: &Hearers<'_>, sid: Sid) -> bool
    ensures { result ≡ phase_hears phase.now is_caller hearers.now sid }
{
    match phase {
        Phase::Normal(support) => is_among(is_caller, hearers, sid, support),
        Phase::Protocol | Phase::Identify | Phase::Verify(_, _) | Phase::Gone => false,
    }
}

fn is_among(is_caller: bool, hearers: &Hearers<'_>, sid: Sid, support: &FeatureSet) -> bool
    ensures { result ≡ is_among is_caller hearers.now sid support.now }
{
    match hearers {
        Hearers::Others => !is_caller,
        Hearers::Those(audience) => audience.holds_set(sid, support),
    }
}

/// Names the user whose connection an operator changes, with the change.
pub(crate) fn change_at(change: &Change) -> Option<(Sid, SeatChange)>
    ensures { result ≡ change_at change.now }
{
    match change {
        Change::Hub(HubChange::At(sid, change)) => Some((*sid, *change)),
        Change::Hub(HubChange::Ban(banned)) => Some((banned.sid, SeatChange::Gone)),
        Change::Hub(HubChange::Unban(_) | HubChange::Topic(_)) => None,
        Change::Nothing | Change::Sender(_) => None,
    }
}

/// The users whom a call concerned: to whose connections it gave lines, or whom it shut out. It is a hint for those who
/// wake what waits for lines. Everybody whom a line or a quit concerned is named, and maybe somebody too many.
#[derive(Clone, Copy, Debug, PartialEq, Eq)]
pub enum Touched {
    /// No user.
    Nobody,
    /// The connection with this session identifier.
    One(Sid),
    /// The connections with these.
    Two(Sid, Sid),
    /// All users.
    Everybody,
}

/// Names whom the effect of a line of the connection with this identifier concerns. Whoever is present is told that an
/// operator changes a user's connection.
pub(crate) fn touched_by_line(sid: Sid, effect: &Effect<'_>) -> Touched
    ensures { NamesEffect result sid effect.now }
{
    match change_at(&effect.change) {
        Some(_) => Touched::Everybody,
        None => touched_by(sid, effect),
    }
}

/// Names to whom the effect owes lines, and the connection that sent the line where it is shut out.
fn touched_by(sid: Sid, effect: &Effect<'_>) -> Touched
    ensures owed { NamesOwed result sid effect.now }
    ensures fallen { falls effect.now.change ≡ true → names result sid ≡ true }
{
    let hearing = touched_others(effect);
    if effect.own.is_empty() && !falls(&effect.change) {
        return hearing;
    }
    with_sender(hearing, sid)
}

/// Answers whether a change shuts out the connection that sent the line.
fn falls(change: &Change) -> bool
    ensures { result ≡ falls change.now }
{
    match change {
        Change::Sender(change) => is_fall(change),
        Change::Nothing | Change::Hub(_) => false,
    }
}

fn is_fall(change: &SenderChange) -> bool
    ensures { result ≡ falls (Sender change.now) }
{
    match change {
        SenderChange::Falls => true,
        SenderChange::Greets(_)
        | SenderChange::Waits(_, _)
        | SenderChange::Enters
        | SenderChange::EntersAs(_)
        | SenderChange::Learns(_)
        | SenderChange::Updates(_)
        | SenderChange::Searches(_) => false,
    }
}

/// Names who may hear the lines of an effect that are for others.
fn touched_others(effect: &Effect<'_>) -> Touched
    ensures { NamesOthers result effect.now }
{
    if effect.others.is_empty() {
        return Touched::Nobody;
    }
    hearing(&effect.hearers)
}

/// Names the sender of a line, too; everybody, where these are more than two.
fn with_sender(hearing: Touched, sid: Sid) -> Touched
    ensures hearing { (s : ℕ) → names hearing s ≡ true → names result s ≡ true }
    ensures sender { names result sid ≡ true }
{
    match hearing {
        Touched::Nobody => Touched::One(sid),
        Touched::One(one) => Touched::Two(one, sid),
        Touched::Two(_, _) | Touched::Everybody => Touched::Everybody,
    }
}

/// Names whom it concerns that a connection leaves which has come this far.
pub(crate) fn touched_by_quit(phase: &Phase) -> Touched
    ensures { is_present (stage_in phase.now) ≡ true → (sid : ℕ) → names result sid ≡ true }
{
    if phase.is_present() {
        Touched::Everybody
    } else {
        Touched::Nobody
    }
}

fn hearing(hearers: &Hearers<'_>) -> Touched
    ensures { NamesHearers result hearers.now }
{
    match hearers {
        Hearers::Others => Touched::Everybody,
        Hearers::Those(audience) => among(audience),
    }
}

fn among(audience: &Audience<'_>) -> Touched
    ensures { NamesHearers result (Those audience.now) }
{
    match audience {
        Audience::All | Audience::Having(_) => Touched::Everybody,
        Audience::One(sid) => Touched::One(*sid),
        Audience::Two(one, other) => Touched::Two(*one, *other),
        Audience::Nobody => Touched::Nobody,
    }
}
