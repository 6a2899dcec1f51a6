ghost use Rattle.std.specs.Prelude.{◌≡◌, ◌<◌, ◌≤◌, ◌++◌, true, length, map, take, Some, IfOk, OnErr, OnOk};
ghost use Rattle.std.specs.List.{concat};
ghost use Rattle.hub_core.specs.Deliveries.{AreAll, AreReady, AreSettled, HaveRoom, IsDelivery, IsForAll, WaitsAs};
ghost use Rattle.hub_core.specs.Deliveries.{delivered, given_all, given_to_all, named_in, row_given, with_members};
ghost use Rattle.hub_core.specs.Index.{AreIndexedBySid, keys};
ghost use Rattle.hub_core.specs.Numbers.{Rising, numbers};
ghost use Rattle.hub_core.specs.Seats.{seat_after_change_at};
ghost use Rattle.hub_core.specs.State.{IsPlace};
ghost use Rattle.hub_core.specs.Backlogs.{ends_by, here_in};
ghost use Rattle.shared_log.specs.Tables.{IsSettled, at_row, backlog_at, taken, with_membership, with_rows};

use crate::seat::Seat;
use crate::share::{Share, change_at, sender_share, shares};
use crate::sid_index::SidIndex;
use adc_base32::Sid;
use feature_route::Audience;
use hub_rules::{Effect, Hearers, SeatChange};
use outboxes::{Batch, TakeRefused, Taken};
use shared_log::Backlogs;
use std::alloc::{AllocError, Global};

/// The lines that the effect of a line gives, made before anything changes.
#[derive(Drop)]
pub enum Delivery {
    /// The lines for each user who is present but the sender, and the sender's.
    All(Batch, Batch),
    /// The share of each that hears something; and the user whose connection an operator changes, with the change.
    Each(Vec<Share>, Option<(Sid, SeatChange)>),
}

/// Makes what an effect of a connection gives, whose seat stands at this place. Lines for all users are not counted out to
/// each.
pub(crate) fn plan(
    alloc: Global,
    seats: &[Seat],
    index: &SidIndex,
    number: u64,
    place: usize,
    effect: &Effect<'_>,
) -> Result<Delivery, AllocError>
    requires place { IsPlace number place seats.now }
    requires rising { Rising (numbers seats.now) }
    requires indexed { AreIndexedBySid index.now (keys seats.now) }
    ensures { IfOk result (λ delivery. IsDelivery delivery place number effect.now seats.now) }
{
    if is_for_all(effect) {
        let own = sender_share(alloc, &seats[place], effect)?;
        return Ok(Delivery::All(effect.others.share()?, own));
    }
    let shares = shares(alloc, seats, index, number, place, effect)?;
    Ok(Delivery::Each(shares, change_at(&effect.change)))
}

/// Answers whether each user who is present but the sender hears the same lines, and no operator changes a connection.
fn is_for_all(effect: &Effect<'_>) -> bool
    ensures { result ≡ true → IsForAll effect.now }
{
    !effect.others.is_empty()
        && is_everybody(&effect.hearers)
        && change_at(&effect.change).is_none()
}

#[tactic(auto, using(crate::proofs::Rows::all_but, crate::proofs::Rows::all_those))]
fn is_everybody(hearers: &Hearers<'_>) -> bool
    ensures { result ≡ true → AreAll hearers.now }
{
    match hearers {
        Hearers::Others | Hearers::Those(Audience::All) => true,
        Hearers::Those(_) => false,
    }
}

/// Makes room for what will be given. What may be refused memory is done here, and nothing that waits changes.
pub(crate) fn prepare(
    backlogs: &mut Backlogs,
    place: usize,
    delivery: &Delivery,
) -> Result<(), AllocError>
    requires { place < length backlogs.old.rows }
    ensures kept { WaitsAs backlogs.old backlogs.new }
    ensures ready { OnOk result (AreReady delivery.now place backlogs.new) }
{
    match delivery {
        Delivery::All(_, _) => backlogs.reserve()?,
        Delivery::Each(shares, named) => match named {
            Some(_) => settle_all(backlogs)?,
            None => settle_each(backlogs, shares)?,
        },
    }
    backlogs.settle(place)
}

/// Moves what waits for each connection to where lines of its own can follow.
fn settle_all(backlogs: &mut Backlogs) -> Result<(), AllocError>
    ensures kept { WaitsAs backlogs.old backlogs.new }
    ensures settled { OnOk result (AreSettled backlogs.new) }
{
    for place in 0..backlogs.len() {
        backlogs.settle(place)?;
    }
    Ok(())
}

/// Does the same for those that have a share.
fn settle_each(backlogs: &mut Backlogs, shares: &[Share]) -> Result<(), AllocError>
    ensures kept { WaitsAs backlogs.old backlogs.new }
    ensures settled { OnOk result (HaveRoom shares.now backlogs.new) }
{
    for share in shares {
        if share.place < backlogs.len() {
            backlogs.settle(share.place)?;
        }
    }
    Ok(())
}

/// Gives what was made ready, and changes the connection of the user that an operator names. It takes no memory. The sender's
/// seat stands at this place.
pub(crate) fn deliver(seats: &mut [Seat], backlogs: &mut Backlogs, place: usize, delivery: Delivery)
    requires ready { AreReady delivery place backlogs.old }
    requires place { place < length seats.old }
    requires within { place < length backlogs.old.rows }
    ensures seats { seats.new ≡ map (seat_after_change_at (named_in delivery)) seats.old }
    ensures backlogs { WaitsAs (with_rows (delivered delivery place (here_in seats.new) backlogs.old.rows) backlogs.old) backlogs.new }
{
    match delivery {
        Delivery::All(others, own) => {
            give_all(backlogs, place, others, own);
            set_member(backlogs, place, seats[place].phase.is_present());
        }
        Delivery::Each(shares, named) => {
            give_each(backlogs, shares);
            match named {
                None => set_member(backlogs, place, seats[place].phase.is_present()),
                Some((sid, change)) => {
                    change_named(seats, sid, change);
                    set_members(backlogs, seats);
                }
            }
        }
    }
}

/// Gives each member lines but the sender, and the sender its own. It is no member then.
fn give_all(backlogs: &mut Backlogs, place: usize, others: Batch, own: Batch)
    requires ready { backlogs.old.is_ready ≡ true }
    requires settled { IsSettled place backlogs.old }
    requires within { place < length backlogs.old.rows }
    ensures rows { WaitsAs (with_rows (given_to_all others own place backlogs.old.rows) backlogs.old) backlogs.new }
    ensures settled { IsSettled place backlogs.new }
{
    backlogs.leave(place);
    backlogs.give_members(others);
    give_some(backlogs, place, own);
}

/// Gives a connection lines of its own. Of none nothing happens.
fn give_some(backlogs: &mut Backlogs, place: usize, lines: Batch)
    requires { IsSettled place backlogs.old }
    ensures { backlogs.new ≡ at_row place (row_given lines) backlogs.old }
{
    if !lines.is_empty() {
        backlogs.give(place, lines);
    }
}

fn give_each(backlogs: &mut Backlogs, shares: Vec<Share>)
    requires { HaveRoom shares.items backlogs.old }
    ensures { backlogs.new ≡ with_rows (given_all shares.items backlogs.old.rows) backlogs.old }
{
    for share in shares {
        if share.place < backlogs.len() {
            give_some(backlogs, share.place, share.lines);
        } else {
            drop(share);
        }
    }
}

/// Makes a connection a member if its user is present, and none if it is not.
fn set_member(backlogs: &mut Backlogs, place: usize, is_here: bool)
    requires { IsSettled place backlogs.old }
    ensures { backlogs.new ≡ at_row place (with_membership is_here) backlogs.old }
{
    if is_here {
        backlogs.enter(place);
    } else {
        backlogs.leave(place);
    }
}

fn set_members(backlogs: &mut Backlogs, seats: &[Seat])
    requires { AreSettled backlogs.old }
    ensures { backlogs.new ≡ with_rows (with_members 0 (here_in seats.now) backlogs.old.rows) backlogs.old }
{
    for (place, seat) in seats.iter().enumerate() {
        if place < backlogs.len() {
            set_member(backlogs, place, seat.phase.is_present());
        }
    }
}

fn change_named(seats: &mut [Seat], sid: Sid, change: SeatChange)
    ensures { seats.new ≡ map (seat_after_change_at (Some (sid, change))) seats.old }
{
    for seat in seats.iter_mut() {
        seat.change_if_named(sid, change);
    }
}

/// Takes the first `count` lines that wait for a connection, or all if fewer wait. Nothing more comes if it is over, or lags.
pub(crate) fn take_lines(
    backlogs: &mut Backlogs,
    place: usize,
    is_over: bool,
    count: usize,
    out: &mut Vec<u8>,
) -> Result<Taken, TakeRefused>
    requires place { place < length backlogs.old.rows }
    requires some { 1 ≤ count }
    requires few { count ≤ 256 }
    ensures ok { OnOk result (WaitsAs (at_row place (taken count) backlogs.old) backlogs.new) }
    ensures bytes { OnOk result (out.new.items ≡ out.old.items ++ concat (take count (backlog_at place backlogs.old).lines)) }
    ensures lines { IfOk result (λ taken. taken.lines ≡ length (take count (backlog_at place backlogs.old).lines)) }
    ensures ended { IfOk result (λ taken. taken.ended ≡ ends_by is_over count (backlog_at place backlogs.old)) }
    ensures err { OnErr result (WaitsAs backlogs.old backlogs.new × (out.new.items ≡ out.old.items)) }
{
    let taken = backlogs.take(place, count, out)?;
    let nothing_left = backlogs.waiting(place) == 0;
    Ok(Taken {
        lines: taken.lines,
        ended: taken.ended | (nothing_left & is_over),
    })
}
