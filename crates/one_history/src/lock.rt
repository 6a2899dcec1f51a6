ghost use Rattle.std.specs.Prelude.{◌≡◌, true, false, ◌∷◌, ◌<◌, [], length, MatchBool, OnOk, OnErr, Some};
ghost use Rattle.one_history.specs.Histories.{Begins, entries};
ghost use Rattle.one_history.specs.States.{IsIdleAt, IsHolderAt};
ghost use Rattle.one_history.specs.Seats.{IsOne, IsIdle, IsReady, IsUnchanged};
ghost use Rattle.one_history.specs.Rule.{Fair};
ghost use Rattle.one_history.specs.Plays.{Seizes, with_entry, without_entry};

use crate::released::{Released, wake_after};
use crate::rule::{MadeEntry, OneHistory, Recorded};
use crate::seat::Seat;
use crate::steps::{GiveStep, PutsBack, Takes};
use crate::view::SeatView;
use crate::word_taken::WordTaken;
use atomic_table::{Shared, Table};
use std::alloc::Global;
use std::hint::spin_loop;
use std::marker::Model;
use std::sync::Wait;

/// A lock over a value that stands at a history of entries. All that its callers made stands in one
/// legal history. Contracts see which lock it is, and what its values are about.
pub struct Lock<T: Recorded<E, A>, E, A> {
    pub(crate) table: Table<Option<T>, SeatView<E, A>, A, OneHistory, Global>,
}

impl<T: Recorded<E, A>, E, A> Model for Lock<T, E, A> {
    ghost use Rattle.one_history.specs.States.{LockState};
    ghost use Rattle.one_history.specs.Seats.{IsOne};

    ghost Value = { LockState A };

    ghost view = { λ l. record { table = l.table.shared.table_id; about = l.table.shared.key } };

    ghost invariant = { λ l. IsOne l.table.shared.table_id };
}

impl<T: Recorded<E, A>, E, A> Lock<T, E, A> {
    /// Takes the value out. The seat has then seen the whole history, at which the value stands.
    /// It waits while another seat holds the value, and it is the only call that does.
    pub fn acquire<R: Wait>(&self, rt: &R, seat: &mut Seat<T, E, A>) -> T
        requires idle { IsIdleAt self.now seat.old }
        ensures seat { seat.new ≡ record seat.old { seen = seat.new.seen; holds = true } }
        ensures begins { Begins seat.new.seen seat.old.seen }
        ensures legal { T.legal self.now.about seat.new.seen }
        ensures entries { entries T.by seat.old.number seat.new.seen ≡ seat.old.mine }
        ensures stands { T.stands self.now.about result seat.new.seen }
    {
        let board = &self.table.shared;
        seize(rt, board, &mut seat.place);
        let Some(value) = board.exchange(&mut seat.place, 0, None) else {
            unreachable!()
        };
        value
    }

    /// Gives the value back with one more entry, which is the caller's own, and gives the word that who slept was woken. The
    /// history ends with the entry. The proof of a call picks it, at `Brand` for `B`.
    pub fn release_with<B: MadeEntry<E>>(&self, seat: &mut Seat<T, E, A>, value: T) -> Released
        requires holds { IsHolderAt self.now seat.old }
        requires mine { T.by B.entry ≡ seat.old.number }
        requires legal { T.legal self.now.about (B.entry ∷ seat.old.seen) }
        requires stands { T.stands self.now.about value (B.entry ∷ seat.old.seen) }
        ensures seat { let seen = B.entry ∷ seat.old.seen in
            let mine = B.entry ∷ seat.old.mine in
            seat.new ≡ record seat.old { seen = seen; mine = mine; holds = false } }
        ensures entries { entries T.by seat.new.number seat.new.seen ≡ seat.new.mine }
    {
        let board = &self.table.shared;
        let before = board.exchange(&mut seat.place, 0, Some(value));
        let None = before else { unreachable!() };
        release_with::<B, T, E, A>(board, &mut seat.place)
    }

    /// Gives the value back as it stood, with no entry, and gives the word that who slept was woken.
    pub fn release(&self, seat: &mut Seat<T, E, A>, value: T) -> Released
        requires holds { IsHolderAt self.now seat.old }
        requires stands { T.stands self.now.about value seat.old.seen }
        ensures { seat.new ≡ record seat.old { holds = false } }
    {
        let board = &self.table.shared;
        let before = board.exchange(&mut seat.place, 0, Some(value));
        let None = before else { unreachable!() };
        release(board, &mut seat.place)
    }

    pub(crate) fn into_table(self) -> Table<Option<T>, SeatView<E, A>, A, OneHistory, Global>
        ensures shown { (result.shared.table_id ≡ self.table) × (result.shared.key ≡ self.about) }
        ensures one { IsOne result.shared.table_id }
    {
        let Lock { table } = self;
        table
    }
}

impl<T: Recorded<E, A> + Drop, E, A> Drop for Lock<T, E, A> {
    fn drop(self) {
        let Lock { table } = self;
        drop(table);
    }
}

// The word: 0 free, 1 taken, 2 taken while other threads sleep until it is given back.
// The table as threads share it, and a seat at it.
pub(crate) type Board<T, E, A> = Shared<Option<T>, SeatView<E, A>, A, OneHistory>;

pub(crate) type LockSeat<T, E, A> = atomic_table::Seat<Option<T>, SeatView<E, A>>;

pub(crate) const FREE: u64 = 0;

const TAKEN: u64 = 1;

pub(crate) const AWAITED: u64 = 2;

// The looks of a thread at the word before it sleeps. Most holders are done sooner than a sleep
// and a wake take.
const LOOKS: u32 = 100;

// Takes the word, and with it the slot. Sleeps while another seat has them.
pub(crate) fn seize<T: Recorded<E, A>, E, A, R: Wait>(
    rt: &R,
    board: &Board<T, E, A>,
    place: &mut LockSeat<T, E, A>,
)
    requires one { IsOne board.now.table_id }
    requires here { place.old.table_id ≡ board.now.table_id }
    requires idle { IsIdle place.old.me }
    requires caller { 0 < length place.old.me.0.claims }
    ensures same { (place.new.table_id ≡ place.old.table_id) × (place.new.id ≡ place.old.id) }
    ensures seized { Seizes T.by T.legal T.stands place.old.me place.new.me }
{
    if watch(board, place) {
        return;
    }
    for _ in rt.forever() {
        match claim(board, place) {
            Ok(()) => return,
            Err(taken) => taken.sleep(rt, board),
        }
    }
    unreachable!()
}

// Takes the word where it is found free within a bounded number of looks.
fn watch<T: Recorded<E, A>, E, A>(board: &Board<T, E, A>, place: &mut LockSeat<T, E, A>) -> bool
    requires one { IsOne board.now.table_id }
    requires here { place.old.table_id ≡ board.now.table_id }
    requires idle { IsIdle place.old.me }
    requires caller { 0 < length place.old.me.0.claims }
    ensures same { (place.new.table_id ≡ place.old.table_id) × (place.new.id ≡ place.old.id) }
    ensures seized { let seized = Seizes T.by T.legal T.stands place.old.me place.new.me in
        MatchBool result seized (place.new.me ≡ place.old.me) }
{
    if attempt(board, place) {
        return true;
    }
    for _ in 0..LOOKS {
        spin_loop();
        if board.peek(0) == FREE && attempt(board, place) {
            return true;
        }
    }
    false
}

// Takes the word if it is free.
fn attempt<T: Recorded<E, A>, E, A>(board: &Board<T, E, A>, place: &mut LockSeat<T, E, A>) -> bool
    requires one { IsOne board.now.table_id }
    requires here { place.old.table_id ≡ board.now.table_id }
    requires idle { IsIdle place.old.me }
    requires caller { 0 < length place.old.me.0.claims }
    ensures same { (place.new.table_id ≡ place.old.table_id) × (place.new.id ≡ place.old.id) }
    ensures seized { let seized = Seizes T.by T.legal T.stands place.old.me place.new.me in
        MatchBool result seized (place.new.me ≡ place.old.me) }
{
    board.compare_exchange::<Takes>(place, 0, FREE, TAKEN) == FREE
}

// Takes the word if it is free. Where it is taken, whoever gives it back is told that somebody sleeps, as the caller has to.
fn claim<T: Recorded<E, A>, E, A>(
    board: &Board<T, E, A>,
    place: &mut LockSeat<T, E, A>,
) -> Result<(), WordTaken>
    requires one { IsOne board.now.table_id }
    requires here { place.old.table_id ≡ board.now.table_id }
    requires idle { IsIdle place.old.me }
    requires caller { 0 < length place.old.me.0.claims }
    ensures same { (place.new.table_id ≡ place.old.table_id) × (place.new.id ≡ place.old.id) }
    ensures seized { OnOk result (Seizes T.by T.legal T.stands place.old.me place.new.me) }
    ensures kept { OnErr result (place.new.me ≡ place.old.me) }
{
    if board.swap::<Takes>(place, 0, AWAITED) == FREE {
        Ok(())
    } else {
        Err(WordTaken::new())
    }
}

// Gives the word and the slot back with an entry.
pub(crate) fn release_with<B: MadeEntry<E>, T: Recorded<E, A>, E, A>(
    board: &Board<T, E, A>,
    place: &mut LockSeat<T, E, A>,
) -> Released
    requires one { IsOne board.now.table_id }
    requires here { place.old.table_id ≡ board.now.table_id }
    requires ready { IsReady T.by T.legal T.stands B.entry place.old.me }
    ensures same { (place.new.table_id ≡ place.old.table_id) × (place.new.id ≡ place.old.id) }
    ensures added { place.new.me ≡ with_entry B.entry place.old.me }
    ensures fair { (a : A) → place.old.me.0.about ≡ Some a → Fair T.by (T.legal a) place.new.me.0 }
{
    wake_after(board, board.swap::<GiveStep<B>>(place, 0, FREE))
}

// Gives both back unchanged.
pub(crate) fn release<T: Recorded<E, A>, E, A>(
    board: &Board<T, E, A>,
    place: &mut LockSeat<T, E, A>,
) -> Released
    requires one { IsOne board.now.table_id }
    requires here { place.old.table_id ≡ board.now.table_id }
    requires ready { IsUnchanged T.stands place.old.me }
    ensures same { (place.new.table_id ≡ place.old.table_id) × (place.new.id ≡ place.old.id) }
    ensures returned { place.new.me ≡ without_entry place.old.me }
{
    wake_after(board, board.swap::<PutsBack>(place, 0, FREE))
}
