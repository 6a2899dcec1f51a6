ghost use Rattle.std.specs.Prelude.{◌≡◌, [], Some};
ghost use Rattle.one_history.specs.Histories.{Begins, entries};
ghost use Rattle.one_history.specs.States.{IsIdleAt};
ghost use Rattle.one_history.specs.Rule.{Fair};
ghost use Rattle.one_history.specs.Plays.{paired};
ghost use Rattle.one_history.specs.Seats.{IsOne, IsIdle};

use crate::lock::{Board, Lock, LockSeat};
use crate::rule::Recorded;
use crate::seat::Seat;
use crate::steps::{LookStep, Meets};

impl<T: Recorded<E, A>, E, A> Lock<T, E, A> {
    /// Lets two callers compare what they have seen. Both seats come back, in the order given. Each
    /// has then seen the longer of the two histories, which begins with the other.
    pub fn meet(&self, left: Seat<T, E, A>, right: Seat<T, E, A>) -> (Seat<T, E, A>, Seat<T, E, A>)
        requires left { IsIdleAt self.now left }
        requires right { IsIdleAt self.now right }
        ensures left { result.0 ≡ record left { seen = result.0.seen } }
        ensures right { result.1 ≡ record right { seen = result.0.seen } }
        ensures begins_left { Begins result.0.seen left.seen }
        ensures begins_right { Begins result.0.seen right.seen }
        ensures legal { T.legal self.now.about result.0.seen }
        ensures left_entries { entries T.by left.number result.0.seen ≡ left.mine }
        ensures right_entries { entries T.by right.number result.0.seen ≡ right.mine }
    {
        let board = &self.table.shared;
        let mut first = left.into_place();
        compare(board, &mut first, right.into_place());
        let second = board.split_seat::<Meets>(&mut first);
        (Seat { place: first }, Seat { place: second })
    }
}

// Puts both callers into one seat, which shows that the longer history begins with both.
fn compare<T: Recorded<E, A>, E, A>(
    board: &Board<T, E, A>,
    first: &mut LockSeat<T, E, A>,
    second: LockSeat<T, E, A>,
)
    requires one { IsOne board.now.table_id }
    requires here { (first.old.table_id ≡ board.now.table_id) × (second.table_id ≡ board.now.table_id) }
    requires idle { IsIdle first.old.me × IsIdle second.me }
    requires guest { second.me.0.count ≡ 0 }
    ensures same { first.new.table_id ≡ first.old.table_id }
    ensures pair { first.new.me ≡ (paired first.old.me.0 second.me.0, []) }
    ensures fair { let pair = paired first.old.me.0 second.me.0 in
        (a : A) → first.old.me.0.about ≡ Some a → Fair T.by (T.legal a) pair }
{
    board.join_seat::<Meets>(first, second);
    board.load::<LookStep>(first, 0);
}
