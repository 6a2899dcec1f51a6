ghost use Rattle.one_history.specs.Seats.{IsOne};

use crate::lock::{AWAITED, Board};
use crate::rule::Recorded;
use std::sync::Wait;

// The word of the lock was taken, and whoever gives it back is told that somebody sleeps. It cannot be dropped: whoever has it
// sleeps before the next try.
pub(crate) struct WordTaken(());

impl WordTaken {
    pub(crate) fn new() -> WordTaken {
        WordTaken(())
    }

    // Sleeps until the word is given back, if it still says that somebody does.
    pub(crate) fn sleep<T: Recorded<E, A>, E, A, R: Wait>(self, rt: &R, board: &Board<T, E, A>)
        requires one { IsOne board.now.table_id }
    {
        let WordTaken(()) = self;
        board.park(rt, 0, AWAITED as u32);
    }
}
