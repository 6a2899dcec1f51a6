ghost use Rattle.std.specs.Prelude.{◌≡◌, Some, IsSome};
ghost use Rattle.one_history.specs.Seats.{IsOne};

use crate::lock::{AWAITED, Board};
use crate::rule::Recorded;

/// The word that a lock was given back, and that a thread which slept until then was woken, if any did.
#[derive(Drop)]
pub struct Released {
    woken: Option<OneWoken>,
}

// The word that a thread which slept was woken. Only `wake` makes it.
#[derive(Drop)]
struct OneWoken(());

// Wakes one thread where the word that was found in giving the lock back said that some sleep.
pub(crate) fn wake_after<T: Recorded<E, A>, E, A>(board: &Board<T, E, A>, found: u64) -> Released
    requires one { IsOne board.now.table_id }
    ensures woken { found ≡ 2 → IsSome result.woken }
{
    let woken = if found == AWAITED {
        Some(wake(board))
    } else {
        None
    };
    Released { woken }
}

// Wakes one thread that sleeps until the word is free.
fn wake<T: Recorded<E, A>, E, A>(board: &Board<T, E, A>) -> OneWoken
    requires { IsOne board.now.table_id }
{
    board.wake_one(0);
    OneWoken(())
}
