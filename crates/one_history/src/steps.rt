ghost use Rattle.one_history.specs.Plays.{Tries, Adds, Returns, Learns};
ghost use Rattle.one_history.specs.Plays.{admitting, newly, paired, left_of, right_of, gathering};
ghost use Rattle.one_history.specs.Rule.{spent};

use crate::rule::{MadeEntry, Recorded};
use crate::view::SeatView;
use atomic_table::{Join, Play, Split};
use std::marker::PhantomData;

// The step that takes the word and with it the slot, or finds it taken.
pub(crate) struct Takes;

impl<T: Recorded<E, A>, E, A> Play<Option<T>, SeatView<E, A>> for Takes {
    ghost then = { Tries T.by T.legal T.stands };
}

// The step that gives both back with an entry.
pub(crate) struct GiveStep<B> {
    entry: PhantomData<B>,
}

impl<T: Recorded<E, A>, E, A, B: MadeEntry<E>> Play<Option<T>, SeatView<E, A>> for GiveStep<B> {
    ghost then = { Adds T.by T.legal B.entry };
}

// The step that gives both back unchanged.
pub(crate) struct PutsBack;

impl<T, E, A> Play<Option<T>, SeatView<E, A>> for PutsBack {
    ghost then = { Returns };
}

// The step that looks, and changes nothing.
pub(crate) struct LookStep;

impl<T: Recorded<E, A>, E, A> Play<Option<T>, SeatView<E, A>> for LookStep {
    ghost then = { Learns T.by T.legal };
}

// The step that splits off a newly admitted caller's seat.
pub(crate) struct Admits;

impl<E, A> Split<SeatView<E, A>> for Admits {
    ghost left = { admitting };

    ghost right = { newly };
}

// The step that joins two callers' seats, and splits them again.
pub(crate) struct Meets;

impl<E, A> Join<SeatView<E, A>> for Meets {
    ghost both = { paired };

    ghost spent = { spent };
}

impl<E, A> Split<SeatView<E, A>> for Meets {
    ghost left = { left_of };

    ghost right = { right_of };
}

// The step that joins a caller's seat to the host's.
pub(crate) struct Gathers;

impl<E, A> Join<SeatView<E, A>> for Gathers {
    ghost both = { gathering };

    ghost spent = { spent };
}
