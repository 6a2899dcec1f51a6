ghost use Rattle.std.specs.Prelude.{◌≡◌, ◌-◌, ◌<◌, ◌≤◌, ◌⊎◌, ◌↔◌, ℕ, true, false, Some, None, IsTrue, IsSomeAnd, IfOk, length, slice_get};
ghost use Rattle.futures.specs.Task.{IsArmed, Keeps, Wakes};
ghost use Rattle.server_tasks.specs.Becomes.{EachBecomes};
ghost use Rattle.server_tasks.specs.HandOff.{next_of, has_left, awake, arrivals_in, OthersStayLeft};
ghost use Rattle.futures.specs.Poll.{OnPending};

use crate::left::LeftPlaces;
use futures::task::{Context, Poll, Source, Waker};
use std::alloc::{AllocError, Global};
use std::marker::Model;

/// What is under the lock of a hand-off.
pub(crate) struct Places<T> {
    places: Vec<Place<T>>,
    // The number of slots that a task serves.
    served: usize,
    // Nobody comes any more.
    is_closed: bool,
}

pub(crate) struct Place<T> {
    pub(crate) arrival: Option<T>,
    pub(crate) waker: Option<Waker>,
}

/// What was done to the places.
#[derive(Clone, Copy)]
pub enum PlacesDeed {
    /// A connection was left for the slot, and its task woken.
    Put(usize),
    /// It was asked for the next connection of the slot.
    Asked(usize),
    /// Nobody comes any more, and all tasks were woken that rested.
    NobodyComes,
    /// The task of a slot has ended.
    TaskEnded,
    /// All that was left was given back.
    Emptied,
}

/// The word of what was done to the places. Only they give it, under their lock, as they do it. Contracts see the deed.
#[derive(Drop)]
pub struct PlacesWord {
    deed: PlacesDeed,
}

impl Model for PlacesWord {
    ghost use Rattle.server_tasks.specs.declared.places.PlacesDeed.{PlacesDeed};

    ghost Value = { PlacesDeed };

    ghost view = { λ word. word.deed };
}

impl<T> Places<T> {
    /// Makes a place for each of `count` slots.
    pub(crate) fn new(alloc: Global, count: usize) -> Result<Places<T>, AllocError>
        ensures { IfOk result (λ all. (all.served ≡ count) × (length all.places.items ≡ count) × (all.is_closed ≡ false)) }
    {
        let mut places = Vec::with_capacity(alloc, count)?;
        for _slot in 0..count {
            places.push_reserved(Place {
                arrival: None,
                waker: None,
            });
        }
        Ok(Places {
            places,
            served: count,
            is_closed: false,
        })
    }

    /// Leaves a connection for this slot, and wakes its task. Gives back what was left there before, or this one where there is
    /// no such slot.
    pub(crate) fn put(&mut self, slot: usize, arrival: T) -> (PlacesWord, Option<T>)
        ensures word { result.0 ≡ PlacesDeed.Put slot }
        ensures left { slot < length self.old.places.items → slice_get self.new.places.items slot ≡ Some (has_left arrival) }
        ensures before { (place : Place T) → slice_get self.old.places.items slot ≡ Some place → result.1 ≡ place.arrival }
        ensures nowhere { length self.old.places.items ≤ slot → result.1 ≡ Some arrival }
        ensures others { OthersStayLeft self.old.places.items self.new.places.items slot }
        ensures served { self.new.served ≡ self.old.served }
        ensures closed { self.new.is_closed ≡ self.old.is_closed }
    {
        let before = match self.places.get_mut(slot) {
            Some(place) => {
                place.waker = None;
                place.arrival.replace(arrival)
            }
            None => Some(arrival),
        };
        let word = PlacesWord {
            deed: PlacesDeed::Put(slot),
        };
        (word, before)
    }

    /// Takes the next connection of this slot, or nothing where nobody comes any more. Otherwise its task rests.
    pub(crate) fn poll_next(
        &mut self,
        slot: usize,
        cx: &mut Context<'_>,
        source: &Source,
    ) -> (PlacesWord, Poll<Option<T>>)
        ensures word { result.0 ≡ PlacesDeed.Asked slot }
        ensures given { (place : Place T) → slice_get self.old.places.items slot ≡ Some place → result.1 ≡ next_of place.arrival self.old.is_closed }
        ensures nowhere { length self.old.places.items ≤ slot → result.1 ≡ Poll.Ready None }
        ensures taken { (place : Place T) → slice_get self.new.places.items slot ≡ Some place → place.arrival ≡ None }
        ensures rests { OnPending result.1 ((place : Place T) → slice_get self.new.places.items slot ≡ Some place
            → (cx.new.lacks_waker ≡ true) ⊎ IsSomeAnd place.waker (λ waker. Wakes waker cx.old)) }
        ensures others { OthersStayLeft self.old.places.items self.new.places.items slot }
        ensures served { self.new.served ≡ self.old.served }
        ensures closed { self.new.is_closed ≡ self.old.is_closed }
        ensures registered { OnPending result.1 (IsArmed cx.new) }
        ensures kept { Keeps cx.old cx.new }
    {
        let word = PlacesWord {
            deed: PlacesDeed::Asked(slot),
        };
        let is_closed = self.is_closed;
        let Some(place) = self.places.get_mut(slot) else {
            return (word, Poll::Ready(None));
        };
        let next = match place.arrival.take() {
            Some(arrival) => Poll::Ready(Some(arrival)),
            None if is_closed => Poll::Ready(None),
            None => cx.register(source, &mut place.waker),
        };
        (word, next)
    }

    /// Lets nobody come any more, wakes all tasks that rest, and gives the word of it.
    pub(crate) fn close(&mut self) -> PlacesWord
        ensures word { result ≡ PlacesDeed.NobodyComes }
        ensures closed { self.new.is_closed ≡ true }
        ensures woken { EachBecomes awake self.old.places.items self.new.places.items }
        ensures served { self.new.served ≡ self.old.served }
    {
        self.is_closed = true;
        for place in self.places.iter_mut() {
            place.waker = None;
        }
        PlacesWord {
            deed: PlacesDeed::NobodyComes,
        }
    }

    /// Notes that the task of a slot has ended, and gives the word of it.
    pub(crate) fn end_one(&mut self) -> PlacesWord
        ensures word { result ≡ PlacesDeed.TaskEnded }
        ensures served { self.new ≡ record self.old { served = self.old.served - 1 } }
    {
        self.served = self.served.saturating_sub(1);
        PlacesWord {
            deed: PlacesDeed::TaskEnded,
        }
    }

    /// Answers whether all of them have.
    pub(crate) fn is_over(&self) -> bool
        ensures { IsTrue result ↔ (self.now.served ≡ 0) }
    {
        self.served == 0
    }

    /// Gives what was left in the places and not taken, with the word of it.
    pub(crate) fn into_left(self) -> (PlacesWord, LeftPlaces<T>)
        ensures word { result.0 ≡ PlacesDeed.Emptied }
        ensures left { result.1 ≡ arrivals_in self.places.items }
    {
        let Places {
            places,
            served: _,
            is_closed: _,
        } = self;
        let word = PlacesWord {
            deed: PlacesDeed::Emptied,
        };
        (word, LeftPlaces::of(places))
    }
}
