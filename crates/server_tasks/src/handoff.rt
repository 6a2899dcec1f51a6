ghost use Rattle.std.specs.Prelude.{◌≡◌};
ghost use Rattle.futures.specs.Task.{IsArmed, Keeps};
ghost use Rattle.futures.specs.Poll.{OnPending};

use crate::left::LeftPlaces;
use crate::places::{Places, PlacesDeed, PlacesWord};
use futures::task::{Context, Poll, Source};
use std::alloc::{AllocError, Global};
use std::sync::{Mutex, Wait};

/// The places in which the accept task leaves a connection for the task that is to serve it. There is one place a slot,
/// made at the start, so that a connection that comes takes no memory for its task. A connection may be a value that may not be
/// dropped: so a hand-off is ended by `into_left`, which gives back those that were not taken.
pub struct Handoff<T> {
    source: Source,
    places: Mutex<Places<T>>,
}

impl<T> Handoff<T> {
    /// Makes a place for each of `count` slots, each of which a task serves. Refused only where memory runs out.
    pub(crate) fn new(alloc: Global, count: usize) -> Result<Handoff<T>, AllocError> {
        Ok(Handoff {
            source: Source::new(),
            places: Mutex::new(Places::new(alloc, count)?),
        })
    }

    /// Leaves a connection for this slot, and wakes its task. Gives it back where there is no such slot, and what was left
    /// there before where that was not taken, with the word of it.
    pub fn put<R: Wait>(&self, rt: &R, slot: usize, arrival: T) -> (PlacesWord, Option<T>)
        ensures { result.0 ≡ PlacesDeed.Put slot }
    {
        self.places.lock(rt).put(slot, arrival)
    }

    /// Takes the next connection of this slot, or nothing where nobody comes any more, with the word of it.
    pub fn poll_next<R: Wait>(
        &self,
        rt: &R,
        slot: usize,
        cx: &mut Context<'_>,
    ) -> (PlacesWord, Poll<Option<T>>)
        ensures word { result.0 ≡ PlacesDeed.Asked slot }
        ensures registered { OnPending result.1 (IsArmed cx.new) }
        ensures kept { Keeps cx.old cx.new }
    {
        self.places.lock(rt).poll_next(slot, cx, &self.source)
    }

    /// Lets nobody come any more: the tasks end that serve nobody. Gives the word of it.
    pub(crate) fn close<R: Wait>(&self, rt: &R) -> PlacesWord
        ensures { result ≡ PlacesDeed.NobodyComes }
    {
        self.places.lock(rt).close()
    }

    /// Notes that the task of a slot has ended, and gives the word of it.
    pub(crate) fn end_one<R: Wait>(&self, rt: &R) -> PlacesWord
        ensures { result ≡ PlacesDeed.TaskEnded }
    {
        self.places.lock(rt).end_one()
    }

    /// Answers whether all of them have.
    pub(crate) fn is_over<R: Wait>(&self, rt: &R) -> bool {
        self.places.lock(rt).is_over()
    }

    /// Ends it, and gives the connections that were left and not taken, with the word of it.
    pub(crate) fn into_left(self) -> (PlacesWord, LeftPlaces<T>)
        ensures { result.0 ≡ PlacesDeed.Emptied }
    {
        let Handoff { source, places } = self;
        drop(source);
        places.into_inner().into_left()
    }
}
