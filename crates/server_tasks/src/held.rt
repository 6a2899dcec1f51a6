ghost use Rattle.std.specs.Prelude.{◌≡◌, ◌+◌, ◌<◌, ◌⊎◌, ℕ, true, false, None, Some, IsSomeAnd, IfSome, IfOk, is_some, length, slice_get, slice_set};
ghost use Rattle.std.specs.List.{list_any};
ghost use Rattle.std.specs.Time.{instant_nanos};
ghost use Rattle.futures.specs.Task.{IsArmed, Keeps, Wakes};
ghost use Rattle.server_tasks.specs.Lingers.{until_at, IsOldest, IsToGo, IsHeldOn, is_no_later};

use crate::lingering_socket::{LingeringSocket, is_past};
use futures::task::{Context, Poll, Source, Waker};
use std::alloc::{AllocError, Global};
use std::time::Instant;
use tokio::io::{AsyncRead, AsyncWrite};

/// The number of sockets that linger at a time at most.
const MOST: usize = 16;

/// The sockets that linger.
#[derive(Drop)]
pub(crate) struct Held<S> {
    places: Vec<Option<LingeringSocket<S>>>,
    ticker: Option<Waker>,
}

/// What was seen of those who linger, under their lock.
#[derive(Clone, Copy)]
pub struct Lingered {
    is_end: bool,
    some: bool,
}

impl Lingered {
    /// Answers whether some linger still.
    pub fn some(self) -> bool
        ensures { result ≡ self.some }
    {
        self.some
    }
}

/// The word that a socket is held until these moments: at the end, and at last. Only those who linger give it, under their lock.
#[derive(Drop)]
pub struct Kept {
    soon: Instant,
    until: Instant,
}

/// The word that the task was woken which reads those who linger. Only they give it, under their lock.
#[derive(Drop)]
pub(crate) struct TickerWoken(());

impl<S> Held<S> {
    pub(crate) fn wake_ticker(&mut self) -> TickerWoken
        ensures { self.new ≡ record self.old { ticker = None } }
    {
        self.ticker = None;
        TickerWoken(())
    }

    /// Gives the moment at which the socket of this place is closed at last.
    fn until_at(&self, place: usize) -> Option<Instant>
        ensures { result ≡ until_at self.now.places.items place }
    {
        match self.places.get(place) {
            Some(Some(held)) => Some(held.until()),
            _ => None,
        }
    }
}

impl<S: AsyncRead + AsyncWrite> Held<S> {
    /// Makes room for all sockets that ever linger at a time.
    pub(crate) fn new(alloc: Global) -> Result<Held<S>, AllocError>
        ensures { IfOk result (λ held. length held.places.items ≡ 16) }
    {
        let mut places = Vec::with_capacity(alloc, MOST)?;
        for _place in 0..MOST {
            places.push(None)?;
        }
        Ok(Held {
            places,
            ticker: None,
        })
    }

    /// Holds this one, and gives back what was held in its place, with the word of it.
    pub(crate) fn replace(
        &mut self,
        socket: LingeringSocket<S>,
    ) -> (Kept, Option<LingeringSocket<S>>)
        ensures soon { result.0.soon ≡ socket.soon }
        ensures until { result.0.until ≡ socket.until }
        ensures held { 0 < length self.old.places.items → (place : ℕ)
            × IsToGo self.old.places.items place × (slice_get self.old.places.items place ≡ Some result.1)
            × (self.new.places.items ≡ slice_set self.old.places.items place (Some socket)) }
        ensures woken { self.new.ticker ≡ None }
    {
        self.ticker = None;
        let kept = Kept {
            soon: socket.soon(),
            until: socket.until(),
        };
        let place = self.place();
        let before = match self.places.get_mut(place) {
            Some(place) => place.replace(socket),
            None => Some(socket),
        };
        (kept, before)
    }

    /// Finds a free place, or that of the one that is held for longest.
    fn place(&self) -> usize
        ensures goes { IsToGo self.now.places.items result }
        ensures there { 0 < length self.now.places.items → result < length self.now.places.items }
    {
        match self.places.iter().position(|held| held.is_none()) {
            Some(place) => place,
            None => self.oldest_place(),
        }
    }

    /// Finds the place of the one that is held for longest, where there is one.
    fn oldest_place(&self) -> usize
        ensures oldest { IsOldest self.now.places.items result }
        ensures there { 0 < length self.now.places.items → result < length self.now.places.items }
    {
        let mut oldest = 0;
        for place in 0..self.places.len() {
            if !self.is_older(oldest, place) {
                oldest = place;
            }
        }
        oldest
    }

    /// Answers whether the socket of one place is closed no later than that of another, if there is one.
    fn is_older(&self, one: usize, other: usize) -> bool
        ensures { result ≡ is_no_later (until_at self.now.places.items one) (until_at self.now.places.items other) }
    {
        match (self.until_at(one), self.until_at(other)) {
            (_, None) => true,
            (None, Some(_)) => false,
            (Some(one), Some(other)) => is_past(one, other),
        }
    }

    pub(crate) fn poll_lingering(
        &mut self,
        cx: &mut Context<'_>,
        source: &Source,
        now: Instant,
        is_end: bool,
    ) -> Lingered
        ensures asked { result.is_end ≡ is_end }
        ensures some { result.some ≡ list_any is_some self.new.places.items }
        ensures held { (place : ℕ) (was held : _) → slice_get self.old.places.items place ≡ Some was
            → slice_get self.new.places.items place ≡ Some held → IsHeldOn now is_end was held }
        ensures places { length self.new.places.items ≡ length self.old.places.items }
        ensures rests { (cx.new.lacks_waker ≡ true) ⊎ IsSomeAnd self.new.ticker (λ waker. Wakes waker cx.old) }
        ensures registered { IsArmed cx.new }
        ensures kept { Keeps cx.old cx.new }
    {
        for place in self.places.iter_mut() {
            hold_on(place, cx, now, is_end);
        }
        let some = self.places.iter().any(|place| place.is_some());
        let _: Poll<()> = cx.register(source, &mut self.ticker);
        Lingered { is_end, some }
    }
}

/// Drops what the client of this place has sent, and closes its socket where that is done.
fn hold_on<S: AsyncRead + AsyncWrite>(
    place: &mut Option<LingeringSocket<S>>,
    cx: &mut Context<'_>,
    now: Instant,
    is_end: bool,
)
    ensures held { IsHeldOn now is_end place.old place.new }
    ensures kept { Keeps cx.old cx.new }
{
    if let Some(held) = place
        && !held.lingers(cx, now, is_end)
    {
        *place = None;
    }
}
