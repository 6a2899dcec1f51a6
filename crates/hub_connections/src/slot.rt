ghost use Rattle.std.specs.Prelude.{◌≡◌};
ghost use Rattle.server_tasks.specs.declared.places.PlacesDeed.TheVariants.{Emptied};

use crate::cut_off::CutOff;
use futures::spin::GaveUp;
use server_tasks::{Closed, PlacesWord};
use std::marker::Model;

/// A slot of a server, in which one connection at a time is served. It cannot be dropped: whoever has it gives it back, so that the
/// next connection may have it, until the server is over. Contracts see its number.
pub struct Slot {
    number: usize,
}

impl Model for Slot {
    ghost use Rattle.std.specs.Prelude.{ℕ};

    ghost Value = { ℕ };

    ghost view = { λ slot. slot.number };
}

impl Slot {
    /// Makes that with this number.
    pub(crate) fn new(number: usize) -> Slot
        ensures { result ≡ number }
    {
        Slot { number }
    }

    /// Gives its number.
    pub fn number(&self) -> usize
        ensures { result ≡ self.now }
    {
        self.number
    }

    /// Ends that of a server that is over: nothing is left of it, as the word of that says.
    pub(crate) fn end(self, word: &PlacesWord)
        requires emptied { word.now ≡ Emptied }
    {
        let _ = word;
        let Slot { number: _ } = self;
    }

    /// Ends one that no free slot can be kept beside: its server was closed, as the word of that says.
    pub(crate) fn give_up(self, word: Result<Closed, GaveUp>) {
        drop(word);
        let Slot { number: _ } = self;
    }

    /// Ends that of a connection that is cut off, as this word says.
    pub(crate) fn cut_off(self, why: &CutOff) {
        let _ = why;
        let Slot { number: _ } = self;
    }
}
