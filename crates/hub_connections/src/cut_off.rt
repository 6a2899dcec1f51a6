ghost use Rattle.std.specs.Prelude.{◌≡◌};
ghost use Rattle.server_tasks.specs.declared.places.PlacesDeed.TheVariants as deeds;

use crate::served_slot::Unfinished;
use server_tasks::PlacesWord;

/// The word that nobody serves a connection to its end. It cannot be dropped.
pub struct CutOff(());

impl CutOff {
    /// Gives it where the server's runtime ended before the session did.
    pub(crate) fn unfinished(word: Unfinished) -> CutOff {
        word.end();
        CutOff(())
    }

    /// Gives it where the hand-off gave a connection back that was to be left for this slot.
    pub(crate) fn given_back(word: &PlacesWord, slot: usize) -> CutOff
        requires { word.now ≡ deeds.Put slot }
    {
        // They only say what was done.
        let _ = word;
        let _ = slot;
        CutOff(())
    }

    /// Gives it where the server has ended, and no task took a connection that was left.
    pub(crate) fn left(word: &PlacesWord) -> CutOff
        requires { word.now ≡ deeds.Emptied }
    {
        // It only says what was done.
        let _ = word;
        CutOff(())
    }

    /// Ends it.
    pub fn end(self) {
        let CutOff(()) = self;
    }
}
