ghost use Rattle.std.specs.Prelude.{◌≡◌, ◌+◌, ◌++◌, [], None, IfSome, length};
ghost use Rattle.std.specs.Option.{option_to_list};
ghost use Rattle.server_tasks.specs.HandOff.{arrivals_in};

use crate::places::Place;
use std::marker::Model;

/// The connections that were left in a hand-off and not taken. Contracts see their list. `end`
/// ends it, once `next` has given nothing.
pub struct LeftPlaces<T> {
    places: Vec<Place<T>>,
}

impl<T> Model for LeftPlaces<T> {
    ghost use Rattle.std.specs.Prelude.{List};

    ghost Value = { List T };

    ghost use Rattle.server_tasks.specs.HandOff.{arrivals_in};

    ghost view = { λ left. arrivals_in left.places.items };
}

impl<T> LeftPlaces<T> {
    pub(crate) fn of(places: Vec<Place<T>>) -> LeftPlaces<T>
        ensures { result ≡ arrivals_in places.items }
    {
        LeftPlaces { places }
    }

    /// Gives the last of them, or nothing where none is left.
    pub fn next(&mut self) -> Option<T>
        ensures given { self.old ≡ self.new ++ option_to_list result }
        ensures over { result ≡ None → self.new ≡ [] }
        ensures fewer { IfSome result (λ _. length self.new + 1 ≡ length self.old) }
    {
        next_in(&mut self.places)
    }

    /// Ends it. Condition: nothing is left.
    pub fn end(self)
        requires { self ≡ [] }
    {
        let LeftPlaces { mut places } = self;
        match next_in(&mut places) {
            Some(_) => unreachable!(),
            None => places.destroy_empty(),
        }
    }
}

/// Takes the last connection out of these places, with the places behind it: all of them where there is none.
fn next_in<T>(places: &mut Vec<Place<T>>) -> Option<T>
    ensures given { arrivals_in places.old.items ≡ arrivals_in places.new.items ++ option_to_list result }
    ensures over { result ≡ None → places.new.items ≡ [] }
{
    while let Some(Place { arrival, waker }) = places.pop() {
        drop(waker);
        match arrival {
            Some(arrival) => return Some(arrival),
            None => {}
        }
    }
    None
}
