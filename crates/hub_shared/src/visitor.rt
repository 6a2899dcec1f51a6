ghost use Rattle.std.specs.Prelude.{◌≡◌};
ghost use Rattle.hub_shared.specs.Callers.{visitor_of, IsVisitor};

use crate::hub_key::{HubKey, HubSeat};
use hub_core::{Core, Touched};
use hub_rules::Entry;
use one_history::{Seat, Seated};
use std::marker::Model;

/// A caller of a hub without a connection. Contracts see the caller's number, the beginning of the history that it has
/// seen, its own entries in it, and whom its last call concerned.
pub struct Visitor<H> {
    pub(crate) seat: HubSeat<H>,
    pub(crate) touched: Touched,
}

impl<H> Model for Visitor<H> {
    ghost use Rattle.hub_shared.specs.Callers.{VisitorState, visitor_of, IsVisitor};

    ghost Value = { VisitorState H };

    ghost view = { λ v. visitor_of v.seat v.touched };

    ghost invariant = { λ v. IsVisitor v.seat };
}

impl<H> Visitor<H> {
    /// Names whom the visitor's last call concerned, which was the quit of its connection or a join that was refused. It may
    /// name somebody too many. Before its first call it names nobody.
    pub fn touched(&self) -> Touched
        ensures { result ≡ self.now.touched }
    {
        self.touched
    }

    pub(crate) fn into_idle(self) -> HubSeat<H>
        ensures shown { visitor_of result self.touched ≡ self }
        ensures visitor { IsVisitor result }
    {
        let Visitor { seat, touched: _ } = self;
        seat
    }
}

impl<H> Seated<Box<Core>, Entry, HubKey<H>> for Visitor<H> {
    ghost use Rattle.hub_shared.specs.Callers.{seat_of};

    ghost seat = { seat_of };

    fn into_seat(self) -> Seat<Box<Core>, Entry, HubKey<H>> {
        let Visitor { seat, touched: _ } = self;
        seat
    }
}

impl<H> Drop for Visitor<H> {
    fn drop(self) {
        let Visitor { seat, touched: _ } = self;
        drop(seat);
    }
}
