ghost use Rattle.std.specs.Prelude.{◌≡◌, ◌+◌, ◌<◌};
ghost use Rattle.hub_core.specs.declared.share.Touched.TheVariants.{Nobody};
ghost use Rattle.hub_shared.specs.Callers.{new_caller, host_of, IsAlone};

use crate::hub::Hub;
use crate::hub_key::HostSeat;
use crate::visitor::Visitor;
use hub_core::Touched;
use session_hash::SessionHash;
use std::marker::Model;

/// The host that admits visitors to a hub. Contracts see how many it has admitted.
pub struct Host<H> {
    pub(crate) seat: HostSeat<H>,
}

impl<H> Model for Host<H> {
    ghost use Rattle.hub_shared.specs.Callers.{HostState, host_of, IsAlone};

    ghost Value = { HostState H };

    ghost view = { λ h. host_of h.seat };

    ghost invariant = { λ h. IsAlone h.seat };
}

impl<H> Host<H> {
    /// Gives how many visitors were admitted.
    pub fn admitted(&self) -> u64
        ensures { result ≡ self.now.admitted }
    {
        self.seat.admitted()
    }

    pub(crate) fn into_seat(self) -> HostSeat<H>
        ensures shown { host_of result ≡ self }
        ensures alone { IsAlone result }
    {
        let Host { seat } = self;
        seat
    }
}

impl<H: SessionHash> Host<H> {
    /// Admits a visitor, whose number is the next, from 1 on. It has seen nothing and made nothing.
    /// Condition: fewer than 65,536 were admitted.
    pub fn admit(&mut self, hub: &Hub<H>) -> Visitor<H>
        requires here { self.old.home ≡ hub.now.home }
        requires room { self.old.admitted < 65_536 }
        ensures host { self.new ≡ record self.old { admitted = self.old.admitted + 1 } }
        ensures visitor { result ≡ record { home = hub.now.home; caller = new_caller (self.old.admitted + 1); touched = Nobody } }
    {
        Visitor {
            seat: self.seat.admit(&hub.lock),
            touched: Touched::Nobody,
        }
    }
}

impl<H> Drop for Host<H> {
    fn drop(self) {
        let Host { seat } = self;
        drop(seat);
    }
}
