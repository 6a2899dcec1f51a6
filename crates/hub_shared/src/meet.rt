ghost use Rattle.std.specs.Prelude.{◌≡◌};
ghost use Rattle.hub_shared.specs.Calls.{Saw};

use crate::calls::Pass;
use crate::hub::Hub;
use session_hash::SessionHash;

impl<H: SessionHash> Hub<H> {
    /// Lets two callers compare what they have seen. Both passes come back, in the order given. Afterwards both have seen
    /// the same history, which is the longer of the two and begins with the other. It waits for nothing, takes no memory,
    /// and succeeds. Condition: both passes are of this hub.
    pub fn meet(&self, left: Pass<H>, right: Pass<H>) -> (Pass<H>, Pass<H>)
        requires left { left.home ≡ self.now.home }
        requires right { right.home ≡ self.now.home }
        ensures left { result.0 ≡ record left { caller = result.0.caller } }
        ensures right { result.1 ≡ record right { caller = result.1.caller } }
        ensures saw_left { Saw self.now.setup (H.digest_of self.now.hash) left.caller result.0.caller }
        ensures saw_right { Saw self.now.setup (H.digest_of self.now.hash) right.caller result.1.caller }
        ensures common { result.0.caller.seen ≡ result.1.caller.seen }
    {
        let (touched, other_touched) = (left.touched(), right.touched());
        let (seat, connection) = left.into_parts();
        let (other_seat, other_connection) = right.into_parts();
        let (seat, other_seat) = self.lock.meet(seat, other_seat);
        let left = Pass {
            seat,
            connection,
            touched,
        };
        let right = Pass {
            seat: other_seat,
            connection: other_connection,
            touched: other_touched,
        };
        (left, right)
    }
}
