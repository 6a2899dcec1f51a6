// A line for which memory may be refused.
ghost use Rattle.std.specs.Prelude.{◌≡◌};

use crate::refusal::*;
use crate::shared::guests::{Guest, Hall, hears, looks, sends};
use hub_core::LineRefused;

const HI: &[u8] = b"BMSG AAAB hi";

/// Says hi to all, and tells whether it was said; not where memory was refused.
pub(crate) fn is_said<R: Wait + Abort + Print>(rt: &R, hall: &Hall, guest: &mut Guest) -> bool
    requires { guest.old.pass.home ≡ hall.now.hub.home }
    ensures { guest.new.pass.home ≡ hall.now.hub.home }
{
    match sends(rt, hall, guest, HI) {
        Ok(verdict) => {
            assert!(rt; verdict == Verdict::Kept, "{verdict:?}");
            true
        }
        Err(LineRefused::Memory) => false,
    }
}

/// Tests that nothing waits for a guest.
pub(crate) fn is_told_nothing<R: Wait + Abort + Print>(rt: &R, hall: &Hall, guest: &mut Guest)
    requires { guest.old.pass.home ≡ hall.now.hub.home }
    ensures { guest.new.pass.home ≡ hall.now.hub.home }
{
    let look = looks(rt, hall, guest);
    assert!(rt; look.waiting == 0, "{look:?}");
}

/// Tests that the line waits for a guest, once, and nothing else.
pub(crate) fn hears_it_once<R: Wait + Abort + Print>(rt: &R, hall: &Hall, guest: &mut Guest)
    requires { guest.old.pass.home ≡ hall.now.hub.home }
    ensures { guest.new.pass.home ≡ hall.now.hub.home }
{
    let heard = hears(rt, hall, guest);
    let hi = b"BMSG AAAB hi\n".as_slice();
    assert!(rt; heard.as_slice() == hi, "{heard:?}");
}
