ghost use Rattle.std.specs.Prelude.{◌≡◌, ◌≢◌, pos, Some, None};

use crate::answer::SystemAnswer;
use libc::types::rlimit;

/// Gives the number of descriptors that there may be, where the system says so.
pub fn descriptor_limit() -> SystemAnswer<Option<u64>> {
    let mut limit = rlimit {
        rlim_cur: 0,
        rlim_max: 0,
    };
    let status = libc::getrlimit(libc::RLIMIT_NOFILE, &mut limit);
    SystemAnswer {
        given: allowed_by(status, limit),
    }
}

/// Gives the number that the system allows, by its answer: the limit that holds now, and not what it may be raised to.
fn allowed_by(status: i32, limit: rlimit) -> Option<u64>
    ensures allowed { status ≡ pos 0 → result ≡ Some limit.rlim_cur }
    ensures unknown { status ≢ pos 0 → result ≡ None }
{
    match status {
        0 => Some(limit.rlim_cur),
        _ => None,
    }
}
