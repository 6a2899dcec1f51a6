ghost use Rattle.std.specs.Prelude.{◌≡◌};
ghost use Rattle.std.specs.Option.{option_copied};
ghost use Rattle.user_table.specs.Places.{place_from};
ghost use Rattle.user_table.specs.Tables.{has_sid, user_by_cid, user_by_key, user_by_sid};

use adc_base32::Sid;
use adc_ids::Cid;
use user_table::User;

pub(crate) fn by_sid(users: &[User], sid: Sid) -> Option<&User>
    ensures { option_copied result ≡ user_by_sid sid users.now }
{
    'users: for user in users {
        if user.sid() == sid {
            return Some(user);
        }
    }
    None
}

pub(crate) fn by_cid(users: &[User], cid: Cid) -> Option<&User>
    ensures { option_copied result ≡ user_by_cid cid users.now }
{
    'users: for user in users {
        if user.cid() == cid {
            return Some(user);
        }
    }
    None
}

pub(crate) fn by_key<'a>(users: &'a [User], key: &str) -> Option<&'a User>
    ensures { option_copied result ≡ user_by_key key.entry.now users.entry.now }
{
    'users: for user in users {
        if user.key() == key {
            return Some(user);
        }
    }
    None
}

/// Finds the place of the user with a session identifier.
#[tactic(auto, unfolding(user_table::specs::Places::place_from))]
pub(crate) fn place_of(users: &[User], sid: Sid) -> Option<usize>
    ensures { result ≡ place_from (has_sid sid) 0 users.now }
{
    let mut place = 0;
    'users: for user in users {
        if user.sid() == sid {
            return Some(place);
        }
        place += 1;
    }
    None
}
