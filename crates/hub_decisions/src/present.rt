ghost use Rattle.std.specs.Prelude.{◌≡◌};
ghost use Rattle.hub_rules.specs.Views.{is_account, is_here};
ghost use Rattle.user_table.specs.Tables.{has_cid, has_key, has_sid};

use crate::hub_facts::HubFacts;
use adc_base32::Sid;
use adc_ids::Cid;
use user_table::Users;

/// Answers whether a user is present who has this session identifier. Takes no memory.
pub(crate) fn has_sid(hub: &HubFacts<'_>, sid: Sid) -> bool
    ensures { result ≡ is_here (has_sid sid) hub.now }
{
    hub.users.by_sid(sid).is_some()
}

/// Answers whether a user is present whose nick has this key. Takes no memory.
pub(crate) fn has_key(hub: &HubFacts<'_>, key: &str) -> bool
    ensures { result ≡ is_here (has_key key.now) hub.now }
{
    hub.users.by_nick(key).is_some()
}

/// Answers whether a user is present who has this client identifier. Takes no memory.
pub(crate) fn has_cid(hub: &HubFacts<'_>, cid: Cid) -> bool
    ensures { result ≡ is_here (has_cid cid) hub.now }
{
    hub.users.by_cid(cid).is_some()
}

/// Answers whether this is the key of an account's nick. Takes no memory.
pub(crate) fn is_account(hub: &HubFacts<'_>, key: &str) -> bool
    ensures { result ≡ is_account hub.now key.now }
{
    hub.setup.account(key).is_some()
}
