ghost use Rattle.std.specs.Prelude.{◌≡◌, IfOk};
ghost use Rattle.adc_line.specs.WordsLeft.{words_left};
ghost use Rattle.hub_decisions.specs.Known.{IsUser};
ghost use Rattle.hub_decisions.specs.Requested.{effect_of_password};
ghost use Rattle.hub_rules.specs.Denied.{digest_given};
ghost use Rattle.hub_rules.specs.Grounds.{is_digest, password_grounds};

use crate::denial::denial;
use crate::entering;
use crate::grounds::{ban_ground, first_ground, is_digest};
use crate::hub_facts::HubFacts;
use crate::present::{has_cid, has_key};
use crate::sender_facts::SenderFacts;
use adc_base32::decode24;
use adc_line::Words;
use hub_rules::Effect;
use login_state::{Deny, Severity};
use std::alloc::{AllocError, Global};
use user_table::User;

/// Decides what the password leads to that a user gives (ADC 1.0, "PAS").
///
/// Denied: a password that gives another digest than the expected one (223). Denied next is what may have changed since the
/// login: a ban (231, 232), a present user with the nick (222) or with the client identifier (224). Changes: the user
/// enters. Told: as at an entry. Refused only where memory runs out.
pub(crate) fn decide_password<'a>(
    alloc: Global,
    hub: &HubFacts<'_>,
    own: &SenderFacts<'_>,
    user: &User,
    words: Words<'_>,
    now: u64,
) -> Result<Effect<'a>, AllocError>
    ensures { IfOk result (λ effect. IsUser own.now user.now → effect ≡ effect_of_password hub.now own.now now (words_left words.entry)) }
{
    match first_ground(&password_grounds(hub, own, user, digest_given(words), now)) {
        Some(deny) => denial(alloc, own, deny),
        None => entering::effect_of_entry(alloc, hub, own, user),
    }
}

/// Makes the grounds of a password: it is wrong, or something changed since the login.
fn password_grounds(
    hub: &HubFacts<'_>,
    own: &SenderFacts<'_>,
    user: &User,
    digest: Option<[u8; 24]>,
    now: u64,
) -> [(bool, Deny); 4]
    ensures { result ≡ password_grounds hub.now own.now now digest user.now }
{
    let left = hub.bans.left(user.cid(), now);
    [
        (!is_expected(own, digest), Deny::Password),
        ban_ground(left),
        (has_key(hub, user.key()), Deny::NickTaken(Severity::Fatal)),
        (has_cid(hub, user.cid()), Deny::CidTaken),
    ]
}

/// Tells whether a digest is the expected one. Where none is expected, none is.
fn is_expected(own: &SenderFacts<'_>, digest: Option<[u8; 24]>) -> bool
    ensures { result ≡ is_digest own.now.expected digest }
{
    match &own.expected {
        Some(expected) => is_digest(expected, digest),
        None => false,
    }
}

/// Reads the digest that the first parameter spells.
fn digest_given(words: Words<'_>) -> Option<[u8; 24]>
    ensures { result ≡ digest_given (words_left words.entry) }
{
    let mut words = words;
    let word = words.next()?;
    decode24(word.as_bytes()).ok()
}
