//! The grounds on which a login, an update and a password are denied: a test each, and what is said where it holds (ADC 1.0, "INF", "PAS").

ghost use Rattle.std.specs.Prelude.{◌≡◌, IfOk};
ghost use Rattle.std.specs.List.{find};
ghost use Rattle.hub_rules.specs.Grounds.{ban_ground, first_ground, is_bad, is_digest, is_empty, is_wrong_address, value_ground};

use crate::field_values::value_in_update;
use inf_fields::{Update, dotted_decimal, is_bad_number};
use login_state::{CHECKED_FIELDS, Deny, NamedField, Severity};
use operator_acts::Left;
use std::alloc::{AllocError, Global};

/// Gives the denial of the first ground that holds.
pub(crate) fn first_ground(grounds: &[(bool, Deny)]) -> Option<Deny>
    ensures { result ≡ first_ground grounds.now }
{
    for (holds, deny) in grounds {
        if *holds {
            return Some(*deny);
        }
    }
    None
}

pub(crate) fn is_empty(text: &str) -> bool
    ensures { result ≡ is_empty text.now }
{
    match text.as_bytes() {
        [] => true,
        [_, ..] => false,
    }
}

/// Tells whether a digest is the expected one.
pub(crate) fn is_digest(expected: &[u8; 24], digest: Option<[u8; 24]>) -> bool
    ensures { result ≡ is_digest expected.now digest }
{
    match digest {
        Some(digest) => digest == *expected,
        None => false,
    }
}

/// Makes the ground that the value of a checked field is none of its kind: the first such field.
pub(crate) fn value_ground(severity: Severity, update: &Update) -> (bool, Deny)
    ensures { result ≡ value_ground severity update.now }
{
    match first_bad(update, &CHECKED_FIELDS) {
        Some(field) => (true, Deny::BadField(severity, field)),
        None => (false, Deny::BadField(severity, NamedField::Id)),
    }
}

fn first_bad(update: &Update, fields: &[NamedField]) -> Option<NamedField>
    ensures { result ≡ find (is_bad update.now) fields.now }
{
    for field in fields {
        if is_bad(update, *field) {
            return Some(*field);
        }
    }
    None
}

/// Tells whether a field's value is none of its kind: a number.
fn is_bad(update: &Update, field: NamedField) -> bool
    ensures { result ≡ is_bad update.now field }
{
    is_bad_number(value_in_update(update, field.name()))
}

/// Tells whether an address is wrong: it is neither empty, nor `0.0.0.0`, nor the peer's. Refused only where memory runs out.
pub(crate) fn is_wrong_address(
    alloc: Global,
    peer: [u8; 4],
    address: &str,
) -> Result<bool, AllocError>
    ensures { IfOk result (λ wrong. wrong ≡ is_wrong_address peer address.now) }
{
    let seen = dotted_decimal(alloc, peer)?;
    Ok(!(is_empty(address) || address == "0.0.0.0" || address == seen.as_str()))
}

/// Makes the ground that a user is banned: for good, or for so many seconds more.
pub(crate) fn ban_ground(left: Left) -> (bool, Deny)
    ensures { result ≡ ban_ground left }
{
    match left {
        Left::Free => (false, Deny::BannedEver),
        Left::Ever => (true, Deny::BannedEver),
        Left::For(seconds) => (true, Deny::BannedFor(seconds)),
    }
}
