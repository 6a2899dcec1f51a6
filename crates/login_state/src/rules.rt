ghost use Rattle.std.specs.Prelude.{◌≡◌};
ghost use Rattle.login_state.specs.Rules.{wrong_words, missing, bad_required, bad_value, first_bad, foreign_pid, bad_nick_of_login, ban_denial, wrong_address, registration_denial, nick_taken, cid_taken, foreign_id, bad_nick, account_touched, too_many_fields};

use crate::deny::{Deny, Severity};
use crate::findings::{
    Account, Address, Admission, Ban, Claim, Identity, Required, Size, Validity,
};
use crate::named_field::{CHECKED, CHECKED_FIELDS, NamedField};

pub(crate) fn wrong_words(words: Validity) -> Option<Deny>
    ensures { result ≡ wrong_words words }
{
    match words {
        Validity::Bad => Some(Deny::Protocol),
        Validity::Good => None,
    }
}

pub(crate) fn missing(found: Required, field: NamedField) -> Option<Deny>
    ensures { result ≡ missing found field }
{
    match found {
        Required::Missing => Some(Deny::Missing(field)),
        Required::Bad | Required::Good => None,
    }
}

pub(crate) fn bad_required(found: Required, field: NamedField) -> Option<Deny>
    ensures { result ≡ bad_required found field }
{
    match found {
        Required::Bad => Some(Deny::BadField(Severity::Fatal, field)),
        Required::Missing | Required::Good => None,
    }
}

/// Denies a login or an update by the first of the checked fields whose value is not valid.
pub(crate) fn bad_value(severity: Severity, found: &[Validity; CHECKED]) -> Option<Deny>
    ensures { result ≡ bad_value severity found.now }
{
    match first_bad(&CHECKED_FIELDS, found) {
        Some(field) => Some(Deny::BadField(severity, field)),
        None => None,
    }
}

fn first_bad(fields: &[NamedField], values: &[Validity]) -> Option<NamedField>
    ensures { result ≡ first_bad fields.now values.now }
{
    match fields {
        [field, fields @ ..] => match values {
            [Validity::Bad, ..] => Some(*field),
            [Validity::Good, values @ ..] => first_bad(fields, values),
            [] => None,
        },
        [] => None,
    }
}

/// Denies a login whose identifier is not the hash of its private one.
pub(crate) fn foreign_pid(identity: Identity) -> Option<Deny>
    ensures { result ≡ foreign_pid identity }
{
    match identity {
        Identity::Foreign => Some(Deny::BadPid),
        Identity::Own => None,
    }
}

/// Denies an update that changes the identifier.
pub(crate) fn foreign_id(identity: Identity) -> Option<Deny>
    ensures { result ≡ foreign_id identity }
{
    match identity {
        Identity::Foreign => Some(Deny::BadField(Severity::Recoverable, NamedField::Id)),
        Identity::Own => None,
    }
}

pub(crate) fn bad_nick_of_login(nick: Required) -> Option<Deny>
    ensures { result ≡ bad_nick_of_login nick }
{
    match nick {
        Required::Bad => Some(Deny::BadNick(Severity::Fatal)),
        Required::Missing | Required::Good => None,
    }
}

pub(crate) fn bad_nick(nick: Validity) -> Option<Deny>
    ensures { result ≡ bad_nick nick }
{
    match nick {
        Validity::Bad => Some(Deny::BadNick(Severity::Recoverable)),
        Validity::Good => None,
    }
}

pub(crate) fn ban_denial(ban: Ban) -> Option<Deny>
    ensures { result ≡ ban_denial ban }
{
    match ban {
        Ban::Free => None,
        Ban::Ever => Some(Deny::BannedEver),
        Ban::For(seconds) => Some(Deny::BannedFor(seconds)),
    }
}

pub(crate) fn wrong_address(severity: Severity, address: Address) -> Option<Deny>
    ensures { result ≡ wrong_address severity address }
{
    match address {
        Address::Wrong(peer) => Some(Deny::Address(severity, peer)),
        Address::Right => None,
    }
}

pub(crate) fn registration_denial(admission: Admission) -> Option<Deny>
    ensures { result ≡ registration_denial admission }
{
    match admission {
        Admission::RegisteredOnly => Some(Deny::Registered),
        Admission::Admitted => None,
    }
}

/// Denies an update that leaves the nick of an account, or takes one.
pub(crate) fn account_touched(account: Account) -> Option<Deny>
    ensures { result ≡ account_touched account }
{
    match account {
        Account::Touched => Some(Deny::Access(*b"BINF")),
        Account::Untouched => None,
    }
}

pub(crate) fn too_many_fields(size: Size) -> Option<Deny>
    ensures { result ≡ too_many_fields size }
{
    match size {
        Size::TooMany => Some(Deny::Protocol),
        Size::Fits => None,
    }
}

pub(crate) fn nick_taken(severity: Severity, claim: Claim) -> Option<Deny>
    ensures { result ≡ nick_taken severity claim }
{
    match claim {
        Claim::Taken => Some(Deny::NickTaken(severity)),
        Claim::Free => None,
    }
}

pub(crate) fn cid_taken(claim: Claim) -> Option<Deny>
    ensures { result ≡ cid_taken claim }
{
    match claim {
        Claim::Taken => Some(Deny::CidTaken),
        Claim::Free => None,
    }
}
