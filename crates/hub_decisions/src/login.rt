ghost use Rattle.std.specs.Prelude.{◌≡◌, ◌&&◌, not, [], IfOk, Ok};
ghost use Rattle.std.specs.String.{string_bytes};
ghost use Rattle.hub_decisions.specs.Admissions.{IsAdmission, MayEnter, cid_of};
ghost use Rattle.hub_decisions.specs.Requested.{effect_of_login, inf_in};
ghost use Rattle.hub_rules.specs.Denied.{login_denied};
ghost use Rattle.hub_rules.specs.Effects.{admits, entrant};
ghost use Rattle.hub_rules.specs.Grounds.{entrant_grounds, identifier_grounds, is_empty, login_grounds};
ghost use Rattle.hub_rules.specs.Identities.{cid_in, key_in, listed_user, value_or_empty};
ghost use Rattle.hub_rules.specs.Views.{is_account, user_after};
ghost use Rattle.inf_fields.specs.Cleaning.{clean};
ghost use Rattle.inf_fields.specs.Merging.{merged_with};
ghost use Rattle.login_state.specs.NamedFields.{name_of};
ghost use Rattle.user_table.specs.Listed.{Listed};

use crate::denial::denial;
use crate::effect::{answer, one};
use crate::entering;
use crate::field_values::{passed_on, value_in_fields, value_in_update};
use crate::grounds::{
    ban_ground, first_ground, is_digest, is_empty, is_wrong_address, value_ground,
};
use crate::hub_facts::HubFacts;
use crate::present::{has_cid, has_key, is_account};
use crate::sender_facts::SenderFacts;
use adc_base32::Sid;
use adc_ids::Cid;
use feature_route::FeatureSet;
use hub_rules::{Change, Effect, Entrant, SenderChange};
use hub_setup::{Inf, Prepared, challenge_line};
use inf_fields::{FieldName, Fields, Update};
use login_state::{Deny, NamedField, Severity};
use std::alloc::{AllocError, Global};
use user_table::User;

/// Decides what the login of a client leads to (ADC 1.0, "INF").
///
/// Denied: words that are no update (140), and then by the checks of a login, in their order. Changes:
/// the client enters, or has to give its password first where its nick is an account's. Told: as at an
/// entry, or the client alone hears its challenge. Refused only where memory runs out.
pub(crate) fn decide_login<'a>(
    alloc: Global,
    hub: &HubFacts<'_>,
    own: &SenderFacts<'_>,
    line: &Prepared,
    now: u64,
) -> Result<Effect<'a>, AllocError>
    ensures { IfOk result (λ effect. own.now.fields ≡ [] → effect ≡ effect_of_login hub.now own.now line.now now (inf_in line.now)) }
{
    let Some(inf) = line.inf() else {
        return denial(alloc, own, Deny::Protocol);
    };
    match user_of_login(alloc, hub, own, line.owner(), inf, now)? {
        Ok(entrant) => effect_of_entrant(alloc, hub, own, line, entrant),
        Err(deny) => denial(alloc, own, deny),
    }
}

/// Makes the effect by which a user with an account is asked for its password, and another enters. A line that was made
/// ready for a hub without that account has no digest to wait for, and is refused as where memory runs out.
fn effect_of_entrant<'a>(
    alloc: Global,
    hub: &HubFacts<'_>,
    own: &SenderFacts<'_>,
    line: &Prepared,
    newcomer: Entrant,
) -> Result<Effect<'a>, AllocError>
    ensures { IfOk result (λ effect. (user : Listed) → newcomer ≡ entrant user → effect ≡ admits hub.now own.now line.now (is_account hub.now user.key) user) }
{
    if !is_account(hub, newcomer.user.key()) {
        let mut effect = entering::effect_of_entry(alloc, hub, own, &newcomer.user)?;
        effect.change = Change::Sender(SenderChange::EntersAs(newcomer));
        return Ok(effect);
    }
    let Some(expected) = line.password() else {
        return Err(AllocError);
    };
    let challenge = one(alloc, challenge_line(alloc, own.sender.challenge)?)?;
    Ok(answer(alloc, challenge, SenderChange::Waits(newcomer, expected)))
}

/// Makes the user of a login, or tells why it is denied.
fn user_of_login(
    alloc: Global,
    hub: &HubFacts<'_>,
    own: &SenderFacts<'_>,
    owner: Option<[u8; 24]>,
    inf: &Inf,
    now: u64,
) -> Result<Result<Entrant, Deny>, AllocError>
    ensures { IfOk result (λ answer. own.now.fields ≡ [] → IsAdmission answer (login_denied hub.now own.now owner now (Ok inf.now)) (user_after own.now inf.now)) }
{
    match may_enter(alloc, hub, own, owner, inf, now)? {
        Ok(cid) => {
            let fields = made_known(alloc, own, inf.update())?;
            let key = String::from_str(alloc, inf.key())?;
            Ok(Ok(entrant(alloc, own.sender.sid, cid, key, fields)?))
        }
        Err(deny) => Ok(Err(deny)),
    }
}

/// Makes the fields that are known of a user by its login.
fn made_known(alloc: Global, own: &SenderFacts<'_>, update: &Update) -> Result<Fields, AllocError>
    ensures { IfOk result (λ fields. fields ≡ merged_with [] (clean update.now own.now.sender.peer)) }
{
    let mut fields = Fields::new(alloc);
    let passed = passed_on(alloc, own.sender.peer, update)?;
    match fields.merge(&passed) {
        Ok(()) => Ok(fields),
        Err(_) => Err(AllocError),
    }
}

/// Gives the identifier of a client that may enter, or tells why it may not.
fn may_enter(
    alloc: Global,
    hub: &HubFacts<'_>,
    own: &SenderFacts<'_>,
    owner: Option<[u8; 24]>,
    inf: &Inf,
    now: u64,
) -> Result<Result<Cid, Deny>, AllocError>
    ensures { IfOk result (λ answer. (user : Listed) → user.cid ≡ cid_of inf.now → user.key ≡ key_in inf.now → MayEnter answer user.cid (login_grounds hub.now own.now now owner inf.now user)) }
{
    match first_ground(&identifier_grounds(inf)) {
        Some(deny) => Ok(Err(deny)),
        None => match inf.cid() {
            Some(cid) => may_enter_as(alloc, hub, own, owner, inf, cid, now),
            None => unreachable!(),
        },
    }
}

/// Gives the identifier of a client that may enter with it, or tells why it may not.
fn may_enter_as(
    alloc: Global,
    hub: &HubFacts<'_>,
    own: &SenderFacts<'_>,
    owner: Option<[u8; 24]>,
    inf: &Inf,
    cid: Cid,
    now: u64,
) -> Result<Result<Cid, Deny>, AllocError>
    ensures { IfOk result (λ answer. (user : Listed) → user.cid ≡ cid → user.key ≡ key_in inf.now → MayEnter answer user.cid (entrant_grounds hub.now own.now now owner inf.now user)) }
{
    let grounds = entrant_grounds(alloc, hub, own, owner, inf, cid, now)?;
    match first_ground(&grounds) {
        Some(deny) => Ok(Err(deny)),
        None => Ok(Ok(cid)),
    }
}

/// Makes the grounds that something is missing, or that the identifier is none.
fn identifier_grounds(inf: &Inf) -> [(bool, Deny); 4]
    ensures { result ≡ identifier_grounds inf.now }
{
    let update = inf.update();
    [
        missing_ground(update, NamedField::Id),
        missing_ground(update, NamedField::PrivateId),
        missing_ground(update, NamedField::Nick),
        (
            inf.cid().is_none(),
            Deny::BadField(Severity::Fatal, NamedField::Id),
        ),
    ]
}

fn missing_ground(update: &Update, field: NamedField) -> (bool, Deny)
    ensures { result ≡ (is_empty (value_or_empty (name_of field) update.now), Deny.Missing field) }
{
    (
        is_empty(value_in_update(update, field.name())),
        Deny::Missing(field),
    )
}

/// Makes the other grounds of a login, of a client with this identifier.
fn entrant_grounds(
    alloc: Global,
    hub: &HubFacts<'_>,
    own: &SenderFacts<'_>,
    owner: Option<[u8; 24]>,
    inf: &Inf,
    cid: Cid,
    now: u64,
) -> Result<[(bool, Deny); 9], AllocError>
    ensures { IfOk result (λ grounds. (user : Listed) → user.cid ≡ cid → user.key ≡ key_in inf.now → grounds ≡ entrant_grounds hub.now own.now now owner inf.now user) }
{
    let severity = Severity::Fatal;
    let (update, key) = (inf.update(), inf.key());
    let address = value_in_update(update, FieldName::address());
    let is_wrong_address = is_wrong_address(alloc, own.sender.peer, address)?;
    let has_owner = owner.is_some();
    let left = hub.bans.left(cid, now);
    Ok([
        (!has_owner, Deny::BadField(severity, NamedField::PrivateId)),
        value_ground(severity, update),
        (!is_digest(&cid.bytes(), owner), Deny::BadPid),
        (!inf.is_nick(), Deny::BadNick(severity)),
        ban_ground(left),
        (is_wrong_address, Deny::Address(severity, own.sender.peer)),
        (is_barred(hub, key), Deny::Registered),
        (has_key(hub, key), Deny::NickTaken(severity)),
        (has_cid(hub, cid), Deny::CidTaken),
    ])
}

/// Tells whether the hub lets accounts alone in, and the nick of this key is none's.
fn is_barred(hub: &HubFacts<'_>, key: &str) -> bool
    ensures { result ≡ (hub.now.setup.plain.registered_only && not (is_account hub.now key.now)) }
{
    hub.setup.registered_only() && !is_account(hub, key)
}

/// Makes the entrant: the user with these fields, who may enter.
fn entrant(
    alloc: Global,
    sid: Sid,
    cid: Cid,
    key: String,
    fields: Fields,
) -> Result<Entrant, AllocError>
    ensures { IfOk result (λ made. cid ≡ cid_in fields → string_bytes key ≡ key_in fields → made ≡ entrant (listed_user sid fields)) }
{
    let support = FeatureSet::read(alloc, value_in_fields(&fields, FieldName::support()))?;
    Ok(Entrant {
        user: User::new(sid, cid, key, fields),
        support,
    })
}
