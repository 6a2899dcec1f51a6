ghost use Rattle.std.specs.Prelude.{◌≡◌, not, IfOk, Some, ℕ, List, chars};
ghost use Rattle.std.specs.Option.{option_map, unwrap_or};
ghost use Rattle.feature_route.specs.Matching.{feature_set};
ghost use Rattle.hub_decisions.specs.Known.{IsUser};
ghost use Rattle.hub_decisions.specs.Requested.{effect_of_update, inf_in};
ghost use Rattle.hub_rules.specs.Effects.{line_unless_empty, update_effect};
ghost use Rattle.hub_rules.specs.Grounds.{differs, is_bad_nick, touches_account, update_grounds};
ghost use Rattle.hub_rules.specs.Identities.{value_or_empty, key_in, meaning, su_in};
ghost use Rattle.hub_rules.specs.Views.{SenderView as OwnConnection, another_has_key, user_after};
ghost use Rattle.inf_fields.specs.Cleaning.{clean};
ghost use Rattle.inf_fields.specs.Field.{value_of};
ghost use Rattle.inf_fields.specs.FieldNames.{id_name, nick_name, support_name};
ghost use Rattle.inf_fields.specs.Merging.{merged_with};
ghost use Rattle.user_table.specs.Listed.{Listed};
ghost use Rattle.user_table.specs.Tables.{has_sid};

use crate::denial::denial;
use crate::effect::{one, publish};
use crate::field_values::{passed_on, value_in_fields, value_in_update};
use crate::grounds::{first_ground, is_wrong_address, value_ground};
use crate::hub_facts::HubFacts;
use crate::present::is_account;
use crate::sender_facts::SenderFacts;
use adc_base32::Sid;
use adc_ids::{Nick, NickFault};
use feature_route::{Audience, FeatureSet};
use hub_rules::{Change, Effect, Revision, SenderChange};
use hub_setup::{Inf, Prepared, update_line};
use inf_fields::{FieldName, Fields, Update};
use login_state::{Deny, NamedField, Severity};
use outboxes::Batch;
use std::alloc::{AllocError, Global};
use user_table::{User, Users};

/// Decides what an update leads to, by which a user who is present changes what is known of it (ADC 1.0, "INF").
///
/// Denied: words that are no update (140), and then by the checks of an update, in their order. Changes:
/// the user's fields, the nick among them. Told: all users hear what changes, where anything does.
/// Refused only where memory runs out.
pub(crate) fn decide_update<'a>(
    alloc: Global,
    hub: &HubFacts<'_>,
    own: &SenderFacts<'_>,
    user: &User,
    line: &Prepared,
) -> Result<Effect<'a>, AllocError>
    ensures { IfOk result (λ effect. IsUser own.now user.now → effect ≡ effect_of_update hub.now own.now (inf_in line.now)) }
{
    let Some(inf) = line.inf() else {
        return denial(alloc, own, Deny::Protocol);
    };
    decide_change(alloc, hub, own, user, inf)
}

/// Decides what an update leads to whose words say this.
#[tactic(auto, unfolding(hub_rules::specs::Identities::listed_user))]
fn decide_change<'a>(
    alloc: Global,
    hub: &HubFacts<'_>,
    own: &SenderFacts<'_>,
    user: &User,
    inf: &Inf,
) -> Result<Effect<'a>, AllocError>
    ensures { IfOk result (λ effect. IsUser own.now user.now → effect ≡ effect_of_update hub.now own.now (Some inf.now)) }
{
    let cleaned = passed_on(alloc, own.sender.peer, inf.update())?;
    let grounds = update_grounds(alloc, hub, own, user, inf, &cleaned)?;
    match first_ground(&grounds) {
        Some(deny) => denial(alloc, own, deny),
        None => effect_of_update(alloc, own, user, inf, cleaned),
    }
}

/// Makes the grounds of an update, of which this is passed on.
fn update_grounds(
    alloc: Global,
    hub: &HubFacts<'_>,
    own: &SenderFacts<'_>,
    user: &User,
    inf: &Inf,
    cleaned: &Update,
) -> Result<[(bool, Deny); 7], AllocError>
    requires { cleaned.now ≡ clean inf.now own.now.sender.peer }
    ensures { IfOk result (λ grounds. IsUser own.now user.now → grounds ≡ update_grounds hub.now own.now inf.now (user_after own.now inf.now)) }
{
    let severity = Severity::Recoverable;
    let (update, key) = (inf.update(), key_after(user, inf));
    let address = value_in_update(update, FieldName::address());
    let is_wrong_address = is_wrong_address(alloc, own.sender.peer, address)?;
    Ok([
        (
            changes_id(user.fields(), update),
            Deny::BadField(severity, NamedField::Id),
        ),
        value_ground(severity, update),
        (is_bad_nick(inf), Deny::BadNick(severity)),
        (
            touches_account(hub, user.key(), key),
            Deny::Access(*b"BINF"),
        ),
        (is_wrong_address, Deny::Address(severity, own.sender.peer)),
        (!user.fields().fits(cleaned), Deny::Protocol),
        (
            another_has_key(hub, own.sender.sid, key),
            Deny::NickTaken(severity),
        ),
    ])
}

/// Gives the key of the user's nick after an update: of the nick that it gives, and else the one before.
fn key_after<'a>(user: &'a User, inf: &'a Inf) -> &'a str
    ensures { (own : OwnConnection) → IsUser own user.now → result.now ≡ (user_after own inf.now).key }
{
    match inf.update().get(FieldName::nick()) {
        Some(_) => inf.key(),
        None => user.key(),
    }
}

/// Tells whether an identifier that is given is another than the user's own.
fn changes_id(fields: &Fields, update: &Update) -> bool
    ensures { result ≡ differs (unwrap_or (value_of id_name update.now) (value_or_empty id_name fields.now)) (value_or_empty id_name fields.now) }
{
    let own = value_in_fields(fields, FieldName::id());
    update.get(FieldName::id()).unwrap_or(own) != own
}

/// Tells whether a nick that is given is none.
fn is_bad_nick(inf: &Inf) -> bool
    ensures { result ≡ is_bad_nick (value_of nick_name inf.now) }
{
    inf.update().get(FieldName::nick()).is_some() && !inf.is_nick()
}

/// Tells whether an update takes the nick of an account or leaves it, as nobody may.
fn touches_account(hub: &HubFacts<'_>, before: &str, after: &str) -> bool
    ensures { result ≡ touches_account hub.now before.now after.now }
{
    after != before && (is_account(hub, before) || is_account(hub, after))
}

/// Answers whether another present user has a nick of this key.
fn another_has_key(hub: &HubFacts<'_>, sid: Sid, key: &str) -> bool
    ensures { result ≡ another_has_key hub.now sid key.now }
{
    match hub.users.by_nick(key) {
        Some(user) => is_another(user, sid),
        None => false,
    }
}

fn is_another(user: &User, sid: Sid) -> bool
    ensures { result ≡ not (has_sid sid user.now) }
{
    user.sid() != sid
}

/// Makes the effect by which all users who are present hear what changes.
#[tactic(auto, unfolding(hub_rules::specs::Identities::listed_user))]
fn effect_of_update<'a>(
    alloc: Global,
    own: &SenderFacts<'_>,
    user: &User,
    inf: &Inf,
    cleaned: Update,
) -> Result<Effect<'a>, AllocError>
    requires { value_of nick_name cleaned ≡ value_of nick_name inf.now }
    ensures { IfOk result (λ effect. IsUser own.now user.now → effect ≡ update_effect own.now cleaned) }
{
    let others = line_unless_empty(alloc, own.sender.sid, &cleaned)?;
    let nick = nick_in(alloc, inf)?;
    let support = support_after(alloc, user.fields(), &cleaned)?;
    let revision = Revision {
        update: cleaned,
        nick,
        support,
    };
    let change = Change::Sender(SenderChange::Updates(revision));
    Ok(publish(alloc, others, Audience::All, change))
}

fn line_unless_empty(alloc: Global, sid: Sid, update: &Update) -> Result<Batch, AllocError>
    ensures { IfOk result (λ batch. batch ≡ line_unless_empty sid update.now) }
{
    if update.is_empty() {
        return Ok(Batch::new(alloc));
    }
    one(alloc, update_line(alloc, sid, update)?)
}

/// Gives the nick that an update gives. One that is none was denied, so it does not come here.
fn nick_in(alloc: Global, inf: &Inf) -> Result<Option<Nick>, AllocError>
    ensures { IfOk result (λ nick. nick ≡ option_map (λ (word : List ℕ). chars (meaning word)) (value_of nick_name inf.now)) }
{
    if inf.update().get(FieldName::nick()).is_none() {
        return Ok(None);
    }
    match Nick::parse(alloc, inf.nick()) {
        Ok(nick) => Ok(Some(nick)),
        Err(NickFault::Memory | NickFault::Invalid) => Err(AllocError),
    }
}

/// Reads the features that the field SU names after the update.
fn support_after(alloc: Global, fields: &Fields, update: &Update) -> Result<FeatureSet, AllocError>
    ensures { IfOk result (λ set. set ≡ feature_set (su_in (merged_with fields.now update.now))) }
{
    FeatureSet::read(alloc, support_text(fields, update))
}

/// Gives the field SU after the update.
fn support_text<'a>(fields: &'a Fields, update: &'a Update) -> &'a str
    ensures { result.now ≡ unwrap_or (value_of support_name update.now) (value_or_empty support_name fields.now) }
{
    match update.get(FieldName::support()) {
        Some(support) => support,
        None => value_in_fields(fields, FieldName::support()),
    }
}
