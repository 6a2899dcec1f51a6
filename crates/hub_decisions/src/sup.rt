ghost use Rattle.std.specs.Prelude.{◌≡◌, IfOk};
ghost use Rattle.std.specs.String.{string_bytes};
ghost use Rattle.adc_line.specs.WordsLeft.{words_left};
ghost use Rattle.hub_decisions.specs.Requested.{Supports, effect_of_greeting, effect_of_support};
ghost use Rattle.hub_rules.specs.Effects.{greeting, ping_of};
ghost use Rattle.login_state.specs.SupportAnswers.{support_after};

use crate::denial::denial;
use crate::effect::{answer, one, push};
use crate::hub_facts::HubFacts;
use crate::sender_facts::SenderFacts;
use adc_line::Words;
use hub_rules::{Effect, SenderChange};
use hub_setup::{hub_line, identifier_line, ping_fields, support_line};
use login_state::{Check, Deny, Feature, Features, SupFault, check_sup};
use outboxes::Batch;
use std::alloc::{AllocError, Global};
use user_table::Users;

/// Decides what the first SUP leads to, by which a client says what it supports (ADC 1.0, "SUP"; ADC-EXT, "PING").
///
/// Denied: words that are none, or over 64 features (140), no BASE (245), no TIGR (247). Changes: what
/// the client supports; it may log in. Told: the client alone is greeted. Refused only where memory
/// runs out.
pub(crate) fn decide_greeting<'a>(
    alloc: Global,
    hub: &HubFacts<'_>,
    own: &SenderFacts<'_>,
    words: Words<'_>,
    now: u64,
) -> Result<Effect<'a>, AllocError>
    ensures { IfOk result (λ effect. effect ≡ effect_of_greeting hub.now own.now now (words_left words.entry)) }
{
    let features = match features_after(alloc, &own.sender.features, words)? {
        Ok(features) => features,
        Err(deny) => return denial(alloc, own, deny),
    };
    let greeting = greeting(alloc, hub, own, &features, now)?;
    Ok(answer(alloc, greeting, SenderChange::Greets(features)))
}

/// Decides what a later SUP leads to, by which a user who is present says that its client supports other features (ADC 1.0,
/// "SUP").
///
/// Denied: words that are none, or over 64 features (140), no BASE (245), no TIGR (247). Changes: what
/// the client supports. Told: nobody. Refused only where memory runs out.
pub(crate) fn decide_support<'a>(
    alloc: Global,
    own: &SenderFacts<'_>,
    words: Words<'_>,
) -> Result<Effect<'a>, AllocError>
    ensures { IfOk result (λ effect. effect ≡ effect_of_support own.now (words_left words.entry)) }
{
    let features = match features_after(alloc, &own.sender.features, words)? {
        Ok(features) => features,
        Err(deny) => return denial(alloc, own, deny),
    };
    let change = SenderChange::Learns(features);
    Ok(answer(alloc, Batch::new(alloc), change))
}

/// Gives what a client supports after a SUP, or why it is denied.
fn features_after(
    alloc: Global,
    before: &Features,
    words: Words<'_>,
) -> Result<Result<Features, Deny>, AllocError>
    ensures { IfOk result (λ answer. Supports answer (support_after before.now (words_left words.entry))) }
{
    let features = match before.apply(alloc, words) {
        Ok(features) => features,
        Err(SupFault::Memory) => return Err(AllocError),
        Err(SupFault::Bad | SupFault::TooMany) => return Ok(Err(Deny::Protocol)),
    };
    match check_sup(&features) {
        Check::Go => Ok(Ok(features)),
        Check::Deny(deny) => Ok(Err(deny)),
    }
}

/// Writes what the hub supports, the client's session identifier, and the hub itself.
fn greeting(
    alloc: Global,
    hub: &HubFacts<'_>,
    own: &SenderFacts<'_>,
    features: &Features,
    now: u64,
) -> Result<Batch, AllocError>
    ensures { IfOk result (λ batch. batch ≡ greeting hub.now now own.now.sender.sid features.now) }
{
    let ping = ping_of(alloc, hub, features, now)?;
    let mut batch = one(alloc, support_line(alloc)?)?;
    push(&mut batch, identifier_line(alloc, own.sender.sid)?)?;
    let topic = hub.topic.as_str();
    push(&mut batch, hub_line(alloc, hub.setup, topic, &ping)?)?;
    Ok(batch)
}

/// Writes what a client hears beside that asked about the hub.
fn ping_of(
    alloc: Global,
    hub: &HubFacts<'_>,
    features: &Features,
    now: u64,
) -> Result<String, AllocError>
    ensures { IfOk result (λ text. string_bytes text ≡ ping_of hub.now now features.now) }
{
    if !features.has(Feature::ping()) {
        return Ok(String::new(alloc));
    }
    let totals = hub.users.totals();
    let open_for = now.saturating_sub(hub.setup.opening());
    ping_fields(alloc, &totals, hub.setup.max_users(), open_for)
}
