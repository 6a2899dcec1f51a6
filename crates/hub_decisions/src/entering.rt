ghost use Rattle.std.specs.Prelude.{◌≡◌, ◌++◌, [], map, IfOk, cond};
ghost use Rattle.hub_rules.specs.Effects.{enters, line_of, welcome};
ghost use Rattle.hub_rules.specs.Texts.{menu_line};
ghost use Rattle.hub_rules.specs.declared.effect.Change.TheVariants.{Sender};
ghost use Rattle.hub_rules.specs.declared.effect.SenderChange.TheVariants.{Enters};
ghost use Rattle.login_state.specs.Mentions.{ucmd};
ghost use Rattle.login_state.specs.Support.{has_feature};

use crate::effect::{one, push};
use crate::hub_facts::HubFacts;
use crate::lines::line_of;
use crate::sender_facts::SenderFacts;
use bytes::Bytes;
use hub_rules::{Change, Effect, Hearers, SenderChange};
use hub_setup::Setup;
use login_state::{Feature, Features};
use outboxes::Batch;
use std::alloc::{AllocError, Global};
use user_table::{User, Users};

/// Makes the effect of a user's entry (ADC 1.0, "INF"; ADC-EXT, "UCMD"). Its client is told of the users who are present,
/// in order of entry, then of itself, and then the menu where it has one; the others are told of the newcomer. Refused only
/// where memory runs out.
pub(crate) fn effect_of_entry<'a>(
    alloc: Global,
    hub: &HubFacts<'_>,
    own: &SenderFacts<'_>,
    user: &User,
) -> Result<Effect<'a>, AllocError>
    ensures { IfOk result (λ effect. effect ≡ enters hub.now own.now user.now (Sender Enters)) }
{
    let line = line_of(alloc, hub.setup, user)?;
    let shared = line.clone()?;
    Ok(Effect {
        own: welcome(alloc, hub, &own.sender.features, user, line)?,
        others: one(alloc, shared)?,
        hearers: Hearers::Others,
        change: Change::Sender(SenderChange::Enters),
    })
}

/// Makes the batch that a newcomer hears, whose own line is at hand.
fn welcome(
    alloc: Global,
    hub: &HubFacts<'_>,
    features: &Features,
    user: &User,
    line: Bytes,
) -> Result<Batch, AllocError>
    ensures { line ≡ line_of hub.now user.now → IfOk result (λ batch. batch ≡ welcome hub.now features.now user.now) }
{
    let mut batch = present_lines(alloc, hub)?;
    push(&mut batch, line)?;
    with_menu(hub.setup, features, batch)
}

/// Gives the batch with the menu at its end, where the client has one.
fn with_menu(setup: &Setup, features: &Features, batch: Batch) -> Result<Batch, AllocError>
    ensures { IfOk result (λ all. all ≡ batch ++ cond (has_feature ucmd features.now) (map menu_line setup.now.menu) []) }
{
    if !features.has(Feature::ucmd()) {
        return Ok(batch);
    }
    setup.menu(batch)
}

/// Makes the batch of the lines of the users who are present, in order of entry. Only those are written that are not kept.
fn present_lines(alloc: Global, hub: &HubFacts<'_>) -> Result<Batch, AllocError>
    ensures { IfOk result (λ batch. batch ≡ map (line_of hub.now) hub.now.users) }
{
    let mut batch = hub.lines.share(alloc)?;
    let count = hub.users.totals().users as usize;
    for place in hub.lines.len()..count {
        let Some(user) = hub.users.at(place) else {
            unreachable!()
        };
        push(&mut batch, line_of(alloc, hub.setup, user)?)?;
    }
    Ok(batch)
}
