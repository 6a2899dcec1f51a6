ghost use Rattle.std.specs.Prelude.{◌≡◌, ◌∷◌, [], IfOk, Some};
ghost use Rattle.adc_line.specs.WordsLeft.{words_left};
ghost use Rattle.hub_decisions.specs.Commands.{answer_for, effect_of_asked, effect_of_command};
ghost use Rattle.hub_rules.specs.Acts.{effect_for_all, if_present, is_command, kick, unban, user_called};
ghost use Rattle.operator_acts.specs.declared.act.Act.TheVariants as acts;
ghost use Rattle.hub_decisions.specs.Known.{IsUser};
ghost use Rattle.hub_decisions.specs.Requested.{effect_of_act};
ghost use Rattle.hub_rules.specs.declared.effect.HubChange.TheVariants as shared;
ghost use Rattle.hub_rules.specs.Accounts.{operates};
ghost use Rattle.hub_rules.specs.Views.{account_of};
ghost use Rattle.hub_rules.specs.Texts.{topic_line};
ghost use Rattle.operator_acts.specs.Acts.{act_at};

use crate::denial::denial;
use crate::effect::{nothing, one};
use crate::hub_facts::HubFacts;
use crate::nick_words::text_in;
use crate::sender_facts::SenderFacts;
use adc_ids::{Cid, Nick};
use adc_line::Words;
use feature_route::Audience;
use hub_rules::{Banned, Change, Effect, Hearers, HubChange, SeatChange, Topic};
use hub_setup::{done_line, removal_line, topic_line};
use login_state::Deny;
use operator_acts::{Act, ActFault, Ban, FreeText};
use outboxes::Batch;
use std::alloc::{AllocError, Global};
use user_table::{User, Users};

/// Decides what a message of a user to the hub leads to (ADC 1.0, "MSG"). A text that begins with `!` is a command for
/// operators; others are for nobody, and lead to nothing.
///
/// Denied: a command of another user than an operator (125), one of no form (100). A kick or a ban of somebody who is not
/// present is denied (100). So are a ban where there is no room for it (100) and an end of a ban that is not held (100).
/// Changes: a user is shut out, an identifier is let in again, or the topic is set. Told: all users hear of a removal and
/// of a topic, and the operator that it is done. Refused only where memory runs out.
#[tactic(auto, unfolding(hub_rules::specs::Acts::act_denied, hub_rules::specs::Acts::act_effect))]
pub(crate) fn decide_hub_message<'a>(
    alloc: Global,
    hub: &HubFacts<'_>,
    own: &SenderFacts<'_>,
    user: &User,
    words: Words<'_>,
    now: u64,
) -> Result<Effect<'a>, AllocError>
    ensures { IfOk result (λ effect. IsUser own.now user.now → effect ≡ effect_of_act hub.now own.now now (words_left words.entry)) }
{
    let text = text_in(alloc, words)?;
    let text = text.as_str();
    if !is_command(text) {
        return Ok(nothing(alloc));
    }
    decide_command(alloc, hub, own, user, text, now)
}

/// Answers whether a text is a command: commands begin with `!`.
fn is_command(text: &str) -> bool
    ensures { result ≡ is_command text.now }
{
    match text.as_bytes() {
        [] => false,
        [first, ..] => *first == b'!',
    }
}

/// Decides what a command of a user leads to.
fn decide_command<'a>(
    alloc: Global,
    hub: &HubFacts<'_>,
    own: &SenderFacts<'_>,
    user: &User,
    text: &str,
    now: u64,
) -> Result<Effect<'a>, AllocError>
    ensures { IfOk result (λ effect. IsUser own.now user.now → effect ≡ effect_of_command hub.now own.now now (act_at text.now)) }
{
    if !is_operator(hub, user) {
        return denial(alloc, own, Deny::Access(*b"HMSG"));
    }
    match Act::parse(alloc, text) {
        Ok(act) => decide_act(alloc, hub, own, &act, now),
        Err(ActFault::Bad) => denial(alloc, own, Deny::BadCommand),
        Err(ActFault::Memory) => Err(AllocError),
    }
}

/// Answers whether the account of this user is an operator's.
fn is_operator(hub: &HubFacts<'_>, user: &User) -> bool
    ensures { result ≡ operates (account_of hub.now user.now.key) }
{
    match hub.setup.account(user.key()) {
        Some(account) => account.is_operator(),
        None => false,
    }
}

/// Decides what an act leads to that an operator asks for.
fn decide_act<'a>(
    alloc: Global,
    hub: &HubFacts<'_>,
    own: &SenderFacts<'_>,
    act: &Act<'_>,
    now: u64,
) -> Result<Effect<'a>, AllocError>
    ensures { IfOk result (λ effect. effect ≡ effect_of_asked hub.now own.now now (Some act.now)) }
{
    match act {
        Act::Kick { nick, reason } => kick(alloc, hub, own, nick, reason),
        Act::Ban {
            nick,
            seconds,
            reason,
        } => ban(alloc, hub, own, nick, *seconds, reason, now),
        Act::Unban(cid) => unban(alloc, hub, own, *cid),
        Act::Topic(text) => topic(alloc, text),
    }
}

fn kick<'a>(
    alloc: Global,
    hub: &HubFacts<'_>,
    own: &SenderFacts<'_>,
    nick: &Nick,
    reason: &FreeText<'_>,
) -> Result<Effect<'a>, AllocError>
    ensures { IfOk result (λ effect. effect ≡ answer_for own.now (if_present (user_called hub.now.users nick.now) (kick own.now.sender.sid reason.now))) }
{
    let key = nick.key(alloc)?;
    let Some(target) = hub.users.by_nick(&key) else {
        return denial(alloc, own, Deny::NoUser);
    };
    let line = removal_line(alloc, target.sid(), own.sender.sid, None, reason.as_str())?;
    effect_for_all(
        alloc,
        one(alloc, line)?,
        HubChange::At(target.sid(), SeatChange::Gone),
    )
}

fn ban<'a>(
    alloc: Global,
    hub: &HubFacts<'_>,
    own: &SenderFacts<'_>,
    nick: &Nick,
    seconds: u32,
    reason: &FreeText<'_>,
    now: u64,
) -> Result<Effect<'a>, AllocError>
    ensures { IfOk result (λ effect. effect ≡ effect_of_asked hub.now own.now now (Some (acts.Ban nick.now seconds reason.now))) }
{
    let key = nick.key(alloc)?;
    let Some(target) = hub.users.by_nick(&key) else {
        return denial(alloc, own, Deny::NoUser);
    };
    if hub.bans.is_full(target.cid()) {
        return denial(alloc, own, Deny::BansFull);
    }
    let line = removal_line(
        alloc,
        target.sid(),
        own.sender.sid,
        Some(seconds),
        reason.as_str(),
    )?;
    let banned = Banned {
        sid: target.sid(),
        cid: target.cid(),
        ban: Ban {
            seconds,
            moment: now,
        },
    };
    effect_for_all(alloc, one(alloc, line)?, HubChange::Ban(banned))
}

fn unban<'a>(
    alloc: Global,
    hub: &HubFacts<'_>,
    own: &SenderFacts<'_>,
    cid: Cid,
) -> Result<Effect<'a>, AllocError>
    ensures { IfOk result (λ effect. effect ≡ answer_for own.now (unban hub.now.bans cid)) }
{
    if !hub.bans.holds(cid) {
        return denial(alloc, own, Deny::NoBan);
    }
    effect_for_all(alloc, Batch::new(alloc), HubChange::Unban(cid))
}

fn topic<'a>(alloc: Global, text: &FreeText<'_>) -> Result<Effect<'a>, AllocError>
    ensures { IfOk result (λ effect. effect ≡ effect_for_all (record { others = topic_line text.now ∷ []; change = shared.Topic text.now })) }
{
    let line = topic_line(alloc, text.as_str())?;
    let topic = Topic::new(alloc, text.as_str())?;
    effect_for_all(alloc, one(alloc, line)?, HubChange::Topic(topic))
}

/// Makes the effect that all users who are present are told, and then the operator that it is done.
fn effect_for_all<'a>(
    alloc: Global,
    others: Batch,
    change: HubChange,
) -> Result<Effect<'a>, AllocError>
    ensures { IfOk result (λ effect. effect ≡ effect_for_all (record { others = others; change = change })) }
{
    Ok(Effect {
        own: one(alloc, done_line(alloc)?)?,
        others,
        hearers: Hearers::Those(Audience::All),
        change: Change::Hub(change),
    })
}
