ghost use Rattle.std.specs.Prelude.{◌≡◌, IfOk, Ok};
ghost use Rattle.std.specs.Option.{option_copied};
ghost use Rattle.adc_line.specs.Lines as lines;
ghost use Rattle.hub_decisions.specs.Known.{IsKnown};
ghost use Rattle.hub_decisions.specs.Requested.{effect_of_message};
ghost use Rattle.hub_rules.specs.Effects.{effect_of_reading, line_effect};
ghost use Rattle.hub_rules.specs.Requests.{names_another};

use crate::denial::denial;
use crate::effect::nothing;
use crate::hub_facts::HubFacts;
use crate::sender_facts::SenderFacts;
use crate::{act, login, message, password, sup, update};
use adc_base32::Sid;
use adc_line::Line;
use hub_rules::Effect;
use hub_setup::{Prepared, Says};
use login_state::{Deny, Request, Stage};
use std::alloc::{AllocError, Global};
use user_table::User;

/// Decides what a line leads to at the moment `now`, in seconds (ADC 1.0, "States", "Actions"; ADC-EXT, "PING", "UCMD"). It
/// changes nothing. Refused only where memory runs out, or where a login names an account that the setup for which the line
/// was prepared did not have.
///
/// A connection that is shut out is not heard, and an empty line leads to nothing. Of another line the first of these
/// denials holds, and its connection is told so: it is no message (140); the rules for every line; the rules of what it
/// asks for. A message that is not denied leads to what it asks for.
///
/// The user is that of the connection, if it has one. The clause holds where its key and its identifier are those that its
/// fields say, so that neither is made anew for each line.
#[tactic(auto, unfolding(hub_rules::specs::Effects::line_effect))]
pub fn decide<'a>(
    alloc: Global,
    hub: &HubFacts<'_>,
    own: &SenderFacts<'_>,
    user: Option<&User>,
    line: &'a Prepared,
    now: u64,
) -> Result<Effect<'a>, AllocError>
    ensures { IfOk result (λ effect. IsKnown own.now (option_copied user.entry) → effect ≡ line_effect hub.now own.now line.now now) }
{
    if own.stage == Stage::Gone {
        return Ok(nothing(alloc));
    }
    match line.says() {
        Says::Nothing => Ok(nothing(alloc)),
        Says::NoMessage => denial(alloc, own, Deny::Protocol),
        Says::Message(message) => decide_message(alloc, hub, own, user, line, message, now),
    }
}

/// Decides what a message leads to, which the prepared line says.
fn decide_message<'a>(
    alloc: Global,
    hub: &HubFacts<'_>,
    own: &SenderFacts<'_>,
    user: Option<&User>,
    line: &'a Prepared,
    message: &'a Line,
    now: u64,
) -> Result<Effect<'a>, AllocError>
    requires { lines.reading line.now.bytes ≡ Ok message.now }
    ensures { IfOk result (λ effect. IsKnown own.now (option_copied user.entry) → effect ≡ effect_of_reading hub.now own.now line.now now (Ok message.now)) }
{
    if names_another(own.sender.sid, message.from()) {
        return denial(alloc, own, Deny::WrongSid);
    }
    decide_request(alloc, hub, own, user, line, message, now)
}

/// Decides what a message leads to that is in its connection's own name: whether it may be sent, the rules of what it asks for,
/// and what that is.
#[tactic(auto, unfolding(hub_rules::specs::Denied::request_denied, hub_rules::specs::Effects::accepted_effect))]
fn decide_request<'a>(
    alloc: Global,
    hub: &HubFacts<'_>,
    own: &SenderFacts<'_>,
    user: Option<&User>,
    line: &'a Prepared,
    message: &'a Line,
    now: u64,
) -> Result<Effect<'a>, AllocError>
    requires { lines.reading line.now.bytes ≡ Ok message.now }
    ensures { IfOk result (λ effect. IsKnown own.now (option_copied user.entry) → effect ≡ effect_of_message hub.now own.now line.now now message.now) }
{
    match own.stage.request(message.kind(), message.command()) {
        Err(deny) => denial(alloc, own, deny),
        Ok(Request::Greeting) => sup::decide_greeting(alloc, hub, own, message.params(), now),
        Ok(Request::Login) => login::decide_login(alloc, hub, own, line, now),
        Ok(Request::Password) => match user {
            Some(user) => password::decide_password(alloc, hub, own, user, message.params(), now),
            None => Ok(nothing(alloc)),
        },
        Ok(Request::Update) => match user {
            Some(user) => update::decide_update(alloc, hub, own, user, line),
            None => Ok(nothing(alloc)),
        },
        Ok(Request::Act) => match user {
            Some(user) => act::decide_hub_message(alloc, hub, own, user, message.params(), now),
            None => Ok(nothing(alloc)),
        },
        Ok(Request::Support) => sup::decide_support(alloc, own, message.params()),
        Ok(Request::Search) => message::decide_route(alloc, hub, own, message, true, now),
        Ok(Request::Message) => message::decide_route(alloc, hub, own, message, false, now),
        Ok(Request::Nothing) => Ok(nothing(alloc)),
    }
}

/// Tells whether a line says that another connection sent it.
fn names_another(sid: Sid, from: Option<Sid>) -> bool
    ensures { result ≡ names_another sid from }
{
    match from {
        Some(other) => other.number() != sid.number(),
        None => false,
    }
}
