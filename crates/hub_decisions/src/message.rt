ghost use Rattle.std.specs.Prelude.{◌≡◌, IfOk};
ghost use Rattle.hub_decisions.specs.Requested.{effect_of_route};
ghost use Rattle.hub_rules.specs.Denied.{message_denied};
ghost use Rattle.hub_rules.specs.Effects.{is_target_here, passes_on};

use crate::denial::denial;
use crate::effect::{one, publish};
use crate::hub_facts::HubFacts;
use crate::present::has_sid;
use crate::sender_facts::SenderFacts;
use adc_base32::Sid;
use adc_line::Line;
use feature_route::audience;
use hub_rules::{Change, Effect, SenderChange};
use hub_setup::passed_line;
use login_state::Deny;
use search_pass::may_search;
use std::alloc::{AllocError, Global};

/// Decides what a message of a user to others leads to, which may be a search (ADC 1.0, "Message types", "SCH").
///
/// Denied: as by [`message_denied`]. Changes: nothing, but the moment of the last search where it is one. Told: those for
/// whom the message is hear the line as it came. Refused only where memory runs out.
pub(crate) fn decide_route<'a>(
    alloc: Global,
    hub: &HubFacts<'_>,
    own: &SenderFacts<'_>,
    line: &'a Line,
    search: bool,
    now: u64,
) -> Result<Effect<'a>, AllocError>
    ensures { IfOk result (λ effect. effect ≡ effect_of_route hub.now own.now now line.now search) }
{
    if let Some(deny) = message_denied(hub, own, search, now) {
        return denial(alloc, own, deny);
    }
    let change = if search {
        Change::Sender(SenderChange::Searches(now))
    } else {
        Change::Nothing
    };
    pass_on(alloc, hub, line, change)
}

/// Tells why a message to others is denied, if it is: a search too soon after the last one that went out (100).
fn message_denied(hub: &HubFacts<'_>, own: &SenderFacts<'_>, search: bool, now: u64) -> Option<Deny>
    ensures { result ≡ message_denied hub.now own.now now search }
{
    if search && !may_search(own.sender.notes.searched, now, hub.setup.search_interval()) {
        return Some(Deny::SearchSoon);
    }
    None
}

/// Passes a line on as it came to those for whom it is.
fn pass_on<'a>(
    alloc: Global,
    hub: &HubFacts<'_>,
    line: &'a Line,
    change: Change,
) -> Result<Effect<'a>, AllocError>
    ensures { IfOk result (λ effect. effect ≡ passes_on hub.now line.now change) }
{
    let target_here = is_target_here(hub, line.target());
    let others = one(alloc, passed_line(alloc, line)?)?;
    Ok(publish(alloc, others, audience(line, target_here), change))
}

/// Answers whether the user that a line names as its target is present.
fn is_target_here(hub: &HubFacts<'_>, target: Option<Sid>) -> bool
    ensures { result ≡ is_target_here hub.now target }
{
    match target {
        Some(target) => has_sid(hub, target),
        None => false,
    }
}
