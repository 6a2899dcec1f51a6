ghost use Rattle.std.specs.Prelude.{◌≡◌, IfOk};
ghost use Rattle.hub_rules.specs.Effects.{denial, farewell};

use crate::effect::one;
use crate::sender_facts::SenderFacts;
use bytes::Bytes;
use hub_rules::{Change, Effect, Hearers, SenderChange};
use hub_setup::denial_line;
use login_state::{Deny, Stage};
use outboxes::{Batch, quit_line};
use std::alloc::{AllocError, Global};

/// Makes the effect of a denied line (ADC 1.0, "STA"): its connection is told why, and shut out where that is fatal. Then
/// the others who are present hear that its user left, where it was present. Refused only where memory runs out.
#[tactic(auto, unfolding(hub_rules::specs::Effects::denial))]
pub(crate) fn denial<'a>(
    alloc: Global,
    own: &SenderFacts<'_>,
    deny: Deny,
) -> Result<Effect<'a>, AllocError>
    ensures { IfOk result (λ effect. effect ≡ denial own.now deny) }
{
    let told = one(alloc, denial_line(alloc, deny)?)?;
    if deny.is_fatal() {
        Ok(Effect {
            own: told,
            others: farewell(alloc, own)?,
            hearers: Hearers::Others,
            change: Change::Sender(SenderChange::Falls),
        })
    } else {
        Ok(Effect {
            own: told,
            others: Batch::new(alloc),
            hearers: Hearers::Others,
            change: Change::Nothing,
        })
    }
}

/// Gives what the others hear where a connection is shut out.
fn farewell(alloc: Global, own: &SenderFacts<'_>) -> Result<Batch, AllocError>
    ensures { IfOk result (λ batch. batch ≡ farewell own.now.stage own.now.sender.sid) }
{
    if own.stage == Stage::Normal {
        one(
            alloc,
            Bytes::copy_from_slice(alloc, &quit_line(own.sender.sid))?,
        )
    } else {
        Ok(Batch::new(alloc))
    }
}
