ghost use Rattle.std.specs.Prelude.{◌≡◌, [], ◌∷◌, ◌++◌, IfOk, OnOk};
ghost use Rattle.hub_rules.specs.Quiet.{nothing};
ghost use Rattle.hub_rules.specs.declared.effect.Change.TheVariants as changes;
ghost use Rattle.hub_rules.specs.declared.effect.Hearers.TheVariants as hearers;

use bytes::Bytes;
use feature_route::Audience;
use hub_rules::{Change, Effect, Hearers, SenderChange};
use outboxes::Batch;
use std::alloc::{AllocError, Global};

/// Makes the effect by which nothing happens. Takes no memory.
pub(crate) fn nothing<'a>(alloc: Global) -> Effect<'a>
    ensures { result ≡ nothing }
{
    Effect {
        own: Batch::new(alloc),
        others: Batch::new(alloc),
        hearers: Hearers::Others,
        change: Change::Nothing,
    }
}

/// Makes the effect by which the connection changes that sent the line, and nobody else is told. Takes no memory.
pub(crate) fn answer<'a>(alloc: Global, own: Batch, change: SenderChange) -> Effect<'a>
    ensures { result ≡ record { own = own; others = []; hearers = hearers.Others; change = changes.Sender change } }
{
    Effect {
        own,
        others: Batch::new(alloc),
        hearers: Hearers::Others,
        change: Change::Sender(change),
    }
}

/// Makes the effect by which the users of an audience are told, and nobody else. Takes no memory.
pub(crate) fn publish<'a>(
    alloc: Global,
    others: Batch,
    audience: Audience<'a>,
    change: Change,
) -> Effect<'a>
    ensures { result ≡ record { own = []; others = others; hearers = hearers.Those audience.entry; change = change } }
{
    Effect {
        own: Batch::new(alloc),
        others,
        hearers: Hearers::Those(audience),
        change,
    }
}

/// Makes a batch of one line.
pub(crate) fn one(alloc: Global, line: Bytes) -> Result<Batch, AllocError>
    ensures { IfOk result (λ batch. batch ≡ line ∷ []) }
{
    let mut batch = Batch::new(alloc);
    push(&mut batch, line)?;
    Ok(batch)
}

/// Adds a line at the end of a batch.
pub(crate) fn push(batch: &mut Batch, line: Bytes) -> Result<(), AllocError>
    ensures { OnOk result (batch.new ≡ batch.old ++ line ∷ []) }
{
    match batch.push(line) {
        Ok(()) => Ok(()),
        Err(_) => Err(AllocError),
    }
}
