ghost use Rattle.std.specs.Prelude.{◌≡◌, IfOk};
ghost use Rattle.hub_rules.specs.Identities.{value_or_empty};
ghost use Rattle.inf_fields.specs.Cleaning.{clean};

use inf_fields::{FieldName, Fields, Update};
use std::alloc::{AllocError, Global};

/// Gives the value that an update gives a field, and the empty text where it gives none.
pub(crate) fn value_in_update(update: &Update, name: FieldName) -> &str
    ensures { result.now ≡ value_or_empty name update.now }
{
    update.get(name).unwrap_or("")
}

/// Gives the value of a field, and the empty text where there is none.
pub(crate) fn value_in_fields(fields: &Fields, name: FieldName) -> &str
    ensures { result.now ≡ value_or_empty name fields.now }
{
    fields.get(name).unwrap_or("")
}

/// Gives what of an update is passed on. Refused only where memory runs out.
pub(crate) fn passed_on(alloc: Global, peer: [u8; 4], update: &Update) -> Result<Update, AllocError>
    ensures { IfOk result (λ passed. passed ≡ clean update.now peer) }
{
    match update.clean(alloc, peer) {
        Ok(passed) => Ok(passed),
        Err(_) => Err(AllocError),
    }
}
