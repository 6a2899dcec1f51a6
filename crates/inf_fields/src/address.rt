ghost use Rattle.std.specs.Prelude.{◌≡◌, IfOk};
ghost use Rattle.std.specs.String.{string_bytes};
ghost use Rattle.inf_fields.specs.Cleaning.{dotted_decimal};

use std::alloc::{AllocError, Global};

/// Writes an address as INF messages spell it: four decimal numbers without leading zeros, with dots between them (ADC 1.0,
/// "INF"). Refused only where memory runs out.
#[tactic(auto, unfolding(crate::specs::Cleaning::dotted_decimal))]
pub fn dotted_decimal(alloc: Global, peer: [u8; 4]) -> Result<String, AllocError>
    ensures { IfOk result (λ text. string_bytes text ≡ dotted_decimal peer) }
{
    let [a, b, c, d] = peer;
    format!(in alloc; "{a}.{b}.{c}.{d}")
}
