ghost use Rattle.std.specs.Prelude.{◌≡◌, ℕ, [], get_or, IfNone, IfSome};
ghost use Rattle.adc_base32.specs.Sids.{sid_at};
ghost use Rattle.hub_client.specs.Entries.{IsSender, IsSentAway};

use crate::fields::field_among;
use adc_base32::Sid;
use adc_line::Line;

/// Returns the session identifier that the first parameter of a line spells.
pub(crate) fn sid_in(line: &Line) -> Option<Sid>
    ensures { result ≡ sid_at (get_or line.now.params 0 []) }
{
    Sid::parse(line.params().next().unwrap_or("").as_bytes())
}

/// Returns the session identifier of whom this operator sent away, if a message of the type QUI says so.
pub(crate) fn sent_away_by(line: &Line, operator: Sid) -> Option<Sid>
    ensures some { IfSome result (λ sid. IsSentAway line.now sid operator) }
    ensures none { IfNone result ((sid : ℕ) → IsSentAway line.now sid operator → ⊥) }
{
    if sender_away(line) != Some(operator) {
        return None;
    }
    sid_in(line)
}

/// Returns the session identifier of the user who sent another away, if a message of the type QUI names it.
fn sender_away(line: &Line) -> Option<Sid>
    ensures { IsSender line.now result }
{
    let mut words = line.params();
    words.next();
    match field_among(words, "ID") {
        Some(word) => Sid::parse(word.as_bytes()),
        None => None,
    }
}
