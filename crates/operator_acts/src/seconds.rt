ghost use Rattle.std.specs.Prelude.{◌≡◌};
ghost use Rattle.std.specs.Str.{all_ascii_digits};
ghost use Rattle.operator_acts.specs.Acts.{seconds_at};

/// The most digits that a number of seconds has.
const MAX_DIGITS: usize = 10;

/// Reads the number of seconds that one to ten digits write, up to 4,294,967,295.
#[tactic(auto, unfolding(crate::specs::Acts::seconds_at))]
pub(crate) fn seconds_at(word: &str) -> Option<u32>
    ensures { result ≡ seconds_at word.now }
{
    if word.is_empty() || word.len() > MAX_DIGITS || !are_digits(word.as_bytes()) {
        return None;
    }
    word.parse::<u32>().ok()
}

fn are_digits(word: &[u8]) -> bool
    ensures { result ≡ all_ascii_digits word.now }
{
    word.iter().all(|c| c.is_ascii_digit())
}
