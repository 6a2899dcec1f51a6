ghost use Rattle.std.specs.Prelude.{◌≡◌};
ghost use Rattle.std.specs.Char.{is_ascii_digit};
ghost use Rattle.std.specs.List.{list_all};
ghost use Rattle.inf_fields.specs.Amounts.{is_bad_number, is_short_number, number_at};

/// Reads the number that a value of SS (bytes shared) or SF (files shared) spells: 1 to 20 decimal digits, and below 2 to
/// the 64th. `None` for any other value. Takes no memory (ADC 1.0, "INF").
#[tactic(auto, unfolding(crate::specs::Amounts::number_at))]
pub fn shared_amount(value: &str) -> Option<u64>
    ensures { result ≡ number_at value.now }
{
    if !is_short_number(value.as_bytes()) {
        return None;
    }
    value.parse().ok()
}

/// Tests whether the value of a field that is to be a number, SS or SF, is none. It may be empty. Takes no memory (ADC 1.0, "INF").
pub fn is_bad_number(value: &str) -> bool
    ensures { result ≡ is_bad_number value.now }
{
    match value.as_bytes() {
        [] => false,
        [_, ..] => shared_amount(value).is_none(),
    }
}

fn is_short_number(digits: &[u8]) -> bool
    ensures { result ≡ is_short_number digits.now }
{
    1 <= digits.len() && digits.len() <= 20 && are_digits(digits)
}

fn are_digits(bytes: &[u8]) -> bool
    ensures { result ≡ list_all is_ascii_digit bytes.now }
{
    bytes.iter().all(|b| b.is_ascii_digit())
}
