ghost use Rattle.std.specs.Prelude.{◌≡◌, ℕ, ◌+◌, ◌<◌, ◌↔◌, length, IsSome, IfSome, IfNone};
ghost use Rattle.std.specs.List.{Contains};
ghost use Rattle.adc_base32.specs.FourDigits.{four_digits, read_digits};
ghost use Rattle.adc_base32.specs.Sids.{sid_count, sid_text, sid_at};
ghost use Rattle.adc_base32.specs.Turns.{IsNextFree, next_free};
ghost use Rattle.adc_base32.specs.Digits.{digit_of, value_at};

use crate::window::{WINDOW, WINDOWS, first_free};
use std::marker::Model;

/// Gives the character of a value.
#[tactic(auto, unfolding(crate::specs::Digits::digit_of))]
pub(crate) fn character(value: u8) -> u8
    requires { value < 32 }
    ensures exact { result ≡ digit_of value }
    ensures ascii { result < 128 }
{
    if value < 26 { value + b'A' } else { value + 24 }
}

/// Gives the value of a character that is a digit, below 32.
#[tactic(auto, unfolding(crate::specs::Digits::value_at))]
pub(crate) fn value(character: u8) -> Option<u8>
    ensures exact { result ≡ value_at character }
    ensures below { IfSome result (λ v. v < 32) }
{
    match character {
        b'A'..=b'Z' => Some(character - b'A'),
        b'2'..=b'7' => Some(character - 24),
        _ => None,
    }
}

/// The count of session identifiers.
const COUNT: u32 = 1_048_576;

/// A session identifier: the number by which a hub names a connection, from 0 to 1,048,575
/// (ADC 1.0, "Client identification").
#[derive(Clone, Copy, Debug, PartialEq, Eq, PartialOrd, Ord, Hash)]
pub struct Sid {
    number: u32,
}

impl Model for Sid {
    ghost Value = { ℕ };

    ghost view = { λ s. s.number };

    ghost invariant = { λ s. s.number < 1_048_576 };

    ghost inverse = { λ n. record { number = n } };
}

impl Sid {
    /// Makes the identifier with this number; `None` from 1,048,576 on.
    pub fn from_u32(number: u32) -> Option<Sid>
        ensures variant { IsSome result ↔ (number < sid_count) }
        ensures number { IfSome result (λ sid. sid ≡ number) }
    {
        if number < COUNT {
            Some(Sid { number })
        } else {
            None
        }
    }

    /// Gives its number, from 0 to 1,048,575.
    pub fn number(self) -> u32
        ensures exact { result ≡ self }
        ensures below { result < sid_count }
    {
        self.number
    }

    /// Reads the identifier that four base32 digits spell, the most significant first. `None` where the text has another
    /// length, or a character that is no digit; lower case is none.
    pub fn parse(text: &[u8]) -> Option<Sid>
        ensures spelt { IfSome result (λ sid. text.now ≡ sid_text sid) }
        ensures only { IfNone result ((n : ℕ) → n < sid_count → text.now ≡ sid_text n → ⊥) }
        ensures exact { result ≡ sid_at text.now }
    {
        read(text)
    }

    /// Gives its four base32 digits, the most significant first.
    pub fn text(&self) -> [u8; 4]
        ensures { result ≡ sid_text self.now }
    {
        let n = self.number;
        [
            character((n / 32768) as u8),
            character((n / 1024 % 32) as u8),
            character((n / 32 % 32) as u8),
            character((n % 32) as u8),
        ]
    }

    /// Gives the first of last + 1, last + 2 and so on that nobody in `taken` has, where 1 comes after 1,048,575. So
    /// identifier 0, `AAAA`, is never given. It takes no memory, and one pass over `taken` while that has no more than
    /// 1,024 items.
    pub fn next_free(last: u32, taken: &[Sid]) -> Sid
        requires last_in { last < sid_count }
        requires one_free { length taken.now + 1 < sid_count }
        ensures free { Contains taken.now result → ⊥ }
        ensures given { 0 < result }
        ensures first { IsNextFree last taken.now result }
        ensures exact { result ≡ next_free last taken.now }
    {
        'windows: for window in 0..WINDOWS {
            if let Some(number) = first_free(last, window * WINDOW, taken) {
                return Sid { number };
            }
        }
        unreachable!()
    }
}

fn read(text: &[u8]) -> Option<Sid>
    ensures { result ≡ read_digits text.now }
{
    let [a, b, c, d] = text else {
        return None;
    };
    four(*a, *b, *c, *d)
}

#[tactic(auto, unfolding(crate::specs::FourDigits::four_digits))]
fn four(a: u8, b: u8, c: u8, d: u8) -> Option<Sid>
    ensures { result ≡ four_digits a b c d }
{
    let a = u32::from(value(a)?);
    let b = u32::from(value(b)?);
    let c = u32::from(value(c)?);
    let d = u32::from(value(d)?);
    Some(Sid {
        number: ((a * 32 + b) * 32 + c) * 32 + d,
    })
}
