ghost use Rattle.std.specs.Prelude.{◌≡◌, true, false, ℕ, List, IfOk, IfErr, chars, string_bytes, encode_utf8_all};
ghost use Rattle.std.specs.Bool.{Decides};
ghost use Rattle.unicode_normalization.specs.Forms.{nfc};
ghost use Rattle.adc_ids.specs.Nicks.{IsNick, is_nick};

use std::alloc::{AllocError, Global};
use std::marker::Model;
use unicode_normalization::to_nfc;

/// The reasons for which a text is no nick. The tests are made in the order 2, 1.
#[derive(Clone, Copy, Debug, PartialEq, Eq)]
pub enum NickFault {
    /// Memory ran out.
    Memory = 1,
    /// The text has no code point, more than 64, or one that is 32 or below.
    Invalid = 2,
}

impl From<AllocError> for NickFault {
    ghost use Rattle.adc_ids.specs.declared.nick.NickFault.TheVariants.{Memory};

    ghost from_gives = { λ _ fault. fault ≡ Memory };

    fn from(_: AllocError) -> NickFault {
        NickFault::Memory
    }
}

/// A user's name: 1 to 64 code points, each above 32 (ADC 1.0, the field NI of "INF").
#[derive(Drop)]
pub struct Nick {
    text: String,
}

impl Model for Nick {
    ghost Value = { List ℕ };

    ghost view = { λ nick. chars (string_bytes nick.text) };

    ghost invariant = { λ nick. IsNick (chars (string_bytes nick.text)) };
}

impl Nick {
    /// Reads the nick of a text. Refused, in this order: with `Invalid` where the text has no code point, more than 64, or
    /// one that is 32 or below; with `Memory` where memory runs out.
    pub fn parse(alloc: Global, text: &str) -> Result<Nick, NickFault>
        ensures exact { IfOk result (λ nick. nick ≡ chars text.now) }
        ensures valid { IfOk result (λ nick. IsNick nick) }
        ensures invalid { IfErr result (λ fault. fault ≡ NickFault.Invalid → IsNick (chars text.now) → ⊥) }
        ensures accepted { IfOk result (λ nick. is_nick nick ≡ true) }
        ensures refused { IfErr result (λ fault. fault ≡ NickFault.Invalid → is_nick (chars text.now) ≡ false) }
        ensures memory { IfErr result (λ fault. fault ≡ NickFault.Memory → is_nick (chars text.now) ≡ true) }
    {
        if !is_nick(text) {
            return Err(NickFault::Invalid);
        }
        Ok(Nick {
            text: String::from_str(alloc, text)?,
        })
    }

    /// Gives what two nicks that are the same share: the text in Unicode's normal form C. Letters keep
    /// their case. Refused only where memory runs out.
    pub fn key(&self, alloc: Global) -> Result<String, AllocError>
        ensures { IfOk result (λ key. string_bytes key ≡ encode_utf8_all (nfc self.now)) }
    {
        to_nfc(alloc, &self.text)
    }
}

fn is_nick(text: &str) -> bool
    ensures decides { Decides result (IsNick (chars text.now)) }
    ensures tells { result ≡ is_nick (chars text.now) }
{
    tells_nick(text)
}

/// Tests whether a text is a nick, by its code points.
fn tells_nick(text: &str) -> bool
    ensures { Decides result (IsNick (chars text.now)) }
{
    let mut points: u32 = 0;
    'points: for point in text.chars() {
        if u32::from(point) <= 32 {
            return false;
        }
        if points == 64 {
            return false;
        }
        points += 1;
    }
    points > 0
}
