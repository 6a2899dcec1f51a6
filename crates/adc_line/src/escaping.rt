ghost use Rattle.std.specs.Prelude.{◌≡◌, ℕ, List, ◌++◌, ◌∷◌, ◌<◌, length, take, slice_index, IfOk, IfErr, IfSome, IfNone, OnSome, IsTrue, MatchOption, false};
ghost use Rattle.std.specs.String.{string_bytes};
ghost use Rattle.std.specs.List.{All};
ghost use Rattle.std.specs.Option.{option_map};
ghost use Rattle.std.specs.Str.{IsUtf8};
ghost use Rattle.adc_line.specs.Escapes.{backslash, escaped_text, escaped_byte, escape_means, is_special, unescaped_text};

use crate::fault::UnescapeFault;
use memchr::memchr3;
use std::alloc::{AllocError, Global};

/// Writes the spelling of a text within one word: blank as `\s`, line feed as `\n`, backslash as `\\`, and every other
/// character as itself (ADC 1.0, "Message syntax"). Refused only where memory runs out.
pub fn escape(alloc: Global, text: &str) -> Result<String, AllocError>
    ensures spelling { IfOk result (λ word. string_bytes word ≡ escaped_text text.now) }
    ensures back { IfOk result (λ word. unescaped_text (string_bytes word) ≡ Some text.now) }
{
    escape_runs(alloc, text)
}

fn escape_runs(alloc: Global, text: &str) -> Result<String, AllocError>
    ensures { IfOk result (λ word. string_bytes word ≡ escaped_text text.now) }
{
    let mut word = String::with_capacity(alloc, text.len())?;
    let mut rest = text;
    'runs: loop {
        let (plain, special) = first_run(rest);
        word.push_str(plain)?;
        let Some((byte, after)) = special else {
            return Ok(word);
        };
        word.push_str(spelling(byte))?;
        rest = after;
    }
}

/// Gives the text that a word spells: the reverse of [`escape`] (ADC 1.0, "Message syntax").
///
/// Refused with `Escape` where no text has this spelling: a backslash begins no escape, or a blank or
/// a line feed stands for itself; with `Memory` where memory ran out before that was seen.
pub fn unescape(alloc: Global, word: &str) -> Result<String, UnescapeFault>
    ensures exact { IfOk result (λ text. unescaped_text word.now ≡ Some (string_bytes text)) }
    ensures spelling { IfOk result (λ text. escaped_text (string_bytes text) ≡ word.now) }
    ensures one { IfOk result (λ text. (other : List ℕ) → escaped_text other ≡ word.now → other ≡ string_bytes text) }
    ensures fault { IfErr result (λ fault. fault ≡ UnescapeFault.Escape → unescaped_text word.now ≡ None) }
    ensures no_text { IfErr result (λ fault. fault ≡ UnescapeFault.Escape → (text : List ℕ) → escaped_text text ≡ word.now → ⊥) }
{
    unescape_runs(alloc, word)
}

fn unescape_runs(alloc: Global, word: &str) -> Result<String, UnescapeFault>
    ensures exact { IfOk result (λ text. unescaped_text word.now ≡ Some (string_bytes text)) }
    ensures fault { IfErr result (λ fault. fault ≡ UnescapeFault.Escape → unescaped_text word.now ≡ None) }
{
    let mut text = String::with_capacity(alloc, word.len())?;
    let mut rest = word;
    'runs: loop {
        let (plain, special) = first_run(rest);
        text.push_str(plain)?;
        let Some((byte, after)) = special else {
            return Ok(text);
        };
        if byte != b'\\' {
            return Err(UnescapeFault::Escape);
        }
        let Some((meant, left)) = first_meant(after) else {
            return Err(UnescapeFault::Escape);
        };
        text.push(meant)?;
        rest = left;
    }
}

/// Reads the escape whose backslash is before the text; gives what it stands for, and what follows it.
fn first_meant(text: &str) -> Option<(char, &str)>
    ensures some { IfSome result (λ x. unescaped_text (backslash ∷ text.now) ≡ option_map (λ rest. x.0 ∷ rest) (unescaped_text x.1.now)) }
    ensures ascii { IfSome result (λ x. x.0 < 128) }
    ensures shorter { IfSome result (λ x. length x.1.now < length text.now) }
    ensures utf8 { IfSome result (λ x. IsUtf8 x.1.now) }
    ensures none { IfNone result (unescaped_text (backslash ∷ text.now) ≡ None) }
{
    let [letter, ..] = text.as_bytes() else {
        return None;
    };
    let meant = escape_means(*letter)?;
    Some((meant, &text[1..]))
}

#[tactic(auto, unfolding(crate::specs::Escapes::escape_means))]
fn escape_means(letter: u8) -> Option<char>
    ensures exact { result ≡ escape_means letter }
    ensures ascii { IfSome result (λ meant. meant < 128) }
    ensures letter { OnSome result (letter < 128) }
{
    match letter {
        b's' => Some(' '),
        b'n' => Some('\n'),
        b'\\' => Some('\\'),
        _ => None,
    }
}

/// Splits a text into what is before the first byte that does not stand for itself, then that byte and what follows it.
fn first_run(text: &str) -> (&str, Option<(u8, &str)>)
    ensures plain { All (λ b. is_special b ≡ false) result.0.now }
    ensures cut { MatchOption result.1 (text.now ≡ result.0.now) (λ x. text.now ≡ result.0.now ++ x.0 ∷ x.1.now) }
    ensures special { MatchOption result.1 (Unit {0}) (λ x. IsTrue (is_special x.0)) }
{
    let bytes = text.as_bytes();
    match first_special(bytes) {
        Some(at) => (&text[..at], Some((bytes[at], &text[at + 1..]))),
        None => (text, None),
    }
}

/// Finds the place of the first byte that does not stand for itself.
#[tactic(auto, using(crate::proofs::SearchLemmas::searches))]
fn first_special(bytes: &[u8]) -> Option<usize>
    ensures within { IfSome result (λ at. at < length bytes.now) }
    ensures special { IfSome result (λ at. IsTrue (is_special (slice_index bytes.now at))) }
    ensures plain { MatchOption result (All (λ b. is_special b ≡ false) bytes.now) (λ at. All (λ b. is_special b ≡ false) (take at bytes.now)) }
{
    memchr3(b' ', b'\n', b'\\', bytes)
}

/// Gives the escape of a byte that does not stand for itself.
fn spelling(special: u8) -> &'static str
    requires { IsTrue (is_special special) }
    ensures { result.now ≡ escaped_byte special }
{
    match special {
        b' ' => "\\s",
        b'\n' => "\\n",
        _ => "\\\\",
    }
}
