use crate::operating::{Hash, Login};
use crate::showing::printable;
use hub_client::{CidText, Who};
use std::alloc::{AllocError, Global};

/// Tells who was banned, and the command that takes it back.
pub(crate) fn taking_back(
    alloc: Global,
    who: Option<&Who>,
    login: &Login<'_>,
) -> Result<String, AllocError> {
    let Some(who) = who else {
        return String::from_str(alloc, UNKNOWN);
    };
    if CidText::parse(&who.cid).is_none() {
        return String::from_str(alloc, UNKNOWN);
    }
    let mut text = String::from_str(alloc, "banned: ")?;
    text.push_str(&printable(alloc, &who.nick)?)?;
    text.push_str(", ")?;
    text.push_str(&who.cid)?;
    text.push_str("\ntake it back by: ")?;
    push_unban(alloc, &mut text, &who.cid, login)?;
    Ok(text)
}

const UNKNOWN: &str = "banned: a user whose client identifier the hub did not tell";

fn push_unban(
    alloc: Global,
    text: &mut String,
    cid: &str,
    login: &Login<'_>,
) -> Result<(), AllocError> {
    let address = login.address.to_string(alloc)?;
    text.push_str("adc_hubctl unban")?;
    push_word(alloc, text, &address)?;
    push_word(alloc, text, cid)?;
    push_option(alloc, text, "--nick", Some(login.nick.as_str()))?;
    push_option(alloc, text, "--password-file", login.password_file)?;
    push_hash(alloc, text, &login.hash)
}

fn push_hash(alloc: Global, text: &mut String, hash: &Hash<'_>) -> Result<(), AllocError> {
    match hash {
        Hash::Tiger(tables) => push_option(alloc, text, "--tables", *tables),
        Hash::First24 => push_option(alloc, text, "--hash", Some("first24")),
    }
}

fn push_option(
    alloc: Global,
    text: &mut String,
    option: &str,
    value: Option<&str>,
) -> Result<(), AllocError> {
    let Some(value) = value else {
        return Ok(());
    };
    push_word(alloc, text, option)?;
    push_word(alloc, text, value)
}

/// Adds a word as a shell reads it, with a blank before it: between single quotes where the shell would take it for more than a word.
fn push_word(alloc: Global, text: &mut String, word: &str) -> Result<(), AllocError> {
    text.push_str(" ")?;
    if !word.is_empty() && word.bytes().all(is_plain) {
        return text.push_str(word);
    }
    text.push_str("'")?;
    for piece in printable(alloc, word)?.split_inclusive('\'') {
        match piece.strip_suffix('\'') {
            Some(piece) => {
                text.push_str(piece)?;
                text.push_str("'\\''")?;
            }
            None => text.push_str(piece)?,
        }
    }
    text.push_str("'")
}

/// Tests whether a shell takes this byte as it is, anywhere in a word.
fn is_plain(byte: u8) -> bool {
    byte.is_ascii_alphanumeric() || b"+,-./:@_".contains(&byte)
}
