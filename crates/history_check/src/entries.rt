//! The entry of a line.

ghost use Rattle.std.specs.Prelude.{◌≡◌, IfOk, IfSome};
ghost use Rattle.std.specs.Option.{option_map};
ghost use Rattle.adc_base32.specs.Spelled.{spelled_bytes};
ghost use Rattle.history_check.specs.Reading.{read_call, read_count, read_end, read_entry, read_join, read_joined, read_line, read_quit, read_take, read_verdict, said_of};
ghost use Rattle.history_check.specs.Written.{entry_of, reply_of};

use crate::escapes::read_bytes;
use crate::words::{address, number, word};
use crate::written::{LineCount, WrittenCall, WrittenEntry, WrittenReply};
use adc_base32::decode24;
use hub_core::Verdict;
use std::alloc::{AllocError, Global};

/// Reads the entry of a line; `None` if the line writes none.
#[tactic(auto, unfolding(crate::specs::Reading::read_entry))]
pub(crate) fn read_entry(alloc: Global, line: &[u8]) -> Result<Option<WrittenEntry>, AllocError>
    ensures { IfOk result (λ entry. option_map entry_of entry ≡ read_entry line.now) }
{
    let (caller, rest) = word(line);
    let (kind, rest) = word(rest);
    let Some(caller) = number(caller) else {
        return Ok(None);
    };
    let Some((call, reply)) = read_call(alloc, kind, rest)? else {
        return Ok(None);
    };
    Ok(Some(WrittenEntry {
        caller,
        call,
        reply,
    }))
}

// Words are compared: a body that matches on them is dear to prove.

#[tactic(auto, unfolding(crate::specs::Reading::read_call))]
fn read_call(
    alloc: Global,
    kind: &[u8],
    text: &[u8],
) -> Result<Option<(WrittenCall, WrittenReply)>, AllocError>
    ensures { IfOk result (λ said. option_map said_of said ≡ read_call kind.now text.now) }
{
    if kind == b"join".as_slice() {
        Ok(read_join(text))
    } else if kind == b"line".as_slice() {
        read_line(alloc, text)
    } else if kind == b"quit".as_slice() {
        Ok(read_quit(text))
    } else if kind == b"take".as_slice() {
        read_take(alloc, text)
    } else {
        Ok(None)
    }
}

#[tactic(auto, unfolding(crate::specs::Reading::read_join))]
fn read_join(text: &[u8]) -> Option<(WrittenCall, WrittenReply)>
    ensures { option_map said_of result ≡ read_join text.now }
{
    let (peer, rest) = word(text);
    let (challenge, rest) = word(rest);
    let (now, rest) = word(rest);
    let peer = address(peer)?;
    let challenge = challenge_of(challenge)?;
    let now = number(now)?;
    let reply = read_joined(rest)?;
    Some((WrittenCall::Join(peer, challenge, now), reply))
}

fn challenge_of(word: &[u8]) -> Option<[u8; 24]>
    ensures { result ≡ spelled_bytes 24 word.now }
{
    match decode24(word) {
        Ok(challenge) => Some(challenge),
        Err(_) => None,
    }
}

/// Reads the reply to a join, up to the end of the line.
#[tactic(auto, unfolding(crate::specs::Reading::read_joined))]
fn read_joined(text: &[u8]) -> Option<WrittenReply>
    ensures { option_map reply_of result ≡ read_joined text.now }
{
    if text == b"full".as_slice() {
        return Some(WrittenReply::Full);
    }
    if text == b"joins-spent".as_slice() {
        return Some(WrittenReply::JoinsSpent);
    }
    let (told, connection) = word(text);
    if told != b"joined".as_slice() {
        return None;
    }
    let connection = number(connection)?;
    Some(WrittenReply::Joined(connection))
}

#[tactic(auto, unfolding(crate::specs::Reading::read_line))]
fn read_line(alloc: Global, text: &[u8]) -> Result<Option<(WrittenCall, WrittenReply)>, AllocError>
    ensures { IfOk result (λ said. option_map said_of said ≡ read_line text.now) }
{
    let (connection, rest) = word(text);
    let (now, rest) = word(rest);
    let (verdict, rest) = word(rest);
    let Some(connection) = number(connection) else {
        return Ok(None);
    };
    let Some(now) = number(now) else {
        return Ok(None);
    };
    let Some(verdict) = verdict_of(verdict) else {
        return Ok(None);
    };
    let Some(bytes) = read_bytes(alloc, rest)? else {
        return Ok(None);
    };
    Ok(Some((
        WrittenCall::Line(connection, bytes, now),
        WrittenReply::Said(verdict),
    )))
}

#[tactic(auto, unfolding(crate::specs::Reading::read_verdict))]
fn verdict_of(word: &[u8]) -> Option<Verdict>
    ensures { result ≡ read_verdict word.now }
{
    if word == b"kept".as_slice() {
        Some(Verdict::Kept)
    } else if word == b"ended".as_slice() {
        Some(Verdict::Ended)
    } else {
        None
    }
}

#[tactic(auto, unfolding(crate::specs::Reading::read_quit))]
fn read_quit(text: &[u8]) -> Option<(WrittenCall, WrittenReply)>
    ensures { option_map said_of result ≡ read_quit text.now }
{
    let (connection, rest) = word(text);
    let connection = number(connection)?;
    if rest != b"left".as_slice() {
        return None;
    }
    Some((WrittenCall::Quit(connection), WrittenReply::Left))
}

#[tactic(auto, unfolding(crate::specs::Reading::read_take))]
fn read_take(alloc: Global, text: &[u8]) -> Result<Option<(WrittenCall, WrittenReply)>, AllocError>
    ensures { IfOk result (λ said. option_map said_of said ≡ read_take text.now) }
{
    let (connection, rest) = word(text);
    let (asked, rest) = word(rest);
    let (lines, rest) = word(rest);
    let (ended, rest) = word(rest);
    let Some(connection) = number(connection) else {
        return Ok(None);
    };
    let Some(count) = count_of(asked) else {
        return Ok(None);
    };
    let Some(lines) = number(lines) else {
        return Ok(None);
    };
    let Some(ended) = end_of(ended) else {
        return Ok(None);
    };
    let Some(bytes) = read_bytes(alloc, rest)? else {
        return Ok(None);
    };
    let reply = WrittenReply::Took(bytes, lines, ended);
    Ok(Some((WrittenCall::Take(connection, count), reply)))
}

/// Reads a number of lines that a take may ask for.
#[tactic(auto, unfolding(crate::specs::Reading::read_count))]
fn count_of(word: &[u8]) -> Option<LineCount>
    ensures { result ≡ read_count word.now }
{
    let count = number(word)?;
    LineCount::new(count as usize)
}

/// Reads whether nothing will follow.
#[tactic(auto, unfolding(crate::specs::Reading::read_end))]
fn end_of(word: &[u8]) -> Option<bool>
    ensures { result ≡ read_end word.now }
{
    if word == b"more".as_slice() {
        Some(false)
    } else if word == b"over".as_slice() {
        Some(true)
    } else {
        None
    }
}
