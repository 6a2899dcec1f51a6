//! Reports on a written history.

ghost use Rattle.std.specs.Prelude.{◌≡◌, ◌++◌, ◌<◌, ◌↔◌, List, codes, IfOk, OnOk};
ghost use Rattle.std.specs.Arc.{arc_value};
ghost use Rattle.history_check.specs.Reported.{IsLegalText, ReportsHistory, demand_text, judgement_text, line_text, reply_text, written_byte, written_bytes};
ghost use Rattle.history_check.specs.Text.{hex_digit};
ghost use Rattle.history_check.specs.Written.{reply_of};

use crate::check::{Demand, Judgement, check_history};
use crate::reading::{ReadFault, read_history};
use crate::written::WrittenReply;
use hub_core::{Setup, Verdict};
use session_hash::SessionHash;
use std::alloc::{AllocError, Global};
use std::sync::Arc;

/// Reports `legal` on a written history, or the first line that is at fault and what the rules demand there, without a
/// line feed.
///
/// Fails only if an allocation fails.
pub fn report_history<H: SessionHash>(
    alloc: Global,
    setup: Arc<Setup>,
    hash: &H,
    text: &[u8],
) -> Result<Vec<u8>, AllocError>
    ensures reports { IfOk result (λ report. ReportsHistory (arc_value setup) (H.digest_of hash.now) text.now report.items) }
    ensures legal { IfOk result (λ report. (report.items ≡ codes "legal") ↔ IsLegalText (arc_value setup) (H.digest_of hash.now) text.now) }
{
    let written = match read_history(alloc, text) {
        Ok(written) => written,
        Err(ReadFault::Memory) => return Err(AllocError),
        Err(ReadFault::Line(number)) => return tell_line(alloc, number, "is no entry"),
    };
    let judgement = check_history(alloc, setup, hash, &written.entries)?;
    tell_judgement(alloc, &written.lines, &judgement)
}

fn tell_judgement(
    alloc: Global,
    lines: &[usize],
    judgement: &Judgement,
) -> Result<Vec<u8>, AllocError>
    ensures { IfOk result (λ text. text.items ≡ judgement_text lines.now judgement.now) }
{
    match judgement {
        Judgement::Legal => Vec::from_slice(alloc, b"legal"),
        Judgement::Fault(place, demand) => {
            let number = lines.get(*place).copied().unwrap_or(0);
            tell_demand(alloc, number, demand)
        }
    }
}

fn tell_demand(alloc: Global, number: usize, demand: &Demand) -> Result<Vec<u8>, AllocError>
    ensures { IfOk result (λ text. text.items ≡ line_text number (demand_text demand.now)) }
{
    match demand {
        Demand::NoCall => tell_line(alloc, number, "may not be called there"),
        Demand::Gives(reply) => {
            let mut text = tell_line(alloc, number, "is to be answered ")?;
            append_reply(&mut text, alloc, reply)?;
            Ok(text)
        }
    }
}

#[tactic(auto, unfolding(crate::specs::Reported::line_text))]
fn tell_line(alloc: Global, number: usize, what: &str) -> Result<Vec<u8>, AllocError>
    ensures { IfOk result (λ text. text.items ≡ line_text number what.now) }
{
    Ok(format!(in alloc; "line {number} {what}")?.into_bytes())
}

#[tactic(auto, unfolding(crate::specs::Reported::reply_text))]
fn append_reply(text: &mut Vec<u8>, alloc: Global, reply: &WrittenReply) -> Result<(), AllocError>
    ensures { OnOk result (text.new.items ≡ text.old.items ++ reply_text (reply_of reply.now)) }
{
    match reply {
        WrittenReply::Joined(number) => {
            let number = *number;
            text.extend_from_slice(format!(in alloc; "joined {number}")?.as_bytes())
        }
        WrittenReply::Full => text.extend_from_slice(b"full"),
        WrittenReply::JoinsSpent => text.extend_from_slice(b"joins-spent"),
        WrittenReply::Said(Verdict::Kept) => text.extend_from_slice(b"kept"),
        WrittenReply::Said(Verdict::Ended) => text.extend_from_slice(b"ended"),
        WrittenReply::Left => text.extend_from_slice(b"left"),
        WrittenReply::Took(bytes, lines, ended) => {
            let lines = *lines;
            let end = if *ended { "over" } else { "more" };
            text.extend_from_slice(format!(in alloc; "{lines} {end} ")?.as_bytes())?;
            append_bytes(text, bytes)
        }
    }
}

/// Appends bytes as a history has them.
#[tactic(auto, unfolding(crate::specs::Reported::written_bytes))]
fn append_bytes(text: &mut Vec<u8>, bytes: &[u8]) -> Result<(), AllocError>
    ensures { OnOk result (text.new.items ≡ text.old.items ++ written_bytes bytes.now) }
{
    for byte in bytes {
        append_byte(text, *byte)?;
    }
    Ok(())
}

fn append_byte(text: &mut Vec<u8>, byte: u8) -> Result<(), AllocError>
    ensures { OnOk result (text.new.items ≡ text.old.items ++ written_byte byte) }
{
    if byte < b' ' || byte == b'%' {
        text.extend_from_slice(&[b'%', digit(byte / 16), digit(byte % 16)])
    } else {
        text.extend_from_slice(&[byte])
    }
}

/// Returns the hexadecimal digit of a value.
fn digit(value: u8) -> u8
    requires { value < 16 }
    ensures { result ≡ hex_digit value }
{
    if value < 10 {
        b'0' + value
    } else {
        b'A' + (value - 10)
    }
}
