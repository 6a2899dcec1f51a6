ghost use Rattle.std.specs.Prelude.{◌≡◌, ◌++◌, codes, IfOk, OnOk};
ghost use Rattle.std.specs.String.{string_bytes};
ghost use Rattle.login_state.specs.Denials as denials;
ghost use Rattle.hub_rules.specs.Texts.{challenge_line, done_line, with_line_feed, hub_line, identifier_line, ping_fields, support_line, text_field, topic_line};

use crate::setup::Setup;
use adc_base32::{Sid, encode24};
use adc_line::{Line, escape};
use bytes::Bytes;
use login_state::Deny;
use std::alloc::{AllocError, Global};
use user_table::Totals;

/// Writes what the hub supports, with the line feed (ADC 1.0, "SUP"). Takes no memory.
#[tactic(auto, unfolding(hub_rules::specs::Texts::support_line))]
pub fn support_line(_alloc: Global) -> Result<Bytes, AllocError>
    ensures { IfOk result (λ line. line ≡ support_line) }
{
    Ok(Bytes::from_static(b"ISUP ADBASE ADTIGR ADPING ADUCMD\n"))
}

/// Writes the session identifier of a client, with the line feed (ADC 1.0, "SID"). Refused only where memory runs out.
#[tactic(auto, unfolding(hub_rules::specs::Texts::identifier_line))]
pub fn identifier_line(alloc: Global, sid: Sid) -> Result<Bytes, AllocError>
    ensures { IfOk result (λ line. line ≡ identifier_line sid) }
{
    let [a, b, c, d] = sid.text();
    Bytes::copy_from_slice(alloc, &[b'I', b'S', b'I', b'D', b' ', a, b, c, d, b'\n'])
}

/// Writes the hub itself: its type, name, version and topic, and what a client hears that asked about the hub, with the
/// line feed (ADC 1.0, "INF"; ADC-EXT, "PING"). `ping` is empty, or what [`ping_fields`] gave. Refused only where memory
/// runs out.
#[tactic(auto, unfolding(hub_rules::specs::Texts::hub_line))]
pub fn hub_line(alloc: Global, setup: &Setup, topic: &str, ping: &str) -> Result<Bytes, AllocError>
    ensures { IfOk result (λ line. line ≡ hub_line setup.now topic.now ping.now) }
{
    let mut line = Vec::with_capacity(alloc, 256)?;
    line.extend_from_slice(b"IINF CT32 NI")?;
    line.extend_from_slice(escape(alloc, setup.name())?.as_bytes())?;
    line.extend_from_slice(b" VEadc-hub\\s1.0")?;
    push_topic(alloc, &mut line, topic)?;
    line.extend_from_slice(ping.as_bytes())?;
    with_line_feed(line)
}

/// Adds the topic, where there is one.
fn push_topic(alloc: Global, line: &mut Vec<u8>, topic: &str) -> Result<(), AllocError>
    ensures { OnOk result (line.new.items ≡ line.old.items ++ text_field (codes " DE") topic.now) }
{
    if topic.is_empty() {
        return Ok(());
    }
    line.extend_from_slice(b" DE")?;
    line.extend_from_slice(escape(alloc, topic)?.as_bytes())
}

/// Writes what a client hears that asked about the hub, each field with a blank before it (ADC-EXT, "PING"). The fields are
/// how many users are present, the bytes and files that they share, how many users may come, and for how many seconds the
/// hub is open. Refused only where memory runs out.
pub fn ping_fields(
    alloc: Global,
    totals: &Totals,
    max_users: u32,
    seconds: u64,
) -> Result<String, AllocError>
    ensures { IfOk result (λ text. string_bytes text ≡ ping_fields totals.now max_users seconds) }
{
    let Totals { users, ss, sf } = *totals;
    format!(in alloc; " UC{users} SS{ss} SF{sf} MC{max_users} UP{seconds}")
}

/// Writes a new topic, which may be empty, with the line feed (ADC 1.0, "INF"). Refused only where memory runs out.
#[tactic(auto, unfolding(hub_rules::specs::Texts::topic_line))]
pub fn topic_line(alloc: Global, topic: &str) -> Result<Bytes, AllocError>
    ensures { IfOk result (λ line. line ≡ topic_line topic.now) }
{
    let word = escape(alloc, topic)?;
    let mut line = Vec::with_capacity(alloc, word.len().saturating_add(8))?;
    line.extend_from_slice(b"IINF DE")?;
    line.extend_from_slice(word.as_bytes())?;
    with_line_feed(line)
}

/// Writes the challenge with which a client is to hash its password, with the line feed (ADC 1.0, "GPA"). Refused only
/// where memory runs out.
#[tactic(auto, unfolding(hub_rules::specs::Texts::challenge_line))]
pub fn challenge_line(alloc: Global, challenge: [u8; 24]) -> Result<Bytes, AllocError>
    ensures { IfOk result (λ line. line ≡ challenge_line challenge) }
{
    let mut line = Vec::with_capacity(alloc, 45)?;
    line.extend_from_slice(b"IGPA ")?;
    line.extend_from_slice(&encode24(&challenge))?;
    with_line_feed(line)
}

/// Writes that a command of an operator was carried out, with the line feed (ADC 1.0, "STA"). Takes no memory.
#[tactic(auto, unfolding(hub_rules::specs::Texts::done_line))]
pub fn done_line(_alloc: Global) -> Result<Bytes, AllocError>
    ensures { IfOk result (λ line. line ≡ done_line) }
{
    Ok(Bytes::from_static(b"ISTA 000 Done\n"))
}

/// Writes a message as it came, with a line feed: it is passed on unchanged. Refused only where memory runs out.
pub fn passed_line(alloc: Global, line: &Line) -> Result<Bytes, AllocError>
    ensures { IfOk result (λ passed. passed ≡ with_line_feed line.now.text) }
{
    let text = line.text();
    let mut passed = Vec::with_capacity(alloc, text.len().saturating_add(1))?;
    passed.extend_from_slice(text.as_bytes())?;
    with_line_feed(passed)
}

/// Writes why a line is refused, with the line feed (ADC 1.0, "STA"). Refused only where memory runs out.
pub fn denial_line(alloc: Global, deny: Deny) -> Result<Bytes, AllocError>
    ensures { IfOk result (λ line. line ≡ denials.denial_line deny) }
{
    Ok(Bytes::from_vec(deny.line(alloc)?)?)
}

/// Makes a message of its text and a line feed.
pub(crate) fn with_line_feed(text: Vec<u8>) -> Result<Bytes, AllocError>
    ensures { IfOk result (λ line. line ≡ with_line_feed text.items) }
{
    let mut text = text;
    text.extend_from_slice(b"\n")?;
    Ok(Bytes::from_vec(text)?)
}
