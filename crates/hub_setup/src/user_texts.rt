ghost use Rattle.std.specs.Prelude.{◌≡◌, ◌++◌, codes, IfOk, OnOk};
ghost use Rattle.std.specs.Fmt.{decimal};
ghost use Rattle.std.specs.Option.{option_copied};
ghost use Rattle.hub_rules.specs.Texts.{ban_field, client_type, removal_line, text_field, update_line, user_line};

use crate::accounts::Registered;
use crate::texts::with_line_feed;
use adc_base32::Sid;
use adc_line::escape;
use bytes::Bytes;
use inf_fields::{Fields, Update};
use std::alloc::{AllocError, Global};

/// Writes a user with all that is known of it, and with what the hub says of it: CT4 of an operator, CT2 of another
/// registered user; with the line feed (ADC 1.0, "INF"). Refused only where memory runs out.
#[tactic(auto, unfolding(hub_rules::specs::Texts::user_line))]
pub fn user_line(
    alloc: Global,
    sid: Sid,
    fields: &Fields,
    account: Option<&Registered>,
) -> Result<Bytes, AllocError>
    ensures { IfOk result (λ line. line ≡ user_line sid fields.now (option_copied account.entry)) }
{
    let text = fields.print(alloc).map_err(|_| AllocError)?;
    let mut line = Vec::with_capacity(alloc, text.len().saturating_add(14))?;
    line.extend_from_slice(b"BINF ")?;
    line.extend_from_slice(&sid.text())?;
    line.extend_from_slice(text.as_bytes())?;
    line.extend_from_slice(client_type(account))?;
    with_line_feed(line)
}

/// Gives what the hub says of a user.
fn client_type(account: Option<&Registered>) -> &'static [u8]
    ensures { result.now ≡ client_type (option_copied account.entry) }
{
    match account {
        Some(account) => {
            if account.is_operator() {
                b" CT4"
            } else {
                b" CT2"
            }
        }
        None => b"",
    }
}

/// Writes what changes of a user, the fields that are taken away too, with the line feed (ADC 1.0, "INF"). Refused only
/// where memory runs out.
#[tactic(auto, unfolding(hub_rules::specs::Texts::update_line))]
pub fn update_line(alloc: Global, sid: Sid, update: &Update) -> Result<Bytes, AllocError>
    ensures { IfOk result (λ line. line ≡ update_line sid update.now) }
{
    let text = update.print(alloc).map_err(|_| AllocError)?;
    let mut line = Vec::with_capacity(alloc, text.len().saturating_add(10))?;
    line.extend_from_slice(b"BINF ")?;
    line.extend_from_slice(&sid.text())?;
    line.extend_from_slice(text.as_bytes())?;
    with_line_feed(line)
}

/// Writes that an operator shut a user out: for good where `seconds` is 0, for so many seconds, or only for now where there
/// are none. With it come the reason, where it is not empty, and the line feed (ADC 1.0, "QUI"). Refused only where memory
/// runs out.
#[tactic(auto, unfolding(hub_rules::specs::Texts::removal_line))]
pub fn removal_line(
    alloc: Global,
    target: Sid,
    operator: Sid,
    seconds: Option<u32>,
    reason: &str,
) -> Result<Bytes, AllocError>
    ensures { IfOk result (λ line. line ≡ removal_line target operator seconds reason.now) }
{
    let mut line = Vec::with_capacity(alloc, reason.len().saturating_add(48))?;
    line.extend_from_slice(b"IQUI ")?;
    line.extend_from_slice(&target.text())?;
    line.extend_from_slice(b" ID")?;
    line.extend_from_slice(&operator.text())?;
    push_ban(alloc, &mut line, seconds)?;
    push_reason(alloc, &mut line, reason)?;
    with_line_feed(line)
}

/// Adds for how long the user is shut out.
fn push_ban(alloc: Global, line: &mut Vec<u8>, seconds: Option<u32>) -> Result<(), AllocError>
    ensures { OnOk result (line.new.items ≡ line.old.items ++ ban_field seconds) }
{
    match seconds {
        Some(seconds) => push_time(alloc, line, seconds),
        None => Ok(()),
    }
}

/// Adds the time; 0 is for good.
fn push_time(alloc: Global, line: &mut Vec<u8>, seconds: u32) -> Result<(), AllocError>
    ensures { OnOk result (line.new.items ≡ line.old.items ++ ban_field (Some seconds)) }
{
    if seconds == 0 {
        line.extend_from_slice(b" TL-1")
    } else {
        push_seconds(alloc, line, seconds)
    }
}

fn push_seconds(alloc: Global, line: &mut Vec<u8>, seconds: u32) -> Result<(), AllocError>
    ensures { OnOk result (line.new.items ≡ line.old.items ++ codes " TL" ++ decimal seconds) }
{
    let text = format!(in alloc; "{seconds}")?;
    line.extend_from_slice(b" TL")?;
    line.extend_from_slice(text.as_bytes())
}

/// Adds the reason, where there is one.
fn push_reason(alloc: Global, line: &mut Vec<u8>, reason: &str) -> Result<(), AllocError>
    ensures { OnOk result (line.new.items ≡ line.old.items ++ text_field (codes " MS") reason.now) }
{
    if reason.is_empty() {
        return Ok(());
    }
    line.extend_from_slice(b" MS")?;
    line.extend_from_slice(escape(alloc, reason)?.as_bytes())
}
