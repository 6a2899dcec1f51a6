ghost use Rattle.std.specs.Prelude.{◌≡◌, ◌++◌, [], IfOk, IfErr, OnOk};
ghost use Rattle.std.specs.String.{string_bytes};
ghost use Rattle.hub_client.specs.Requests.{AsksFor, IsOverlong, SaysText, SecondsFit, act_asked, behind, request_bytes};

use crate::request::HubRequest;
use adc_line::{Line, LineFault, escape};
use std::alloc::{AllocError, Global};

/// The most bytes of a line.
const MAX_LINE: usize = 65_536;

/// The message to the hub that asks for this.
///
/// Refused: `TooLong` where it has more than 65,536 bytes, else only `Memory`.
pub fn act_line(alloc: Global, request: &HubRequest<'_>) -> Result<Line, LineFault>
    ensures asks { IfOk result (λ line. AsksFor line (act_asked request.now)) }
    ensures refused { IfErr result (λ fault. IsOverlong fault (request_bytes request.now)) }
{
    let text = request_text(alloc, request)?;
    message_to_hub(alloc, &text)
}

/// The text that asks for this, not escaped.
#[tactic(auto, unfolding(crate::specs::Requests::request_bytes))]
fn request_text(alloc: Global, request: &HubRequest<'_>) -> Result<String, AllocError>
    ensures exact { IfOk result (λ text. string_bytes text ≡ request_bytes request.now) }
    ensures fits { OnOk result (SecondsFit request.now) }
{
    match request {
        HubRequest::Kick(nick, reason) => words_of(alloc, "!kick ", nick.as_str(), reason),
        HubRequest::Ban(nick, seconds, reason) => {
            let seconds = *seconds;
            let head = format!(in alloc; "!ban {} {seconds}", nick.as_str())?;
            words_of(alloc, &head, "", reason)
        }
        HubRequest::Unban(cid) => words_of(alloc, "!unban ", cid.as_str(), ""),
        HubRequest::Topic(text) => words_of(alloc, "!topic", "", text),
    }
}

/// Two pieces of a text, and behind a blank its rest, where that is not empty.
fn words_of(alloc: Global, head: &str, word: &str, rest: &str) -> Result<String, AllocError>
    ensures { IfOk result (λ text. string_bytes text ≡ head.now ++ (word.now ++ behind rest.now)) }
{
    let mut text = String::from_str(alloc, head)?;
    text.push_str(word)?;
    if !rest.is_empty() {
        text.push_str(" ")?;
        text.push_str(rest)?;
    }
    Ok(text)
}

/// The message to the hub with this text, which is not escaped.
fn message_to_hub(alloc: Global, text: &str) -> Result<Line, LineFault>
    requires { (text.now ≡ []) → ⊥ }
    ensures says { IfOk result (λ line. SaysText line text.now) }
    ensures refused { IfErr result (λ fault. IsOverlong fault text.now) }
{
    let mut line = String::from_str(alloc, "HMSG ")?;
    line.push_str(&escape(alloc, text)?)?;
    if line.len() > MAX_LINE {
        return Err(LineFault::TooLong);
    }
    Line::parse(alloc, line.as_bytes())
}
