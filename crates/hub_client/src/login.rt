ghost use Rattle.std.specs.Prelude.{◌≡◌, ◌⊎◌, ◌<◌, [], length, IfOk, IfErr};
ghost use Rattle.adc_line.specs.Frames.{max_line};
ghost use Rattle.adc_line.specs.Grammar.{Reads};
ghost use Rattle.adc_line.specs.Lines.{Reading};
ghost use Rattle.hub_client.specs.Requests.{nick_bytes};
ghost use Rattle.hub_client.specs.Sayings.{IsSpelt, chat_text, identifiers_text, login_text, password_text, support_text};

use crate::fault::{ClientFault, unsayable};
use crate::nick_text::NickText;
use adc_base32::{Sid, encode24};
use adc_ids::Cid;
use adc_line::{Line, escape};
use session_hash::SessionHash;
use std::alloc::{AllocError, Global};

/// The number of session identifiers.
const SIDS: u32 = 1_048_576;

/// The identity of a client: a private identifier and the client identifier that is its hash.
#[derive(Clone, Copy)]
pub struct ClientIdentity {
    private: [u8; 24],
    cid: Cid,
}

impl ClientIdentity {
    ghost use Rattle.hub_client.specs.Identities.{IsHashed};

    /// The identity with this private identifier.
    pub fn of<H: SessionHash>(hash: &H, private: [u8; 24]) -> ClientIdentity
        ensures { IsHashed (H.digest_of hash.now) private result }
    {
        ClientIdentity {
            private,
            cid: Cid::from_bytes(hash.digest(&private)),
        }
    }
}

/// Makes the first message of a client, which a hub list's pinger extends. Refused only when memory runs out.
pub fn support_line(alloc: Global, pinger: bool) -> Result<Line, ClientFault>
    ensures exact { IfOk result (λ line. line.text ≡ support_text pinger) }
    ensures refused { IfErr result (λ fault. fault ≡ ClientFault.Memory) }
{
    let text = if pinger {
        "HSUP ADBASE ADTIGR ADPING"
    } else {
        "HSUP ADBASE ADTIGR"
    };
    message_of(alloc, text.as_bytes())
}

/// Makes the message by which a client that shares nothing logs in. Refused only when memory runs out.
pub fn login_line(
    alloc: Global,
    sid: Sid,
    identity: &ClientIdentity,
    nick: &NickText<'_>,
) -> Result<Line, ClientFault>
    ensures exact { IfOk result (λ line. line.text ≡ login_text sid identity.now.cid identity.now.private (nick_bytes nick.now)) }
    ensures refused { IfErr result (λ fault. fault ≡ ClientFault.Memory) }
{
    prove!(sid.number() < SIDS);
    let mut line = identifiers(alloc, sid, identity)?;
    line.extend_from_slice(b" NI")?;
    line.extend_from_slice(escape(alloc, nick.as_str())?.as_bytes())?;
    line.extend_from_slice(b" SS0 SF0 VEadc-hubctl\\s1.0")?;
    message_of(alloc, &line)
}

/// Makes the front of a login, with the three identifiers of the client.
fn identifiers(alloc: Global, sid: Sid, identity: &ClientIdentity) -> Result<Vec<u8>, AllocError>
    ensures exact { IfOk result (λ line. line.items ≡ identifiers_text sid identity.now.cid identity.now.private) }
    ensures cid { IfOk result (λ _. IsSpelt identity.now.cid) }
    ensures private { IfOk result (λ _. IsSpelt identity.now.private) }
{
    let mut line = Vec::new(alloc);
    line.extend_from_slice(b"BINF ")?;
    line.extend_from_slice(&sid.text())?;
    line.extend_from_slice(b" ID")?;
    line.extend_from_slice(&identity.cid.text())?;
    line.extend_from_slice(b" PD")?;
    line.extend_from_slice(&encode24(&identity.private))?;
    Ok(line)
}

/// Makes the answer to a challenge: the digest of the password with the challenge behind it. Refused only when memory runs out.
pub fn password_line<H: SessionHash>(
    alloc: Global,
    hash: &H,
    password: &str,
    challenge: &[u8; 24],
) -> Result<Line, ClientFault>
    ensures exact { IfOk result (λ line. line.text ≡ password_text (H.digest_of hash.now) password.now challenge.now) }
    ensures refused { IfErr result (λ fault. fault ≡ ClientFault.Memory) }
{
    let mut secret = Vec::new(alloc);
    secret.extend_from_slice(password.as_bytes())?;
    secret.extend_from_slice(challenge)?;
    let mut line = Vec::new(alloc);
    line.extend_from_slice(b"HPAS ")?;
    line.extend_from_slice(&encode24(&hash.digest(&secret)))?;
    message_of(alloc, &line)
}

/// Makes the message that says a text to all who are present. Refused: `Unsayable` if the text is empty, or the
/// message has more than 65,536 bytes; `Memory`.
pub fn chat_line(alloc: Global, sid: Sid, text: &str) -> Result<Line, ClientFault>
    ensures exact { IfOk result (λ line. line.text ≡ chat_text sid text.now) }
    ensures refused { IfErr result (λ fault. (fault ≡ ClientFault.Memory) ⊎ (fault ≡ ClientFault.Unsayable)) }
    ensures unsayable { IfErr result (λ fault. fault ≡ ClientFault.Unsayable → (text.now ≡ []) ⊎ (max_line < length (chat_text sid text.now))) }
{
    prove!(sid.number() < SIDS);
    let mut line = Vec::new(alloc);
    line.extend_from_slice(b"BMSG ")?;
    line.extend_from_slice(&sid.text())?;
    line.extend_from_slice(b" ")?;
    line.extend_from_slice(escape(alloc, text)?.as_bytes())?;
    message_of(alloc, &line)
}

/// Makes the message with these bytes. Refused: `Unsayable` if they are none of the grammar; `Memory`.
fn message_of(alloc: Global, bytes: &[u8]) -> Result<Line, ClientFault>
    ensures text { IfOk result (λ line. line.text ≡ bytes.now) }
    ensures refused { (line : Reading) → Reads bytes.now line → IfErr result (λ fault. fault ≡ ClientFault.Memory) }
    ensures unsayable { IfErr result (λ fault. (fault ≡ ClientFault.Memory) ⊎ (fault ≡ ClientFault.Unsayable)) }
{
    match Line::parse(alloc, bytes) {
        Ok(line) => Ok(line),
        Err(fault) => Err(unsayable(fault)),
    }
}
