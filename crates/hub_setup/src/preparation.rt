ghost use Rattle.std.specs.Prelude.{◌≡◌, IfOk};
ghost use Rattle.std.specs.Option.{option_copied};
ghost use Rattle.adc_line.specs.Lines as lines;
ghost use Rattle.hub_rules.specs.Prepared.{owner_digest, password_digest, password_of, prepared_line, update_of};
ghost use Rattle.hub_setup.specs.PreparedReading.{IsSaid};

use crate::accounts::Registered;
use crate::inf::{Inf, inf_of};
use crate::setup::Setup;
use adc_ids::Pid;
use adc_line::{Line, LineFault};
use hub_rules::LineRefused;
use inf_fields::FieldName;
use session_hash::SessionHash;
use std::alloc::{AllocError, Global};
use std::marker::Model;

/// A line that was read and is ready for the hub: all that can be done before the hub's turn.
pub struct Prepared {
    content: Content,
    inf: Option<Inf>,
    owner: Option<[u8; 24]>,
    password: Option<[u8; 24]>,
}

impl Drop for Prepared {
    fn drop(self) {
        let Prepared {
            content,
            inf,
            owner: _,
            password: _,
        } = self;
        drop(content);
        drop(inf);
    }
}

/// The content of a line, as its bytes were found to be.
#[derive(Drop)]
enum Content {
    /// A message.
    Message(Line),
    /// Bytes that are no message; there may be none.
    Other(Vec<u8>),
}

/// The things that a prepared line may say.
#[derive(Drop)]
pub enum Says<'a> {
    /// Nothing: the line is empty.
    Nothing,
    /// A message.
    Message(&'a Line),
    /// No message.
    NoMessage,
}

impl Model for Prepared {
    ghost use Rattle.hub_rules.specs.Views.{PreparedLine};

    ghost Value = { PreparedLine };

    ghost use Rattle.hub_setup.specs.Prepared.{line_of, IsPrepared};

    ghost view = { line_of };

    ghost invariant = { IsPrepared };
}

/// Reads the bytes of a line, without its line feed, for a connection that was given this challenge. Where they are an INF
/// for all whose words make an update, its fields are read, with nick, key and client identifier, and the digest is made of
/// the private identifier in them (ADC 1.0, "INF"). Where, besides, the nick is a registered user's, the digest is made of
/// the password followed by the challenge (ADC 1.0, "GPA"). Takes no lock.
///
/// Refused only where memory runs out (`Memory`).
#[tactic(auto, unfolding(hub_rules::specs::Prepared::prepared_line))]
pub fn prepare<H: SessionHash>(
    alloc: Global,
    setup: &Setup,
    hash: &H,
    challenge: [u8; 24],
    bytes: &[u8],
) -> Result<Prepared, LineRefused>
    ensures { IfOk result (λ line. line ≡ prepared_line setup.now (H.digest_of hash.now) challenge bytes.now) }
{
    let line = match Line::parse(alloc, bytes) {
        Ok(line) => line,
        Err(LineFault::Memory) => return Err(LineRefused::Memory),
        Err(_) => {
            return Ok(Prepared {
                content: Content::Other(Vec::from_slice(alloc, bytes)?),
                inf: None,
                owner: None,
                password: None,
            });
        }
    };
    let inf = inf_of(alloc, &line)?;
    Ok(Prepared {
        owner: owner_digest(hash, &inf),
        password: password_digest(alloc, setup, hash, challenge, &inf)?,
        content: Content::Message(line),
        inf,
    })
}

/// Makes the digest of the private identifier, where there is one.
fn owner_digest<H: SessionHash>(hash: &H, inf: &Option<Inf>) -> Option<[u8; 24]>
    ensures { result ≡ owner_digest (H.digest_of hash.now) inf.now }
{
    match inf {
        Some(inf) => {
            let update = inf.update();
            let word = update.get(FieldName::private_id()).unwrap_or("");
            let pid = Pid::parse(word.as_bytes())?;
            Some(hash.digest(&pid.bytes()))
        }
        None => None,
    }
}

/// Makes the digest of the password and the challenge, where the nick is a registered user's.
fn password_digest<H: SessionHash>(
    alloc: Global,
    setup: &Setup,
    hash: &H,
    challenge: [u8; 24],
    inf: &Option<Inf>,
) -> Result<Option<[u8; 24]>, AllocError>
    ensures { IfOk result (λ digest. digest ≡ password_digest setup.now (H.digest_of hash.now) challenge inf.now) }
{
    match inf {
        Some(inf) => password_of(alloc, hash, challenge, setup.account(inf.key())),
        None => Ok(None),
    }
}

fn password_of<H: SessionHash>(
    alloc: Global,
    hash: &H,
    challenge: [u8; 24],
    account: Option<&Registered>,
) -> Result<Option<[u8; 24]>, AllocError>
    ensures { IfOk result (λ digest. digest ≡ password_of (H.digest_of hash.now) challenge (option_copied account.entry)) }
{
    match account {
        Some(account) => {
            let mut secret = Vec::from_slice(alloc, account.password().as_bytes())?;
            secret.extend_from_slice(&challenge)?;
            Ok(Some(hash.digest(&secret)))
        }
        None => Ok(None),
    }
}

impl Prepared {
    /// Gives what it says.
    pub fn says(&self) -> Says<'_>
        ensures { IsSaid result self.now.bytes }
    {
        match &self.content {
            Content::Message(line) => message_or_nothing(line),
            Content::Other(bytes) => {
                if bytes.is_empty() {
                    Says::Nothing
                } else {
                    Says::NoMessage
                }
            }
        }
    }

    /// Gives what it updates, where it is an INF for all whose words make an update (ADC 1.0, "INF").
    pub fn inf(&self) -> Option<&Inf>
        ensures { option_copied result ≡ update_of (lines.reading self.now.bytes) }
    {
        self.inf.as_ref()
    }

    /// Gives the digest of the private identifier of the update, where there is one.
    pub fn owner(&self) -> Option<[u8; 24]>
        ensures { result ≡ self.now.owner }
    {
        self.owner
    }

    /// Gives the digest of password and challenge, where the nick of the update is a registered user's.
    pub fn password(&self) -> Option<[u8; 24]>
        ensures { result ≡ self.now.password }
    {
        self.password
    }
}

fn message_or_nothing(line: &Line) -> Says<'_>
    ensures { IsSaid result line.entry.now.text }
{
    if line.text().is_empty() {
        Says::Nothing
    } else {
        Says::Message(line)
    }
}
