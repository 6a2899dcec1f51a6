ghost use Rattle.std.specs.Prelude.{◌≡◌, ◌⊎◌, Some, IfErr, IfNone, IfOk, IfSome};
ghost use Rattle.std.specs.Option.{option_copied};
ghost use Rattle.std.specs.String.{string_bytes};
ghost use Rattle.hub_client.specs.Fields.{IsField};
ghost use Rattle.hub_client.specs.Users.{AreBits, IsUserAddress, IsLastField, IsMisspeltAddress, IsMisspeltLast, IsNoUser, IsRole};
ghost use Rattle.hub_client.specs.Users.{IsSaidLast, IsSilentOn, IsTold, IsUntold, IsUserMessage};

use crate::fault::ClientFault;
use crate::fields::{field, field_text};
use crate::role::Role;
use adc_base32::Sid;
use adc_line::{Line, unescape};
use std::alloc::Global;

/// A user as others see it.
#[derive(Drop)]
pub struct HubUser {
    /// The nick.
    pub nick: String,
    /// The client identifier, in base32.
    pub cid: String,
    /// The role.
    pub role: Role,
    /// The address of IPv4, or else of IPv6; empty where the hub does not tell it.
    pub address: String,
    /// The number of bytes that are shared, in digits; empty where the user does not say.
    pub share: String,
    /// The description.
    pub description: String,
}

impl HubUser {
    /// Reads a message of the type INF. Refused: `NotAdc` if a field of it spells no text; `Memory`.
    pub fn read(alloc: Global, line: &Line) -> Result<HubUser, ClientFault>
        ensures user { IfOk result (λ user. IsUserMessage line.now.params user) }
        ensures refused { IfErr result (λ fault. (fault ≡ ClientFault.Memory) ⊎ (fault ≡ ClientFault.NotAdc)) }
        ensures none { IfErr result (λ fault. fault ≡ ClientFault.NotAdc → IsNoUser line.now.params) }
    {
        Ok(HubUser {
            nick: field_text(alloc, line, "NI")?,
            cid: field_text(alloc, line, "ID")?,
            role: role(line),
            address: address(alloc, line)?,
            share: field_text(alloc, line, "SS")?,
            description: field_text(alloc, line, "DE")?,
        })
    }
}

fn address(alloc: Global, line: &Line) -> Result<String, ClientFault>
    ensures text { IfOk result (λ text. IsUserAddress line.now.params (string_bytes text)) }
    ensures refused { IfErr result (λ fault. (fault ≡ ClientFault.Memory) ⊎ (fault ≡ ClientFault.NotAdc)) }
    ensures misspelt { IfErr result (λ fault. fault ≡ ClientFault.NotAdc → IsMisspeltAddress line.now.params) }
{
    match field(line, "I4") {
        Some(value) => Ok(unescape(alloc, value)?),
        None => field_text(alloc, line, "I6"),
    }
}

fn role(line: &Line) -> Role
    ensures { IsRole line.now.params result }
{
    Role::of(bits_of(field(line, "CT")))
}

/// Returns the bits of a client type; 0 if there are none, or none that are a number of 32 bits.
fn bits_of(digits: Option<&str>) -> u32
    ensures { AreBits (option_copied digits.entry) result }
{
    match digits {
        Some(digits) => digits.parse::<u32>().unwrap_or(0),
        None => 0,
    }
}

/// The nick and the client identifier of a user.
#[derive(Drop)]
pub struct Who {
    /// The nick.
    pub nick: String,
    /// The client identifier, in base32.
    pub cid: String,
}

impl Who {
    /// Gives what messages of the type INF said last of whom this session identifier names. What they do not say is empty.
    pub fn in_lines(alloc: Global, lines: &[Line], sid: Sid) -> Result<Who, ClientFault>
        ensures told { IfOk result (IsTold lines.now sid) }
        ensures refused { IfErr result (λ fault. (fault ≡ ClientFault.Memory) ⊎ (fault ≡ ClientFault.NotAdc)) }
        ensures none { IfErr result (λ fault. fault ≡ ClientFault.NotAdc → IsUntold lines.now sid) }
    {
        Ok(Who {
            nick: said_last(alloc, lines, sid, "NI")?,
            cid: said_last(alloc, lines, sid, "ID")?,
        })
    }
}

fn said_last(alloc: Global, lines: &[Line], sid: Sid, name: &str) -> Result<String, ClientFault>
    ensures text { IfOk result (λ text. IsSaidLast name.now sid lines.now (string_bytes text)) }
    ensures refused { IfErr result (λ fault. (fault ≡ ClientFault.Memory) ⊎ (fault ≡ ClientFault.NotAdc)) }
    ensures misspelt { IfErr result (λ fault. fault ≡ ClientFault.NotAdc → IsMisspeltLast name.now sid lines.now) }
{
    match last_field(lines, sid, name) {
        Some(value) => Ok(unescape(alloc, value)?),
        None => Ok(String::new(alloc)),
    }
}

/// Returns the value of a field in the last of these messages of a user that has it.
fn last_field<'a>(lines: &'a [Line], sid: Sid, name: &str) -> Option<&'a str>
    ensures { IsLastField name.now sid lines.now (option_copied result) }
{
    let mut last = None;
    for line in lines {
        if let Some(value) = field_of(line, sid, name) {
            last = Some(value);
        }
    }
    last
}

/// Returns the value of a field of a message, if it tells of this user.
fn field_of<'a>(line: &'a Line, sid: Sid, name: &str) -> Option<&'a str>
    ensures found { IfSome (option_copied result) (λ value. (line.now.from ≡ Some sid) × IsField name.now line.now.params (Some value)) }
    ensures none { IfNone result (IsSilentOn name.now sid line.now) }
{
    if line.from() == Some(sid) {
        return field(line, name);
    }
    None
}
