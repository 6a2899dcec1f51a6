ghost use Rattle.std.specs.Prelude.{◌≡◌, ◌≢◌, ℕ, [], IfErr, IfOk, MatchOption, MatchResult, Some};
ghost use Rattle.hub_client.specs.Addresses.{IsAddress, IsBare, IsBefore, IsRestBehind, IsNoAddress, IsPort, IsSplit, IsUnsplit};
ghost use Rattle.hub_client.specs.Addresses.{address_host, address_port, address_text};

use std::fmt;
use thiserror::Error;

/// The address of a hub.
#[derive(Clone, Copy, Debug, PartialEq, Eq)]
pub struct HubAddress<'a> {
    host: &'a str,
    port: u16,
}

/// A reason why a text is no address of a hub.
#[derive(Clone, Copy, Debug, Drop, Error, PartialEq, Eq)]
pub enum AddressFault {
    /// It begins with `adcs://`, which is ADC over TLS.
    #[error("adcs:// is ADC over TLS, which neither this tool nor its hub speaks")]
    Tls,
    /// The host is an address of IPv6.
    #[error("this tool and its hub use IPv4 only")]
    Ipv6,
    /// It has no port.
    #[error("ADDRESS has no port: write HOST:PORT, as 127.0.0.1:4111")]
    NoPort,
    /// The port is no number from 1 to 65,535.
    #[error("the port of ADDRESS is no number from 1 to 65535")]
    Port,
    /// It has no host.
    #[error("ADDRESS has no host: write HOST:PORT, as 127.0.0.1:4111")]
    NoHost,
}

impl<'a> HubAddress<'a> {
    /// Reads `HOST:PORT`, with `adc://` before it or not, and with a slash behind it or not. Refused as [`AddressFault`] says; its
    /// faults are looked for in their order there.
    pub fn parse(text: &'a str) -> Result<HubAddress<'a>, AddressFault>
        ensures { MatchResult result (IsAddress text.entry.now) (IsNoAddress text.entry.now) }
    {
        if text.starts_with("adcs://") {
            return Err(AddressFault::Tls);
        }
        let (host, digits) = host_and_digits(bare(text))?;
        let Some(port) = port_of(digits) else {
            return Err(AddressFault::Port);
        };
        if host.is_empty() {
            return Err(AddressFault::NoHost);
        }
        Ok(HubAddress { host, port })
    }

    /// The host: a name, or an address of IPv4.
    pub fn host(&self) -> &'a str
        ensures { result.now ≡ address_host self.now }
    {
        self.host
    }

    /// The port, from 1.
    pub fn port(&self) -> u16
        ensures { result ≡ address_port self.now }
    {
        self.port
    }
}

/// The text without `adc://` before it and without a slash behind it.
fn bare(text: &str) -> &str
    ensures { IsBare text.now result.now }
{
    without_end(without_front(text, "adc://"), "/")
}

fn without_front<'a>(text: &'a str, front: &str) -> &'a str
    ensures { IsRestBehind front.now text.now result.now }
{
    text.strip_prefix(front).unwrap_or(text)
}

fn without_end<'a>(text: &'a str, end: &str) -> &'a str
    ensures { IsBefore end.now text.now result.now }
{
    text.strip_suffix(end).unwrap_or(text)
}

/// What stands before and behind the only colon. Refused: `NoPort` if nothing stands behind it or there is none, `Ipv6` if there
/// are more.
fn host_and_digits(bare: &str) -> Result<(&str, &str), AddressFault>
    ensures parts { IfOk result (λ parts. IsSplit bare.now parts.0.now parts.1.now) }
    ensures some { IfOk result (λ parts. parts.1.now ≢ []) }
    ensures refused { IfErr result (IsUnsplit bare.now) }
{
    let Some((host, digits)) = bare.rsplit_once(':') else {
        return Err(AddressFault::NoPort);
    };
    // Nothing but an address of IPv6 has more than one colon.
    if host.contains(':') {
        return Err(AddressFault::Ipv6);
    }
    if digits.is_empty() {
        return Err(AddressFault::NoPort);
    }
    Ok((host, digits))
}

/// The port that these digits name.
fn port_of(digits: &str) -> Option<u16>
    ensures { MatchOption result ((port : ℕ) → IsPort digits.now port → ⊥) (IsPort digits.now) }
{
    match digits.parse::<u16>() {
        Ok(port) if port > 0 => Some(port),
        _ => None,
    }
}

impl fmt::Display for HubAddress<'_> {
    ghost output = { λ address. Some (address_text address) };

    fn fmt<W: fmt::Write>(&self, f: &mut fmt::Formatter<W>) -> fmt::Result {
        let (host, port) = (self.host, self.port);
        write!(f, "{host}:{port}")
    }
}
