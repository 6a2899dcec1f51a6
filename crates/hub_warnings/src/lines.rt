ghost use Rattle.std.specs.Prelude.{◌≡◌, Some};
ghost use Rattle.hub_warnings.specs.Texts.{warning_text, dropped_text, start_text, end_text};

use crate::cause::Cause;
use crate::moment::Moment;
use std::fmt;
use std::fmt::{Display, Formatter};
use std::net::{SocketAddr, SocketAddrV4};

/// A warning, as `2026-11-25T13:07:11Z 127.0.0.1:40112 a session ended by ReadFailed`.
#[derive(Clone, Copy)]
pub struct Warning {
    /// The second in which it is said.
    pub moment: Moment,
    /// The peer's address and port, where they are known.
    pub peer: Option<SocketAddrV4>,
    /// The cause.
    pub cause: Cause,
}

impl Display for Warning {
    ghost output = { λ w. Some (warning_text w) };

    fn fmt<W: fmt::Write>(&self, f: &mut Formatter<W>) -> fmt::Result {
        let moment = self.moment;
        let cause = self.cause;
        match self.peer {
            Some(peer) => write!(f, "{moment} {peer} {cause}"),
            None => write!(f, "{moment} {cause}"),
        }
    }
}

/// The number of lines that were dropped, as `2026-11-25T13:08:11Z lines dropped for want of room: 499`.
#[derive(Clone, Copy)]
pub struct Dropped {
    /// The second in which it is said.
    pub moment: Moment,
    /// The number of lines.
    pub count: u64,
}

impl Display for Dropped {
    ghost output = { λ d. Some (dropped_text d) };

    fn fmt<W: fmt::Write>(&self, f: &mut Formatter<W>) -> fmt::Result {
        let moment = self.moment;
        let count = self.count;
        write!(f, "{moment} lines dropped for want of room: {count}")
    }
}

/// The line at the start of a server, as
/// `2026-11-25T13:07:11Z adc_hub 1.0 serves /etc/adc-hub/hub.toml at 0.0.0.0:4111, descriptors: 544 needed, 2048 allowed`.
#[derive(Clone, Copy)]
pub struct Start<'a> {
    /// The second in which it is said.
    pub moment: Moment,
    /// The path of the settings' file.
    pub settings: &'a str,
    /// The address at which it listens.
    pub address: SocketAddr,
    /// The number of descriptors that it needs.
    pub needed: u64,
    /// The number of descriptors that the system lets it have, where it is known.
    pub allowed: Option<u64>,
}

impl Display for Start<'_> {
    ghost output = { λ s. Some (start_text s) };

    fn fmt<W: fmt::Write>(&self, f: &mut Formatter<W>) -> fmt::Result {
        let moment = self.moment;
        let settings = self.settings;
        let address = self.address;
        let needed = self.needed;
        match self.allowed {
            Some(allowed) => write!(
                f,
                "{moment} adc_hub 1.0 serves {settings} at {address}, descriptors: {needed} needed, {allowed} allowed"
            ),
            None => write!(
                f,
                "{moment} adc_hub 1.0 serves {settings} at {address}, descriptors: {needed} needed"
            ),
        }
    }
}

/// The line at the end of a server, as `2026-11-25T13:07:11Z adc_hub ended: stop_after is reached, joins 2`.
#[derive(Clone, Copy)]
pub struct EndLine<'a> {
    /// The second in which it is said.
    pub moment: Moment,
    /// The reason for which it ended.
    pub why: &'a str,
    /// The number of joins that were accepted, where it is known.
    pub joins: Option<u64>,
}

impl Display for EndLine<'_> {
    ghost output = { λ e. Some (end_text e) };

    fn fmt<W: fmt::Write>(&self, f: &mut Formatter<W>) -> fmt::Result {
        let moment = self.moment;
        let why = self.why;
        match self.joins {
            Some(joins) => write!(f, "{moment} adc_hub ended: {why}, joins {joins}"),
            None => write!(f, "{moment} adc_hub ended: {why}"),
        }
    }
}
