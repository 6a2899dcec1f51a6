ghost use Rattle.std.specs.Prelude.{◌≡◌, ◌==◌, ◌<◌, ◌++◌, IfOk, OnOk, length, slice_index};
ghost use Rattle.login_state.specs.Denials.{denial_line, denial_text, is_fatal, value_bytes};

use crate::named_field::NamedField;
use inf_fields::dotted_decimal;
use std::alloc::{AllocError, Global};

/// The severity of a status (ADC 1.0, "STA").
#[derive(Clone, Copy, Debug, PartialEq, Eq)]
pub enum Severity {
    /// 1: the line is refused, and the connection stays as it was.
    Recoverable,
    /// 2: the connection is shut out.
    Fatal,
}

/// The reasons for which a line is refused (ADC 1.0, "STA"). The severity stands where a login and an update differ in it.
#[derive(Clone, Copy, Debug, PartialEq, Eq)]
pub enum Deny {
    /// 140: it is no line, its type or command is not for clients, or its words are wrong.
    Protocol,
    /// 240: it names another sender.
    WrongSid,
    /// 144: its first word, which stands here, is not allowed at this stage.
    BadStage([u8; 4]),
    /// 245: the client does not support BASE.
    NoBase,
    /// 247: the client does not support TIGR.
    NoHash,
    /// 243 FM: a field, whose name stands here, is missing or empty.
    Missing(NamedField),
    /// 143 or 243, FB: a field, whose name stands here, is no value of its kind.
    BadField(Severity, NamedField),
    /// 227: the identifier is not the hash of the private one.
    BadPid,
    /// 121 or 221: the nick is none.
    BadNick(Severity),
    /// 231: the client is shut out for good.
    BannedEver,
    /// 232: the client is shut out for so many seconds.
    BannedFor(u64),
    /// 146 or 246: the address is not the peer's, which stands here.
    Address(Severity, [u8; 4]),
    /// 226: accounts alone are let in.
    Registered,
    /// 122 or 222: a present user has the nick.
    NickTaken(Severity),
    /// 224: a present user has the identifier.
    CidTaken,
    /// 223: the password is wrong.
    Password,
    /// 125: the client may not do what the line's first word, which stands here, asks for.
    Access([u8; 4]),
    /// 100: the last search was too short a while ago.
    SearchSoon,
    /// 100: the hub knows no such command.
    BadCommand,
    /// 100: nobody present has the nick.
    NoUser,
    /// 100: the identifier is not shut out.
    NoBan,
    /// 100: as many identifiers are shut out as can be.
    BansFull,
}

impl Deny {
    /// Tests whether it shuts the connection out: the first digit of its number, the severity, is a 2 (ADC 1.0, "STA").
    pub fn is_fatal(self) -> bool
        ensures { result ≡ is_fatal self }
    {
        self.parts().0[SEVERITY] == b'2'
    }

    /// Writes the status message that says so, with its line feed (ADC 1.0, "STA"). Refused only where memory runs out.
    pub fn line(self, alloc: Global) -> Result<Vec<u8>, AllocError>
        ensures { IfOk result (λ line. line.items ≡ denial_line self) }
    {
        let mut line = Vec::with_capacity(alloc, LONGEST)?;
        let (text, value) = self.parts();
        line.extend_from_slice(text)?;
        value.push_to(alloc, &mut line)?;
        line.extend_from_slice(b"\n")?;
        Ok(line)
    }

    /// Gives the message up to the value of its flag, and that value. This is the table of all denials.
    #[tactic(auto, unfolding(crate::specs::Denials::denial_text))]
    fn parts(self) -> (&'static [u8], FlagValue)
        ensures text { result.0.now ++ value_bytes result.1 ≡ denial_text self }
        ensures severity { (slice_index result.0.now 5 == 50) ≡ is_fatal self }
        ensures length { 5 < length result.0.now }
    {
        use FlagValue::{Address, Name, Nothing, Seconds, Word};
        use Severity::{Fatal, Recoverable};
        match self {
            Deny::Protocol => (b"ISTA 140 Protocol\\serror", Nothing),
            Deny::WrongSid => (b"ISTA 240 Wrong\\sSID", Nothing),
            Deny::BadStage(word) => (b"ISTA 144 Invalid\\sstate FC", Word(word)),
            Deny::NoBase => (b"ISTA 245 Feature\\smissing FCBASE", Nothing),
            Deny::NoHash => (b"ISTA 247 No\\scommon\\shash", Nothing),
            Deny::Missing(field) => (
                b"ISTA 243 INF\\sfield\\smissing FM",
                Name(field.name().bytes()),
            ),
            Deny::BadField(Recoverable, field) => (
                b"ISTA 143 INF\\sfield\\sbad FB",
                Name(field.name().bytes()),
            ),
            Deny::BadField(Fatal, field) => (
                b"ISTA 243 INF\\sfield\\sbad FB",
                Name(field.name().bytes()),
            ),
            Deny::BadPid => (b"ISTA 227 Invalid\\sPID", Nothing),
            Deny::BadNick(Recoverable) => (b"ISTA 121 Invalid\\snick", Nothing),
            Deny::BadNick(Fatal) => (b"ISTA 221 Invalid\\snick", Nothing),
            Deny::BannedEver => (b"ISTA 231 Banned", Nothing),
            Deny::BannedFor(seconds) => (b"ISTA 232 Banned TL", Seconds(seconds)),
            Deny::Address(Recoverable, peer) => (b"ISTA 146 Wrong\\saddress I4", Address(peer)),
            Deny::Address(Fatal, peer) => (b"ISTA 246 Wrong\\saddress I4", Address(peer)),
            Deny::Registered => (b"ISTA 226 Registered\\susers\\sonly", Nothing),
            Deny::NickTaken(Recoverable) => (b"ISTA 122 Nick\\staken", Nothing),
            Deny::NickTaken(Fatal) => (b"ISTA 222 Nick\\staken", Nothing),
            Deny::CidTaken => (b"ISTA 224 CID\\staken", Nothing),
            Deny::Password => (b"ISTA 223 Invalid\\spassword", Nothing),
            Deny::Access(word) => (b"ISTA 125 Access\\sdenied FC", Word(word)),
            Deny::SearchSoon => (b"ISTA 100 Search\\stoo\\ssoon", Nothing),
            Deny::BadCommand => (b"ISTA 100 Bad\\scommand", Nothing),
            Deny::NoUser => (b"ISTA 100 No\\ssuch\\suser", Nothing),
            Deny::NoBan => (b"ISTA 100 No\\ssuch\\sban", Nothing),
            Deny::BansFull => (b"ISTA 100 Ban\\slist\\sfull", Nothing),
        }
    }
}

/// The place of the severity's digit in a status message.
const SEVERITY: usize = 5;

/// The bytes of the longest denial, `ISTA 246 Wrong\saddress I4255.255.255.255` and its line feed.
const LONGEST: usize = 42;

/// The value of a status message's flag.
#[derive(Clone, Copy)]
enum FlagValue {
    /// There is no flag, or its value is in the text.
    Nothing,
    /// The first word of the line that is refused.
    Word([u8; 4]),
    /// The two characters of a field's name.
    Name([u8; 2]),
    /// A number of seconds.
    Seconds(u64),
    /// An address.
    Address([u8; 4]),
}

impl FlagValue {
    /// Adds it to a line. Refused only where memory runs out.
    fn push_to(self, alloc: Global, line: &mut Vec<u8>) -> Result<(), AllocError>
        ensures { OnOk result (line.new.items ≡ line.old.items ++ value_bytes self) }
    {
        match self {
            FlagValue::Nothing => Ok(()),
            FlagValue::Word(word) => line.extend_from_slice(&word),
            FlagValue::Name(name) => line.extend_from_slice(&name),
            FlagValue::Seconds(seconds) => {
                line.extend_from_slice(format!(in alloc; "{seconds}")?.as_bytes())
            }
            FlagValue::Address(address) => line.extend_from_slice(dotted_decimal(
                alloc, address,
            )?.as_bytes()),
        }
    }
}
