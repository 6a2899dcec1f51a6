use hub_client::{AddressFault, ClientFault, LoginRefusal, Status};
use std::alloc::{AllocError, AllocFailed, Global};
use std::io;

/// A reason why the tool did not do what it was asked for.
#[derive(Drop)]
pub(crate) enum ToolEnding {
    /// The arguments or the settings are at fault, and this was said.
    Told,
    /// The arguments are at fault, as these words say.
    Arguments(&'static str),
    /// The address is none.
    Address(AddressFault),
    /// This file is at fault, as these words say.
    File(String, &'static str),
    /// The hub asked for a password, and there was none.
    NoPassword,
    /// This file has no tables of Tiger, as these words say.
    Tables(String, &'static str),
    /// No file of Tiger's tables was named, and none is where they are looked for.
    NoTables,
    /// There is no host of this name.
    NoHost(String),
    /// This address does not take what was tried, as these words say.
    Unreachable(String, &'static str),
    /// Memory ran out.
    Memory,
    /// The conversation with the hub failed.
    Client(ClientFault),
    /// Standard input or output, the clock or the source of random bytes failed.
    Transfer,
    /// Nobody reads standard output any more.
    Unread,
}

impl From<AllocError> for ToolEnding {
    fn from(_: AllocError) -> ToolEnding {
        ToolEnding::Memory
    }
}

impl<T: Drop> From<AllocFailed<T>> for ToolEnding {
    fn from(_: AllocFailed<T>) -> ToolEnding {
        ToolEnding::Memory
    }
}

impl From<io::Error> for ToolEnding {
    fn from(error: io::Error) -> ToolEnding {
        match error.kind() {
            io::ErrorKind::OutOfMemory => ToolEnding::Memory,
            io::ErrorKind::BrokenPipe => ToolEnding::Unread,
            _ => ToolEnding::Transfer,
        }
    }
}

impl From<ClientFault> for ToolEnding {
    fn from(fault: ClientFault) -> ToolEnding {
        ToolEnding::Client(fault)
    }
}

impl From<AddressFault> for ToolEnding {
    fn from(fault: AddressFault) -> ToolEnding {
        ToolEnding::Address(fault)
    }
}

/// Gives why this file was not read.
pub(crate) fn unread(alloc: Global, path: &str, error: &io::Error) -> ToolEnding {
    match error.kind() {
        io::ErrorKind::OutOfMemory => ToolEnding::Memory,
        kind => file(alloc, path, why_unread(kind)),
    }
}

/// Gives that this file is at fault, as these words say.
pub(crate) fn file(alloc: Global, path: &str, words: &'static str) -> ToolEnding {
    match String::from_str(alloc, path) {
        Ok(path) => ToolEnding::File(path, words),
        Err(_) => ToolEnding::Memory,
    }
}

fn why_unread(kind: io::ErrorKind) -> &'static str {
    match kind {
        io::ErrorKind::NotFound => "there is no such file",
        io::ErrorKind::PermissionDenied => "you may not read it",
        io::ErrorKind::IsADirectory => "it is a folder",
        _ => "it cannot be read",
    }
}

impl ToolEnding {
    /// Says on standard error what went wrong, in one line, and gives the exit status, 0 to 9: 0 where nobody reads on.
    pub(crate) fn tell(self, rt: &impl Eprint) -> u8 {
        // Nobody is left to hear that the message could not be written.
        let _ = match &self {
            ToolEnding::Told | ToolEnding::Unread => Ok(()),
            ToolEnding::Arguments(words) => eprintln!(rt; "adc_hubctl: {words}"),
            ToolEnding::Address(fault) => eprintln!(rt; "adc_hubctl: {fault}"),
            ToolEnding::File(path, words) | ToolEnding::Tables(path, words) => {
                eprintln!(rt; "adc_hubctl: {path}: {words}")
            }
            ToolEnding::NoPassword => eprintln!(rt; "adc_hubctl: no password was given"),
            ToolEnding::NoTables => eprintln!(rt;
                "adc_hubctl: there are no tables of Tiger: neither tiger.bin nor /usr/share/adc-hub/tiger.bin; --tables names another file"
            ),
            ToolEnding::NoHost(host) => eprintln!(rt; "adc_hubctl: there is no host {host}"),
            ToolEnding::Unreachable(address, words) => eprintln!(rt;
                "adc_hubctl: {address} {words}"
            ),
            ToolEnding::Memory => eprintln!(rt; "adc_hubctl: memory ran out"),
            ToolEnding::Client(ClientFault::Refused(status)) => tell_refusal(rt, status),
            ToolEnding::Client(fault) => eprintln!(rt; "adc_hubctl: {fault}"),
            ToolEnding::Transfer => eprintln!(rt; "adc_hubctl: input or output failed"),
        };
        self.status()
    }

    fn status(&self) -> u8 {
        match self {
            ToolEnding::Unread => 0,
            ToolEnding::Told
            | ToolEnding::Arguments(_)
            | ToolEnding::Address(_)
            | ToolEnding::File(..)
            | ToolEnding::NoPassword => 1,
            ToolEnding::Tables(..) | ToolEnding::NoTables => 2,
            ToolEnding::NoHost(_) | ToolEnding::Unreachable(..) => 3,
            ToolEnding::Memory => 4,
            ToolEnding::Transfer => 5,
            ToolEnding::Client(fault) => status_of(fault),
        }
    }
}

fn tell_refusal(rt: &impl Eprint, status: &Status) -> io::Result<()> {
    match status.refusal() {
        LoginRefusal::Password => eprintln!(rt; "adc_hubctl: wrong password"),
        LoginRefusal::Banned => eprintln!(rt; "adc_hubctl: banned: {status}"),
        LoginRefusal::Other => eprintln!(rt; "adc_hubctl: refused: {status}"),
    }
}

fn status_of(fault: &ClientFault) -> u8 {
    match fault {
        ClientFault::Unsayable => 1,
        ClientFault::Memory => 4,
        ClientFault::Closed | ClientFault::Broken | ClientFault::NotAdc => 5,
        ClientFault::Refused(status) => match status.refusal() {
            LoginRefusal::Password => 6,
            LoginRefusal::Banned => 7,
            LoginRefusal::Other => 8,
        },
        ClientFault::TimedOut | ClientFault::Unanswered => 9,
    }
}
