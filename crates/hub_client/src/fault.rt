ghost use Rattle.std.specs.Prelude.{◌≡◌, ◌≢◌, true, IfErr, OnOk};
ghost use Rattle.adc_line.specs.declared.fault.LineFault.TheVariants as lines;
ghost use Rattle.std.specs.IoError.{error_kind};
ghost use Rattle.hub_client.specs.Broken.{fault_by, fault_of_word};
ghost use Rattle.hub_client.specs.Unanswered.{unanswered};
ghost use Rattle.hub_client.specs.declared.fault.ClientFault.TheVariants.{Memory, NotAdc, Unsayable};

use crate::status::Status;
use adc_line::{FrameFault, LineFault, UnescapeFault};
use std::alloc::{AllocError, AllocFailed};
use std::io::{self, ErrorKind};
use thiserror::Error;

/// A reason why a conversation with a hub ended before its purpose was reached.
#[derive(Debug, Drop, Error)]
pub enum ClientFault {
    /// Memory ran out.
    #[error("memory ran out")]
    Memory,
    /// The text to be said is empty, or longer than a message may be.
    #[error("what is to be said is empty or too long")]
    Unsayable,
    /// A wait took longer than the stream allows.
    #[error("the hub did not answer in time")]
    TimedOut,
    /// The hub does not answer a request of an operator.
    #[error("this hub does not answer operators' commands; it may be another kind")]
    Unanswered,
    /// The hub closed the connection.
    #[error("the hub closed the connection")]
    Closed,
    /// A read or a write failed.
    #[error("the connection failed")]
    Broken,
    /// A line came that is no message of ADC.
    #[error("this is no ADC hub")]
    NotAdc,
    /// The hub refused it, and said why.
    #[error("the hub refused")]
    Refused(Status),
}

impl From<AllocError> for ClientFault {
    ghost from_gives = { λ _ fault. fault ≡ Memory };

    fn from(_: AllocError) -> ClientFault {
        ClientFault::Memory
    }
}

impl<T: Drop> From<AllocFailed<T>> for ClientFault {
    ghost from_gives = { λ _ fault. fault ≡ Memory };

    fn from(_: AllocFailed<T>) -> ClientFault {
        ClientFault::Memory
    }
}

impl From<FrameFault> for ClientFault {
    ghost from_gives = { λ _ fault. fault ≡ Memory };

    fn from(_: FrameFault) -> ClientFault {
        ClientFault::Memory
    }
}

impl From<io::Error> for ClientFault {
    ghost from_gives = { λ error fault. fault ≡ fault_by (error_kind error) };

    fn from(error: io::Error) -> ClientFault {
        match error.kind() {
            ErrorKind::OutOfMemory => ClientFault::Memory,
            ErrorKind::WouldBlock | ErrorKind::TimedOut => ClientFault::TimedOut,
            _ => ClientFault::Broken,
        }
    }
}

/// Reads on after a read that was interrupted. Refused: the fault of any other that failed.
pub(crate) fn read_on(error: io::Error) -> Result<(), ClientFault>
    ensures goes_on { OnOk result (error_kind error ≡ ErrorKind.Interrupted) }
    ensures fails { IfErr result (λ fault. fault ≡ fault_by (error_kind error)) }
{
    match error.kind() {
        ErrorKind::Interrupted => Ok(()),
        _ => Err(error.into()),
    }
}

/// Gives the fault of a line that was to be sent and is none.
pub(crate) fn unsayable(fault: LineFault) -> ClientFault
    ensures memory { fault ≡ lines.Memory → result ≡ Memory }
    ensures other { fault ≢ lines.Memory → result ≡ Unsayable }
{
    match fault {
        LineFault::Memory => ClientFault::Memory,
        _ => ClientFault::Unsayable,
    }
}

/// Gives the fault of a line that came and is none.
pub(crate) fn not_adc(fault: LineFault) -> ClientFault
    ensures memory { fault ≡ lines.Memory → result ≡ Memory }
    ensures other { fault ≢ lines.Memory → result ≡ NotAdc }
{
    match fault {
        LineFault::Memory => ClientFault::Memory,
        _ => ClientFault::NotAdc,
    }
}

impl From<UnescapeFault> for ClientFault {
    ghost from_gives = { λ given fault. fault ≡ fault_of_word given };

    fn from(fault: UnescapeFault) -> ClientFault {
        match fault {
            UnescapeFault::Memory => ClientFault::Memory,
            UnescapeFault::Escape => ClientFault::NotAdc,
        }
    }
}

/// Gives the fault of a request to which no answer came.
pub(crate) fn unanswered(fault: ClientFault) -> ClientFault
    ensures { result ≡ unanswered fault }
{
    match fault {
        ClientFault::TimedOut => ClientFault::Unanswered,
        other => other,
    }
}
