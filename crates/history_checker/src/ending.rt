use std::alloc::{AllocError, AllocFailed};
use std::io;

/// A reason why nothing was said of a history.
#[derive(Drop)]
pub(crate) enum CheckerEnding {
    /// The arguments are at fault, and this was said.
    Told,
    /// A file cannot be read.
    File,
    /// The settings are at fault.
    Settings,
    /// Tiger's tables cannot be had.
    Tables,
    /// Memory ran out.
    Memory,
    /// Standard output failed.
    Output,
}

impl From<AllocError> for CheckerEnding {
    fn from(_: AllocError) -> CheckerEnding {
        CheckerEnding::Memory
    }
}

impl<T: Drop> From<AllocFailed<T>> for CheckerEnding {
    fn from(_: AllocFailed<T>) -> CheckerEnding {
        CheckerEnding::Memory
    }
}

impl From<io::Error> for CheckerEnding {
    fn from(error: io::Error) -> CheckerEnding {
        if error.kind() == io::ErrorKind::OutOfMemory {
            return CheckerEnding::Memory;
        }
        CheckerEnding::Output
    }
}

impl CheckerEnding {
    /// Says on standard error why, in one line, and gives the exit status, 2 to 5.
    pub(crate) fn tell(self, rt: &impl Eprint) -> u8 {
        let (status, why) = match self {
            CheckerEnding::Told => return 3,
            CheckerEnding::File => (3, "a file cannot be read"),
            CheckerEnding::Settings => (
                3,
                "the settings are at fault; adc_hubctl check says where",
            ),
            CheckerEnding::Tables => (2, "Tiger's tables cannot be had"),
            CheckerEnding::Memory => (4, "memory ran out"),
            CheckerEnding::Output => (5, "output failed"),
        };
        // Nobody is left to hear that the message could not be written.
        let _ = eprintln!(rt; "history_checker: {why}");
        status
    }
}
