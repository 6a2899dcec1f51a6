ghost use Rattle.std.specs.Prelude.{◌≡◌};
ghost use Rattle.counted_io.specs.Parts.{AppendsFront};
ghost use Rattle.hub_endings.specs.Endings.{status_of, message_of};

use counted_io::write_and_flush;
use std::alloc::{AllocError, AllocFailed};
use std::io::Write;

/// The ends of the program.
#[derive(Clone, Copy, Debug, PartialEq, Eq)]
pub enum Ending {
    /// The input or the connection ended, or the server closed.
    Served,
    /// The arguments are not those that the program knows.
    Usage,
    /// The file of Tiger's tables cannot be had.
    Tables,
    /// The address cannot be had, or accepting failed.
    Address,
    /// Memory ran out.
    Memory,
    /// The input or the output failed, a line was too long, or there were too many reads.
    Transfer,
}

impl Ending {
    /// Says on `errors` what went wrong, in one line or not at all, and gives the exit status, 0 to 5. That it cannot be
    /// written changes nothing.
    pub fn tell<E: Write>(self, errors: &mut E) -> u8
        ensures status { result ≡ status_of self }
        ensures tells { AppendsFront (E.contents errors.old) (E.contents errors.new) (message_of self) }
    {
        // Nobody is left to hear that the message could not be written.
        let _ = write_and_flush(errors, self.message().as_bytes());
        self.status()
    }

    /// Gives the exit status.
    fn status(self) -> u8
        ensures { result ≡ status_of self }
    {
        match self {
            Ending::Served => 0,
            Ending::Usage => 1,
            Ending::Tables => 2,
            Ending::Address => 3,
            Ending::Memory => 4,
            Ending::Transfer => 5,
        }
    }

    /// Gives what is said on standard error: nothing, or one line.
    #[tactic(auto, unfolding(crate::specs::Endings::message_of))]
    fn message(self) -> &'static str
        ensures { result.now ≡ message_of self }
    {
        match self {
            Ending::Served => "",
            Ending::Usage => "adc_hub: usage: adc_hub stdin | adc_hub serve SETTINGS\n",
            Ending::Tables => "adc_hub: tables\n",
            Ending::Address => "adc_hub: address\n",
            Ending::Memory => "adc_hub: memory\n",
            Ending::Transfer => "adc_hub: input or output\n",
        }
    }
}

impl From<AllocError> for Ending {
    ghost use Rattle.std.specs.Prelude.{◌≡◌};
    ghost use Rattle.hub_endings.specs.declared.ending.Ending.TheVariants.{Memory};

    ghost from_gives = { λ _ ending. ending ≡ Memory };

    fn from(_: AllocError) -> Ending {
        Ending::Memory
    }
}

impl<T: Drop> From<AllocFailed<T>> for Ending {
    ghost use Rattle.std.specs.Prelude.{◌≡◌};
    ghost use Rattle.hub_endings.specs.declared.ending.Ending.TheVariants.{Memory};

    ghost from_gives = { λ _ ending. ending ≡ Memory };

    fn from(_: AllocFailed<T>) -> Ending {
        Ending::Memory
    }
}
