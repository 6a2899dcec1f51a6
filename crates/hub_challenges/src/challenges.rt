ghost use Rattle.std.specs.Prelude.{◌≡◌};
ghost use Rattle.rand_chacha.specs.ChaCha.{of_seed};
ghost use Rattle.hub_challenges.specs.Dealing.{dealt};

use rand_chacha::ChaCha20Rng;
use rand_core::SeedableRng;
use rand_core::utils::fill_bytes_via_u32;
use std::marker::Model;

/// The challenges of connections, one after the other (ADC 1.0, "GPA"): the ChaCha20 stream of a seed.
pub struct Challenges {
    words: ChaCha20Rng,
}

impl Drop for Challenges {
    fn drop(self) {
        let Challenges { words } = self;
        drop(words);
    }
}

impl Model for Challenges {
    ghost use Rattle.rand_chacha.specs.ChaCha.{ChaCha};

    ghost Value = { ChaCha };

    ghost view = { λ c. c.words };
}

impl Challenges {
    /// Makes the challenges of a seed of 32 bytes: those of its stream 0, from its first word on. Takes no memory.
    pub fn from_seed(seed: [u8; 32]) -> Challenges
        ensures { result ≡ of_seed seed }
    {
        Challenges {
            words: ChaCha20Rng::from_seed(seed),
        }
    }

    /// Makes the next challenge: the next six words of the stream, each with its lowest byte first. Takes no memory.
    pub fn next(&mut self) -> [u8; 24]
        ensures { (result, self.new) ≡ dealt self.old }
    {
        let mut challenge = [0; 24];
        fill_bytes_via_u32(&mut self.words, &mut challenge);
        challenge
    }
}
