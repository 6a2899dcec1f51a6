use std::alloc::AllocError;

/// The reasons for which a text is not encoded or decoded. The tests are made in the order 2, 3, 4, 1.
#[derive(Clone, Copy, Debug, PartialEq, Eq)]
pub enum B32 {
    /// Memory ran out.
    Memory = 1,
    /// The text has not the length that so many bytes take.
    Length = 2,
    /// A character is no digit.
    Digit = 3,
    /// The unused low bits of the last digit are not zero.
    LowBits = 4,
}

impl From<AllocError> for B32 {
    ghost use Rattle.std.specs.Prelude.{◌≡◌};
    ghost use Rattle.adc_base32.specs.declared.fault.B32.TheVariants.{Memory};

    ghost from_gives = { λ _ fault. fault ≡ Memory };

    fn from(_: AllocError) -> B32 {
        B32::Memory
    }
}
