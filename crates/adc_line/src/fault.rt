use std::alloc::AllocError;

/// The reasons for which bytes are no line (ADC 1.0, "Message syntax"). The tests are made in the order 2 to 6.
#[derive(Clone, Copy, Debug, PartialEq, Eq)]
pub enum LineFault {
    /// Memory ran out.
    Memory = 1,
    /// The line is too long: there are more than 65,536 bytes.
    TooLong = 2,
    /// The bytes are not UTF-8.
    NotUtf8 = 3,
    /// The first words are not a message header.
    Header = 4,
    /// A parameter is empty or holds a line feed.
    Parameter = 5,
    /// A parameter holds a backslash that begins no escape.
    Escape = 6,
}

impl From<AllocError> for LineFault {
    ghost use Rattle.std.specs.Prelude.{◌≡◌};
    ghost use Rattle.adc_line.specs.declared.fault.LineFault.TheVariants.{Memory};

    ghost from_gives = { λ _ fault. fault ≡ Memory };

    fn from(_: AllocError) -> LineFault {
        LineFault::Memory
    }
}

/// The reasons for which a text is not unescaped (ADC 1.0, "Message syntax").
#[derive(Clone, Copy, Debug, PartialEq, Eq)]
pub enum UnescapeFault {
    /// Memory ran out.
    Memory = 1,
    /// A backslash begins no escape, or the text has a blank or a line feed.
    Escape = 6,
}

impl From<AllocError> for UnescapeFault {
    ghost use Rattle.std.specs.Prelude.{◌≡◌};
    ghost use Rattle.adc_line.specs.declared.fault.UnescapeFault.TheVariants.{Memory};

    ghost from_gives = { λ _ fault. fault ≡ Memory };

    fn from(_: AllocError) -> UnescapeFault {
        UnescapeFault::Memory
    }
}

/// The reasons for which bytes or a line were not taken.
#[derive(Clone, Copy, Debug, PartialEq, Eq)]
pub enum FrameFault {
    /// Memory ran out; the framer and the vector are as before.
    Memory = 1,
}

impl From<AllocError> for FrameFault {
    ghost use Rattle.std.specs.Prelude.{◌≡◌};
    ghost use Rattle.adc_line.specs.declared.fault.FrameFault.TheVariants.{Memory};

    ghost from_gives = { λ _ fault. fault ≡ Memory };

    fn from(_: AllocError) -> FrameFault {
        FrameFault::Memory
    }
}
