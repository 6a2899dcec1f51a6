use system_answers::{SystemAnswer, descriptor_limit};

/// What knows how many descriptors the system lets the program have.
pub trait DescriptorLimits {
    ghost use Rattle.std.specs.Prelude.{ℕ, Option};

    /// The numbers that it may tell, or none.
    ghost allows: { Self → Option ℕ → Type 0 };

    /// Gives the number of descriptors that there may be, where the system says so.
    fn allowed_descriptors(&self) -> SystemAnswer<Option<u64>>
        ensures told { allows self.now result.given };
}

impl<R> DescriptorLimits for R {
    ghost use Rattle.std.specs.Prelude.{⊤};

    // No contract says what the system answers, so any answer may be its.
    ghost allows = { λ _ _. ⊤ };

    fn allowed_descriptors(&self) -> SystemAnswer<Option<u64>> {
        descriptor_limit()
    }
}
