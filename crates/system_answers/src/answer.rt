ghost use Rattle.std.specs.Prelude.{◌≡◌};

/// What the system answered. Only the calls of this crate make one.
#[derive(Drop)]
pub struct SystemAnswer<T> {
    pub(crate) given: T,
}

impl<T> SystemAnswer<T> {
    /// Gives what was answered.
    pub fn into_inner(self) -> T
        ensures { result ≡ self.given }
    {
        self.given
    }
}
