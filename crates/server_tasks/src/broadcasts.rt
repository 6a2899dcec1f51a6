ghost use Rattle.std.specs.Prelude.{◌≡◌};

use crate::amount::Amount;

/// What was said to everybody until some moment. Only the wakers tell it.
#[derive(Clone, Copy)]
pub struct Broadcasts {
    pub(crate) amount: Amount,
}

impl Broadcasts {
    /// Gives the lines, and their bytes.
    pub fn amount(self) -> Amount
        ensures { result ≡ self.amount }
    {
        self.amount
    }
}
