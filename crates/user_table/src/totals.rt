ghost use Rattle.std.specs.Prelude.{◌≡◌, ◌+◌, ◌<◌, ◌≤◌, ◌^◌};
ghost use Rattle.user_table.specs.Shares.{totals_without, totals_with};

/// The count of users who are present, and what they share together.
#[derive(Clone, Copy, PartialEq, Eq)]
pub struct Totals {
    /// The count of users.
    pub users: u64,
    /// The bytes that they share: the sum of their fields SS.
    pub ss: u128,
    /// The files that they share: the sum of their fields SF.
    pub sf: u128,
}

/// The share of one user: bytes by the field SS, files by the field SF.
#[derive(Clone, Copy, PartialEq, Eq)]
pub(crate) struct SharedTotals {
    pub(crate) ss: u64,
    pub(crate) sf: u64,
}

impl Totals {
    /// Counts one user more.
    pub(crate) fn raise(&mut self, shared: SharedTotals)
        requires users { self.old.users + 1 < 2 ^ 64 }
        requires ss { self.old.ss + shared.ss < 2 ^ 128 }
        requires sf { self.old.sf + shared.sf < 2 ^ 128 }
        ensures { self.new ≡ totals_with shared self.old }
    {
        self.users += 1;
        self.ss += u128::from(shared.ss);
        self.sf += u128::from(shared.sf);
    }

    /// Counts one user less, who was counted.
    pub(crate) fn lower(&mut self, shared: SharedTotals)
        requires users { 1 ≤ self.old.users }
        requires ss { shared.ss ≤ self.old.ss }
        requires sf { shared.sf ≤ self.old.sf }
        ensures { self.new ≡ totals_without shared self.old }
    {
        self.users -= 1;
        self.ss -= u128::from(shared.ss);
        self.sf -= u128::from(shared.sf);
    }
}
