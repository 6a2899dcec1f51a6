/// The finding on a field that a login must have.
#[derive(Clone, Copy)]
pub enum Required {
    /// The field is not there, or empty.
    Missing,
    /// The field is there, and no value of its kind.
    Bad,
    /// The field is there and valid.
    Good,
}

/// The finding on the validity of what was sent. A field that need not be there is valid where it is not.
#[derive(Clone, Copy)]
pub enum Validity {
    /// The value is not valid.
    Bad,
    /// The value is valid.
    Good,
}

/// The finding on whose the identifier is that a client sent.
#[derive(Clone, Copy)]
pub enum Identity {
    /// The client's own, or none was sent where none need be.
    Own,
    /// Another's than the client's.
    Foreign,
}

/// The time for which a client is shut out.
#[derive(Clone, Copy)]
pub enum Ban {
    /// No time: the client is not shut out.
    Free,
    /// All time: it is shut out for good.
    Ever,
    /// The next seconds, so many from now on.
    For(u64),
}

/// The address that a client sent.
#[derive(Clone, Copy)]
pub enum Address {
    /// The address is the one that the hub sees, or leaves the choice to the hub.
    Right,
    /// The address is another than the one that the hub sees, which stands here.
    Wrong([u8; 4]),
}

/// The users whom the hub lets in.
#[derive(Clone, Copy)]
pub enum Admission {
    /// The client that asks.
    Admitted,
    /// Accounts alone, and the nick is none's.
    RegisteredOnly,
}

/// The finding on whether another user has what a client wants.
#[derive(Clone, Copy)]
pub enum Claim {
    /// No other user has it.
    Free,
    /// A present user has it.
    Taken,
}

/// The finding on a change of nick: that it leaves the nick of an account, or takes one, or neither.
#[derive(Clone, Copy)]
pub enum Account {
    /// No account's nick is left or taken.
    Untouched,
    /// The old nick or the new one is an account's, and they differ.
    Touched,
}

/// The finding on how many fields a user has once an update is merged.
#[derive(Clone, Copy)]
pub enum Size {
    /// The fields are at most 40.
    Fits,
    /// The fields are more.
    TooMany,
}
