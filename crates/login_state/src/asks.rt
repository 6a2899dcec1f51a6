use crate::findings::{
    Account, Address, Admission, Ban, Claim, Identity, Required, Size, Validity,
};
use crate::named_field::CHECKED;

/// The findings of a login, one finding for each check (ADC 1.0, "INF").
#[derive(Clone, Copy)]
pub struct InfAsk {
    /// The words: good where each begins with a field's name and they name at most 40 fields.
    pub words: Validity,
    /// ID, the client's identifier.
    pub id: Required,
    /// PD, the private identifier.
    pub pid: Required,
    /// NI, the nick. `Bad`: it is there, and no nick.
    pub nick: Required,
    /// SS, the number of bytes shared, and SF, the number of files, as in [`CHECKED_FIELDS`](crate::CHECKED_FIELDS): good
    /// where the field is missing, empty, or 1 to 20 decimal digits with a value below 2 to the 64th.
    pub values: [Validity; CHECKED],
    /// The identifier is the hash of the private one, or not.
    pub identity: Identity,
    /// I4: right where it is missing, empty, `0.0.0.0` or the peer's.
    pub address: Address,
    /// The hub lets this nick in, or not.
    pub admission: Admission,
    /// The findings that are looked for once more where a password follows.
    pub entry: EntryAsk,
}

/// The findings of an update by a user who is present, one finding for each check (ADC 1.0, "INF").
#[derive(Clone, Copy)]
pub struct UpdateAsk {
    /// The words: good where each begins with a field's name and they name at most 40 fields.
    pub words: Validity,
    /// ID: foreign where it is given, were it empty, and is not the user's own.
    pub identity: Identity,
    /// SS and SF, as in a login.
    pub values: [Validity; CHECKED],
    /// NI: bad where it is given, and is empty or no nick.
    pub nick: Validity,
    /// The change of nick concerns an account, or not.
    pub account: Account,
    /// I4: right where it is missing, empty, `0.0.0.0` or the peer's.
    pub address: Address,
    /// The fields that the user has once the update is merged are few enough, or not.
    pub size: Size,
    /// The claim to the nick: another present user has it, or not.
    pub nick_claim: Claim,
}

/// The findings of a client that wants to enter, one finding for each check: at its login and, since it may have
/// changed by then, again once its password was right.
#[derive(Clone, Copy)]
pub struct EntryAsk {
    /// The identifier is shut out, or not.
    pub ban: Ban,
    /// A present user has the nick, or not.
    pub nick_claim: Claim,
    /// A present user has the identifier, or not.
    pub cid_claim: Claim,
}
