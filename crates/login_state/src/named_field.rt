ghost use Rattle.std.specs.Prelude.{◌≡◌};
ghost use Rattle.login_state.specs.NamedFields.{name_of};

use inf_fields::FieldName;

/// A field that a denial may name (ADC 1.0, "INF").
#[derive(Clone, Copy, Debug, PartialEq, Eq)]
pub enum NamedField {
    /// ID: the client's identifier.
    Id,
    /// PD: the private identifier.
    PrivateId,
    /// NI: the nick.
    Nick,
    /// SS: the number of bytes shared.
    ShareSize,
    /// SF: the number of files shared.
    SharedFiles,
}

/// How many fields are checked.
pub const CHECKED: usize = 2;

/// The fields whose values are checked at a login and at an update, in their order: each is missing, empty, or a number.
pub const CHECKED_FIELDS: [NamedField; CHECKED] = [NamedField::ShareSize, NamedField::SharedFiles];

impl NamedField {
    /// Gives its name.
    pub fn name(self) -> FieldName
        ensures { result ≡ name_of self }
    {
        match self {
            NamedField::Id => FieldName::id(),
            NamedField::PrivateId => FieldName::private_id(),
            NamedField::Nick => FieldName::nick(),
            NamedField::ShareSize => FieldName::share_size(),
            NamedField::SharedFiles => FieldName::shared_files(),
        }
    }
}
