ghost use Rattle.std.specs.Prelude.{◌≡◌, IsTrue, if◌then◌else◌};
ghost use Rattle.adc_line.specs.Header.{is_letter};
ghost use Rattle.inf_fields.specs.FieldNames.{is_field_name, id_name, private_id_name, nick_name, share_size_name, shared_files_name, address_name, address6_name, port6_name, client_type_name, support_name};

use std::marker::Model;

/// The name of a field: a letter A to Z, and a letter or a digit (ADC 1.0, "Message syntax").
#[derive(Clone, Copy, Debug, PartialEq, Eq, Hash)]
pub struct FieldName {
    bytes: [u8; 2],
}

impl Model for FieldName {
    ghost use Rattle.std.specs.Prelude.{List, ℕ};

    ghost Value = { List ℕ };

    ghost use Rattle.inf_fields.specs.NameBytes.{name_bytes, IsName};

    ghost view = { name_bytes };

    ghost invariant = { IsName };

    ghost inverse = { λ bytes. record { bytes = bytes } };
}

impl FieldName {
    /// Makes the name of these two characters, or gives `None` where they name no field.
    pub fn new(bytes: [u8; 2]) -> Option<FieldName>
        ensures { result ≡ (if is_field_name bytes then Some bytes else None) }
    {
        if is_field_name(bytes) {
            Some(FieldName { bytes })
        } else {
            None
        }
    }

    /// Gives ID: the client's identifier (ADC 1.0, "INF").
    pub fn id() -> FieldName
        ensures { result ≡ id_name }
    {
        FieldName { bytes: *b"ID" }
    }

    /// Gives PD: the private identifier, which is for the hub alone (ADC 1.0, "INF").
    pub fn private_id() -> FieldName
        ensures { result ≡ private_id_name }
    {
        FieldName { bytes: *b"PD" }
    }

    /// Gives NI: the nick (ADC 1.0, "INF").
    pub fn nick() -> FieldName
        ensures { result ≡ nick_name }
    {
        FieldName { bytes: *b"NI" }
    }

    /// Gives SS: how many bytes are shared (ADC 1.0, "INF").
    pub fn share_size() -> FieldName
        ensures { result ≡ share_size_name }
    {
        FieldName { bytes: *b"SS" }
    }

    /// Gives SF: how many files are shared (ADC 1.0, "INF").
    pub fn shared_files() -> FieldName
        ensures { result ≡ shared_files_name }
    {
        FieldName { bytes: *b"SF" }
    }

    /// Gives I4: the address in version 4 of the internet protocol (ADC 1.0, "INF").
    pub fn address() -> FieldName
        ensures { result ≡ address_name }
    {
        FieldName { bytes: *b"I4" }
    }

    /// Gives I6: the address in version 6 of the internet protocol (ADC 1.0, "INF").
    pub(crate) fn address6() -> FieldName
        ensures { result ≡ address6_name }
    {
        FieldName { bytes: *b"I6" }
    }

    /// Gives U6: the UDP port at the address in version 6 (ADC 1.0, "INF").
    pub(crate) fn port6() -> FieldName
        ensures { result ≡ port6_name }
    {
        FieldName { bytes: *b"U6" }
    }

    /// Gives CT: the kind of client, which only a hub may say (ADC 1.0, "INF").
    pub(crate) fn client_type() -> FieldName
        ensures { result ≡ client_type_name }
    {
        FieldName { bytes: *b"CT" }
    }

    /// Gives SU: the features that other clients may count on (ADC 1.0, "INF").
    pub fn support() -> FieldName
        ensures { result ≡ support_name }
    {
        FieldName { bytes: *b"SU" }
    }

    /// Gives its two characters.
    pub fn bytes(&self) -> [u8; 2]
        ensures bytes { result ≡ self.now }
        ensures named { IsTrue (is_field_name result) }
    {
        self.bytes
    }
}

fn is_field_name(bytes: [u8; 2]) -> bool
    ensures { result ≡ is_field_name bytes }
{
    let [first, second] = bytes;
    is_letter(first) && (is_letter(second) || second.is_ascii_digit())
}

fn is_letter(byte: u8) -> bool
    ensures { result ≡ is_letter byte }
{
    byte.is_ascii_uppercase()
}
