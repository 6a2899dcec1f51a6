ghost use Rattle.std.specs.Prelude.{◌≡◌, if◌then◌else◌};
ghost use Rattle.std.specs.Option.{option_map};
ghost use Rattle.inf_fields.specs.Field.{field};
ghost use Rattle.inf_fields.specs.Updates.{field_in, is_named};

use crate::name::FieldName;

/// A named parameter: a word that begins with a name (ADC 1.0, "Message syntax").
#[derive(Clone, Copy)]
pub(crate) struct Parameter<'a> {
    pub(crate) name: FieldName,
    pub(crate) value: &'a str,
}

impl<'a> Parameter<'a> {
    /// Reads the name with which a word begins and the value behind it, where it begins with one.
    #[tactic(auto, unfolding(crate::specs::Updates::is_named))]
    pub(crate) fn read(word: &'a str) -> Option<Parameter<'a>>
        ensures { option_map (λ p. field p.name p.value.now) result ≡ (if is_named word.entry.now then Some (field_in word.entry.now) else None) }
    {
        let [first, second, ..] = word.as_bytes() else {
            return None;
        };
        let name = FieldName::new([*first, *second])?;
        Some(Parameter {
            name,
            value: &word[2..],
        })
    }
}
