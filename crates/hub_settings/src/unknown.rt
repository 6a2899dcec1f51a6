ghost use Rattle.std.specs.Prelude.{◌≡◌, map};
ghost use Rattle.std.specs.Option.{option_map};
ghost use Rattle.toml.specs.View.{table_view};
ghost use Rattle.hub_settings.specs.Unknown.{first_unknown, is_among};

use toml::Table;

/// Finds the first key of a table, by bytes, that is none of these.
pub(crate) fn first_unknown<'a>(table: &'a Table, known: &[&str]) -> Option<&'a str>
    ensures { option_map (λ s. s.now) result ≡ first_unknown (map (λ key. key.now) known.now) (table_view table.entry.now) }
{
    for (key, _value) in table.iter() {
        if !is_among(known, key.as_str()) {
            return Some(key.as_str());
        }
    }
    None
}

fn is_among(known: &[&str], key: &str) -> bool
    ensures { result ≡ is_among (map (λ key. key.now) known.now) key.now }
{
    'words: for word in known {
        if key == *word {
            return true;
        }
    }
    false
}
