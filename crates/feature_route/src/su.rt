ghost use Rattle.std.specs.Prelude.{◌≡◌};
ghost use Rattle.feature_route.specs.Matching.{has, su_words};

use crate::features::FeatureSource;

/// The text of the field SU.
#[derive(Clone, Copy)]
pub(crate) struct Su<'a> {
    pub(crate) text: &'a str,
}

impl<'a> FeatureSource for Su<'a> {
    ghost words = { λ su. su_words su.text.now };

    fn has(&self, name: [u8; 4]) -> bool {
        has_word(self.text, name)
    }
}

fn has_word(su: &str, name: [u8; 4]) -> bool
    ensures { result ≡ has (su_words su.now) name }
{
    su.split(',').any(|word| name.as_slice() == word.as_bytes())
}
