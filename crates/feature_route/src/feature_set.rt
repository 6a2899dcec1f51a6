ghost use Rattle.std.specs.Prelude.{◌≡◌, ℕ, List, IfOk};
ghost use Rattle.feature_route.specs.Matching.{feature_set, has};

use crate::features::FeatureSource;
use std::alloc::{AllocError, Global};
use std::collections::BTreeSet;
use std::marker::Model;

/// The features of a user, for messages to be matched without a walk over the text of the field SU
/// (ADC 1.0, "INF").
#[derive(Drop)]
pub struct FeatureSet {
    names: BTreeSet<[u8; 4]>,
}

impl Model for FeatureSet {
    ghost use Rattle.std.specs.Prelude.{ℕ, List};

    ghost Value = { List (List ℕ) };

    ghost use Rattle.feature_route.specs.SetView.{names_in};

    ghost view = { names_in };
}

impl FeatureSet {
    /// Reads the features that the text of the field SU names between its commas. Words that have not four bytes are no
    /// features, and are left out. Refused only where memory runs out.
    pub fn read(alloc: Global, su: &str) -> Result<FeatureSet, AllocError>
        ensures { IfOk result (λ set. set ≡ feature_set su.now) }
    {
        let mut names = BTreeSet::new(alloc);
        'words: for word in su.split(',') {
            if let [a, b, c, d] = word.as_bytes() {
                names.insert([*a, *b, *c, *d])?;
            }
        }
        Ok(FeatureSet { names })
    }
}

impl FeatureSource for FeatureSet {
    ghost words = { λ set. set };

    fn has(&self, name: [u8; 4]) -> bool {
        self.names.contains(&name)
    }
}
