ghost use Rattle.std.specs.Prelude.{◌≡◌, ℕ, List};
ghost use Rattle.feature_route.specs.Matching.{has};

/// A source of a user's features: the text of the field SU, or a set made of it.
pub(crate) trait FeatureSource {
    ghost words: { Self → List (List ℕ) };

    /// Tests whether a feature is among them.
    fn has(&self, name: [u8; 4]) -> bool
        ensures { result ≡ has (words self.now) name };
}
