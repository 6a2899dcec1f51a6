ghost use Rattle.std.specs.Prelude.{◌≡◌, ℕ, List, [], ◌∷◌, ◌++◌, fold};
ghost use Rattle.inf_fields.specs.Field.{Field, value_of};
ghost use Rattle.inf_fields.specs.Merging.{if_filled, last_value, merged_fields, merged_with};
ghost use Rattle.inf_fields.specs.Order.{in_order};

/// Says what merging updates one after another comes to. It does nothing.
///
/// `none`: there is nothing before the first update. `more`: one update more makes of what was
/// known what all updates together make of it. `all`: so after any list of updates, merged one
/// after another, there is what they make together. `values`: a field is there where the last update
/// that names it gives it a value that is not empty, and has that value. `order`: fields stand in the
/// order of the updates since which they are there, which are the first that name them after the
/// last ones that emptied them, and then of their places in those.
pub fn merging_laws()
    ensures none { merged_fields [] ≡ [] }
    ensures more { (updates : List (List Field)) (u : List Field) → merged_fields (updates ++ u ∷ []) ≡ merged_with (merged_fields updates) u }
    ensures all { (updates : List (List Field)) → fold merged_with [] updates ≡ merged_fields updates }
    ensures values { (name : List ℕ) (updates : List (List Field)) → value_of name (merged_fields updates) ≡ if_filled (last_value name updates) }
    ensures order { (updates : List (List Field)) → merged_fields updates ≡ in_order updates }
{}
