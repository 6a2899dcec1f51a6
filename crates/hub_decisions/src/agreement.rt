//! The checks of `login_state` beside the grounds of the rules.

ghost use Rattle.std.specs.Prelude.{◌≡◌, ℕ, not, List, [], ◌∷◌, Option};
ghost use Rattle.inf_fields.specs.Field.{Field};
ghost use Rattle.login_state.specs.declared.deny.Deny.TheVariants as denials;
ghost use Rattle.login_state.specs.Checks.{first_denial};
ghost use Rattle.login_state.specs.Orders.{entry_rules, inf_rules, pass_rules, sup_rules, update_rules};
ghost use Rattle.user_table.specs.Listed.{Listed};
ghost use Rattle.hub_rules.specs.Grounds.{entry_grounds, first_ground, is_digest, login_grounds, sup_grounds, update_grounds};
ghost use Rattle.hub_rules.specs.Views as sights;
ghost use Rattle.hub_rules.specs.Views.{HubView};
ghost use Rattle.hub_decisions.specs.Asks.{denial_of, entry_ask, login_ask, update_ask};

/// Says that the checks of `login_state`, asked what the hub finds, deny what the first ground of the rules denies, and nothing else
/// (ADC 1.0, "SUP", "INF", "PAS").
pub fn checks_agree()
    ensures sup { (features : List (List ℕ)) → denial_of (first_denial (sup_rules features)) ≡ first_ground (sup_grounds features) }
    ensures login { (hub : HubView) (own : sights.SenderView) (now : ℕ) (digest : Option (List ℕ)) (u : List Field) (user : Listed) → denial_of (first_denial (inf_rules (login_ask hub now own.sender.peer digest u user))) ≡ first_ground (login_grounds hub own now digest u user) }
    ensures update { (hub : HubView) (own : sights.SenderView) (u : List Field) (user : Listed) → denial_of (first_denial (update_rules (update_ask hub own u user))) ≡ first_ground (update_grounds hub own u user) }
    ensures entry { (hub : HubView) (now : ℕ) (user : Listed) → denial_of (first_denial (entry_rules (entry_ask hub now user))) ≡ first_ground (entry_grounds hub now user) }
    ensures password { (expected : List ℕ) (digest : Option (List ℕ)) → denial_of (first_denial (pass_rules expected digest)) ≡ first_ground ((not (is_digest expected digest), denials.Password) ∷ []) }
{}
