//! Laws of the text and of the judgement.

ghost use Rattle.std.specs.Prelude.{◌≡◌, ◌<◌, ◌^◌, ℕ, List, []};
ghost use Rattle.std.specs.Fmt.{decimal};
ghost use Rattle.std.specs.List.{All};
ghost use Rattle.history_check.specs.declared.check.Demand.{Demand};
ghost use Rattle.history_check.specs.declared.written.WrittenEntry as written;
ghost use Rattle.history_check.specs.Judged.{IsFaultAt};
ghost use Rattle.history_check.specs.Reported.{written_bytes};
ghost use Rattle.history_check.specs.Text.{IsFirstFault, IsHistory, IsNumber, Writes, WritesBytes};
ghost use Rattle.history_check.specs.Written.{history_of};
ghost use Rattle.hub_rules.specs.declared.history.Entry as rules;
ghost use Rattle.hub_rules.specs.Configured.{Configured};
ghost use Rattle.hub_rules.specs.Legal.{Legal};

/// States that a text has one reading. It does nothing.
///
/// `one_entry`: a line writes one entry at most. `one_history`: a text writes one history at most. `no_fault`: a text that
/// writes a history has no line that is at fault. `numbers` and `bytes`: what a report writes of them is read back.
pub fn text_laws()
    ensures one_entry { (line : List ℕ) (e other : rules.Entry) → Writes line e → Writes line other → other ≡ e }
    ensures one_history { (text : List ℕ) (es others : List rules.Entry) → IsHistory text es → IsHistory text others → others ≡ es }
    ensures no_fault { (text : List ℕ) (es : List rules.Entry) (n : ℕ) → IsHistory text es → IsFirstFault text n → ⊥ }
    ensures numbers { (n : ℕ) → n < 2 ^ 64 → IsNumber (decimal n) n }
    ensures bytes { (bytes : List ℕ) → All (λ b. b < 256) bytes → WritesBytes (written_bytes bytes) bytes }
{}

/// States that what is judged to be at fault is not legal. It does nothing.
pub fn judging_laws()
    ensures { (setup : Configured) (hash : List ℕ → List ℕ) (entries : List written.WrittenEntry) (place : ℕ) (demand : Demand)
        → IsFaultAt setup hash entries place demand → Legal setup hash (history_of entries []) → ⊥ }
{}
