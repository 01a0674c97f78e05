// What holds of the judgement of bytes, however they come.
ghost use Rattle.std.specs.Prelude.{◌≡◌, ◌++◌, ℕ, List};
ghost use Rattle.web_upgrade.specs.Judging.{Judges};
ghost use Rattle.web_upgrade.specs.declared.judging.Judged.{Judged};

/// Bytes come to one thing, and once they are accepted or refused, they come to the same whatever follows.
/// So the answer doesn't depend on the blocks in which they come.
pub fn requests_are_answered_in_one_way()
    ensures one { (bytes : List ℕ) (a b : Judged) → Judges bytes a → Judges bytes b → a ≡ b }
    ensures stays { (bytes more : List ℕ) (a b : Judged) → Judges bytes a → (a ≡ Judged.Begun → ⊥)
        → Judges (bytes ++ more) b → a ≡ b }
{}
