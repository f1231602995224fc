ghost use Rattle.std.specs.Prelude.{◌≡◌, ℕ, List, Option};
ghost use Rattle.refusals.specs.Refusal.{FileAccepted, IsFileRefusal};

/// A file is not both accepted and refused, and it has one first refusal.
pub fn one_answer()
    ensures one { (whole : List (ℕ → Option ℕ)) (file : ℕ) (rules : List (ℕ → Option ℕ)) (at : ℕ → ℕ) (n row other cause another : ℕ)
        → IsFileRefusal whole file rules at n row cause
        → IsFileRefusal whole file rules at n other another
        → (row ≡ other) × (cause ≡ another) }
    ensures not_both { (whole : List (ℕ → Option ℕ)) (file : ℕ) (rules : List (ℕ → Option ℕ)) (at : ℕ → ℕ) (n row cause : ℕ)
        → FileAccepted whole file rules at n
        → IsFileRefusal whole file rules at n row cause
        → ⊥ }
{}
