// What is alone of its kind: the heaviest model, and the outcome of a charge. Each law is the contract of a function that does nothing.
ghost use Rattle.std.specs.Prelude.{◌≡◌, ℕ, ℤ, Bool, List};
ghost use Rattle.mig_sat.specs.declared.clauses.SatLit.{SatLit};
ghost use Rattle.mig_sat.specs.declared.steps.Step.{Step};
ghost use Rattle.mig_maxsat.specs.declared.weighted.Weighted.{Weighted};
ghost use Rattle.mig_maxsat.specs.Heaviest.{IsHeaviest};
ghost use Rattle.mig_maxsat.specs.Losses.{AreCharged};

/// There is one heaviest model at most that is the first.
pub fn one_heaviest()
    ensures one { (p : Weighted) (a b : List Bool) → IsHeaviest p a → IsHeaviest p b → a ≡ b }
{}

/// Clauses that are charged twice, from the same weights and loss, lose the same and leave the same weights.
pub fn one_outcome_of_charges()
    ensures one { (clauses : List (List SatLit)) (steps : List Step) (numbers : List ℕ) (old : List ℤ) (before : ℤ) (left right : List ℤ) (lost other : ℤ)
        → AreCharged clauses steps numbers old before left lost
        → AreCharged clauses steps numbers old before right other
        → (left ≡ right) × (lost ≡ other) }
{}
