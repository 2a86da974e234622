// The rules keep bags, and all their arguments are tried. Each law is the contract of a function that does nothing.
ghost use Rattle.std.specs.Prelude.{List};
ghost use Rattle.mig_meaning.specs.declared.relating.Invariant.{Invariant};
ghost use Rattle.mig_algebra.specs.Proper.{Sides};
ghost use Rattle.mig_obligations.specs.Fitting.{IsFit};
ghost use Rattle.mig_steps.specs.Offering.{OffersAlone};
ghost use Rattle.mig_steps.specs.Paths.{body_paths, own_path};
ghost use Rattle.mig_steps.specs.Sound.{IsSoundAtLiterals, IsSoundOnTerms};
ghost use Rattle.mig_steps.specs.Ways.{at_literal, on_term};
ghost use Rattle.mig_folding.specs.Foldins.{foldin, foldin_args};
ghost use Rattle.mig_folding.specs.Folds.{fold, fold_args};

/// The term that comes in place of a term by `fold` is proper, and has its bag wherever the facts hold.
pub fn fold_is_sound()
    ensures { (p : Sides) (invs : List Invariant) → IsFit p invs → IsSoundOnTerms p invs (fold invs) }
{}

/// All arguments are tried, in order, with which a term is folded.
pub fn fold_is_tried()
    ensures { (invs : List Invariant) → OffersAlone (on_term (fold invs)) own_path (λ path t. fold_args invs t) }
{}

/// So has a term of which a body is folded, and what stands in the body's place fits there.
pub fn foldin_is_sound()
    ensures { (p : Sides) (invs : List Invariant) → IsFit p invs → IsSoundAtLiterals p invs (foldin invs) }
{}

/// All arguments are tried, in order, with which a body is folded.
pub fn foldin_is_tried()
    ensures { (invs : List Invariant) → OffersAlone (at_literal (foldin invs)) body_paths (foldin_args invs) }
{}
