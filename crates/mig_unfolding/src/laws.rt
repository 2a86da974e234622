// The rules keep bags, and all their arguments are tried. Each law is the contract of a function that does nothing.
ghost use Rattle.std.specs.Prelude.{List};
ghost use Rattle.mig_meaning.specs.declared.relating.Invariant.{Invariant};
ghost use Rattle.mig_algebra.specs.Proper.{Sides};
ghost use Rattle.mig_obligations.specs.Fitting.{IsFit};
ghost use Rattle.mig_steps.specs.Offering.{OffersAlone};
ghost use Rattle.mig_steps.specs.Paths.{body_paths, own_path};
ghost use Rattle.mig_steps.specs.Sound.{IsSoundAtLiterals, IsSoundOnTerms};
ghost use Rattle.mig_steps.specs.Ways.{at_literal, on_term};
ghost use Rattle.mig_unfolding.specs.Stages.{stage, stage_args, stagein, stagein_args};

/// The terms that come in place of a term are proper, and have its bag wherever the facts hold.
pub fn stage_is_sound()
    ensures { (p : Sides) (invs : List Invariant) → IsFit p invs → IsSoundOnTerms p invs (stage p) }
{}

/// All arguments are tried, in order, with which the rule gives something.
pub fn stage_is_tried()
    ensures { (p : Sides) → OffersAlone (on_term (stage p)) own_path (λ path t. stage_args t) }
{}

/// The alternatives that come in place of a body fit there, and may take its place wherever the facts hold.
pub fn stagein_is_sound()
    ensures { (p : Sides) (invs : List Invariant) → IsFit p invs → IsSoundAtLiterals p invs (stagein p) }
{}

/// All arguments are tried, in order, with which the rule gives something.
pub fn stagein_is_tried()
    ensures { (p : Sides) → OffersAlone (at_literal (stagein p)) body_paths stagein_args }
{}
