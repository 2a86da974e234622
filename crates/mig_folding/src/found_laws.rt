// The rule `found` keeps bags, and all its arguments are tried. Each law is the contract of a function that does nothing.
ghost use Rattle.std.specs.Prelude.{List};
ghost use Rattle.mig_meaning.specs.declared.relating.Invariant.{Invariant};
ghost use Rattle.mig_algebra.specs.Proper.{Sides};
ghost use Rattle.mig_steps.specs.Offering.{OffersAlone};
ghost use Rattle.mig_steps.specs.Paths.{body_paths};
ghost use Rattle.mig_steps.specs.Sound.{IsSoundAtLiterals};
ghost use Rattle.mig_steps.specs.Ways.{at_literal};
ghost use Rattle.mig_folding.specs.Found.{found, found_args};

/// A body that variables outside it meet may be taken for met, held or not.
pub fn found_is_sound()
    ensures { (p : Sides) (invs : List Invariant) → IsSoundAtLiterals p invs found }
{}

/// All arguments are tried, in order, with which a body is decided so.
pub fn found_is_tried()
    ensures { OffersAlone (at_literal found) body_paths found_args }
{}
