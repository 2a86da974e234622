// Rules that keep bags. Each law is the contract of a function that does nothing.
ghost use Rattle.std.specs.Prelude.{List};
ghost use Rattle.mig_meaning.specs.declared.relating.Invariant.{Invariant};
ghost use Rattle.mig_algebra.specs.Proper.{Sides};
ghost use Rattle.mig_steps.specs.Offering.{OffersAll};
ghost use Rattle.mig_steps.specs.Paths.{own_path};
ghost use Rattle.mig_steps.specs.Sound.{IsSoundAtLiterals, IsSoundOnTails, IsSoundOnTerms};
ghost use Rattle.mig_steps.specs.Ways.{on_terms};
ghost use Rattle.mig_literals.specs.Dead.{dead};
ghost use Rattle.mig_literals.specs.Same.{same};
ghost use Rattle.mig_literals.specs.Implied.{implied};
ghost use Rattle.mig_literals.specs.Lifted.{lifted};
ghost use Rattle.mig_literals.specs.Split.{split};
ghost use Rattle.mig_literals.specs.Rejoined.{rejoined, rejoin_args};

/// A term that contradicts itself may go.
pub fn dead_is_sound()
    ensures { (p : Sides) (invs : List Invariant) → IsSoundOnTerms p invs dead }
{}

/// A term whose classes are written once may take its place.
pub fn same_is_sound()
    ensures { (p : Sides) (invs : List Invariant) → IsSoundOnTerms p invs same }
{}

/// A literal that is given, or stands earlier, may go.
pub fn implied_is_sound()
    ensures { (p : Sides) (invs : List Invariant) → IsSoundAtLiterals p invs implied }
{}

/// A held body without variables may become its literals.
pub fn lift_is_sound()
    ensures { (p : Sides) (invs : List Invariant) → IsSoundAtLiterals p invs lifted }
{}

/// A body without variables that is not held may become one alternative for each of its literals.
pub fn split_is_sound()
    ensures { (p : Sides) (invs : List Invariant) → IsSoundAtLiterals p invs split }
{}

/// Two terms that differ in a literal and its complement may become one.
pub fn rejoin_is_sound()
    ensures { (p : Sides) (invs : List Invariant) → IsSoundOnTails p invs rejoined }
{}

/// All arguments are tried, in order, with which two terms may become one.
pub fn rejoin_is_tried()
    ensures { OffersAll (on_terms rejoined) own_path rejoin_args }
{}
