// The rules keep bags, and all their arguments are tried. Each law is the contract of a function that does nothing.
ghost use Rattle.std.specs.Prelude.{List};
ghost use Rattle.mig_meaning.specs.declared.relating.Invariant.{Invariant};
ghost use Rattle.mig_algebra.specs.Proper.{Sides};
ghost use Rattle.mig_steps.specs.Offering.{OffersAlone};
ghost use Rattle.mig_steps.specs.Paths.{body_paths, own_path};
ghost use Rattle.mig_steps.specs.Sound.{IsSoundAtLiterals, IsSoundOnTerms};
ghost use Rattle.mig_steps.specs.Ways.{at_literal, on_term};
ghost use Rattle.mig_rows.specs.Alone.{alone, alone_args};
ghost use Rattle.mig_rows.specs.Inside.{inside, inside_args};
ghost use Rattle.mig_rows.specs.Lossless.{lossless, lossless_args};
ghost use Rattle.mig_rows.specs.Merged.{merged, merge_args};
ghost use Rattle.mig_rows.specs.Never.{never};
ghost use Rattle.mig_rows.specs.Parted.{parted, apart_args};

/// A variable of a body whose column is unique may become one outside it with an equal column, also where an `Other` names both.
pub fn alone_is_sound()
    ensures { (p : Sides) (invs : List Invariant) → IsSoundAtLiterals p invs (alone invs) }
{}

/// All arguments are tried, in order, with which a variable of a body becomes one outside it.
pub fn alone_is_tried()
    ensures { (invs : List Invariant) → OffersAlone (at_literal (alone invs)) body_paths (alone_args invs) }
{}

/// A variable of a body may go that one equality alone names, where some row meets it in any case.
pub fn inside_is_sound()
    ensures { (p : Sides) (invs : List Invariant) → IsSoundAtLiterals p invs (inside invs) }
{}

/// All arguments are tried, in order, with which such a variable goes.
pub fn inside_is_tried()
    ensures { (invs : List Invariant) → OffersAlone (at_literal (inside invs)) body_paths (inside_args invs) }
{}

/// Two variables of a term whose column is unique and equal may become one, also where an `Other` names both.
pub fn merge_is_sound()
    ensures { (p : Sides) (invs : List Invariant) → IsSoundOnTerms p invs (merged invs) }
{}

/// All arguments are tried, in order, with which two variables become one.
pub fn merge_is_tried()
    ensures { (invs : List Invariant) → OffersAlone (on_term (merged invs)) own_path (λ path t. merge_args invs t) }
{}

/// A term that equates two columns that are apart may go.
pub fn apart_is_sound()
    ensures { (p : Sides) (invs : List Invariant) → IsSoundOnTerms p invs (parted invs) }
{}

/// All arguments are tried, in order, with which such a term goes.
pub fn apart_is_tried()
    ensures { (invs : List Invariant) → OffersAlone (on_term (parted invs)) own_path (λ path t. apart_args invs t) }
{}

/// A body may be decided that contradicts itself or what stands around it, or that an invariant keeps all rows from.
pub fn never_is_sound()
    ensures { (p : Sides) (invs : List Invariant) → IsSoundAtLiterals p invs (never invs) }
{}

/// A variable of a term may go that one equality alone names, where exactly one row meets it.
pub fn lossless_is_sound()
    ensures { (p : Sides) (invs : List Invariant) → IsSoundOnTerms p invs (lossless invs) }
{}

/// All arguments are tried, in order, with which such a variable goes.
pub fn lossless_is_tried()
    ensures { (invs : List Invariant) → OffersAlone (on_term (lossless invs)) own_path (λ path t. lossless_args invs t) }
{}
