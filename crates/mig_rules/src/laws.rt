// Laws of steps. Each is the contract of a function that does nothing.
ghost use Rattle.std.specs.Prelude.{List};
ghost use Rattle.mig_meaning.specs.declared.relating.Invariant.{Invariant};
ghost use Rattle.mig_algebra.specs.declared.terms.Expr.{Expr};
ghost use Rattle.mig_algebra.specs.Proper.{Sides};
ghost use Rattle.mig_rules.specs.First.{FindsFirst, first_step};
ghost use Rattle.mig_rules.specs.Keeping.{FollowLaw};
ghost use Rattle.mig_rules.specs.Laws.{QuietLaw};

/// A step that follows leads from a proper expression to a proper one, with equal bags wherever the facts hold.
pub fn steps_keep_bags()
    ensures { FollowLaw }
{}

/// What is found by going through rules, terms, paths and arguments in order is the least step that follows.
pub fn first_step_is_least()
    ensures { (p : Sides) (invs : List Invariant) (e : Expr) → FindsFirst p invs e (first_step p invs e) }
{}

/// What is known of terms serves on after a step at another term.
pub fn quiet_terms_stay_quiet()
    ensures { QuietLaw }
{}
