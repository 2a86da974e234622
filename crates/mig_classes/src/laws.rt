// What classes and given comparisons are. Each law is the contract of a function that does nothing.
ghost use Rattle.mig_classes.specs.Laws.{ClassLaw, ComplementLaw, ContradictionLaw, EqualLaw, GivenLaw, ValueLaw};

/// Two atoms are in one class exactly where every equivalence that holds of both sides of each equality holds of them. The least atom of a class is in it, and no atom of the class is before it.
pub fn classes_are_the_least_equivalence()
    ensures { ClassLaw }
{}

/// Where a list of literals is true, the atoms of a class have one value.
pub fn class_members_have_one_value()
    ensures { ValueLaw }
{}

/// At a choice of rows for the variables in scope at which a list of literals is true, so is each comparison that the list gives. It is asked that the call's keys differ, that no row from before the call holds one of them, and that each label of the list and of the comparison has a key.
pub fn given_comparisons_are_true()
    ensures { GivenLaw }
{}

/// A contradictory list of literals is true at no choice of rows for the variables in scope. It is asked that the call's keys differ, that no row from before the call holds one of them, and that each label of the list has a key.
pub fn contradictory_lists_are_never_true()
    ensures { ContradictionLaw }
{}

/// The complement of a comparison or of a body is true exactly where the literal is not.
pub fn complements_are_true_elsewhere()
    ensures { ComplementLaw }
{}

/// The sides of an equality that a list gives have one value wherever the list is true.
pub fn given_equalities_hold()
    ensures { EqualLaw }
{}
