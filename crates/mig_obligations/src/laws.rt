// What obligations that are met give. Each law is the contract of a function that does nothing.
ghost use Rattle.mig_obligations.specs.Obligations.{MetEquivalenceLaw, MetLaw};
ghost use Rattle.mig_obligations.specs.Fitting.{ProperLaw};

/// Typed programs with the same functions, all of whose obligations are met, answer alike by one supply of keys, and every invariant holds after each call.
pub fn met_obligations_answer_alike()
    ensures { MetLaw }
{}

/// Such programs are equivalent.
pub fn met_obligations_make_equivalent()
    ensures { MetEquivalenceLaw }
{}

/// The obligations of a pair of typed functions that are the same, for invariants that are shaped, have proper expressions.
pub fn obligations_are_proper()
    ensures { ProperLaw }
{}
