// What holds of rules put to work. Each law is the contract of a function that does nothing.
ghost use Rattle.mig_steps.specs.Laws.{MomentLaw, OfferLaw, WaysLaw};

/// At each moment of a call its keys differ and no row from before it has one of them; so a proper term has all that the laws on given literals and on contradictory bodies ask.
pub fn moments_have_fresh_keys()
    ensures { MomentLaw }
{}

/// A rule that is sound on terms, on literals, or on a term and those behind it, makes steps that are.
pub fn sound_rules_make_sound_steps()
    ensures { WaysLaw }
{}

/// All paths and arguments are tried, in order, with which a rule gives something.
pub fn all_is_tried()
    ensures { OfferLaw }
{}
