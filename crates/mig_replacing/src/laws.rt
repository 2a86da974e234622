// Literals may be replaced. Each law is the contract of a function that does nothing.
ghost use Rattle.mig_replacing.specs.Given.{GivenLaw, NeverLaw, SoundLaw};
ghost use Rattle.mig_replacing.specs.Replaced.{CountLaw, ProperLaw, ReplacementLaw};

/// A literal may be replaced by alternatives, or a body by bodies, where the choices of rows that reach it do not tell them apart. A choice of rows for the variables in the literal's scope reaches it where all other literals of its list, and of each list around it, are true at that choice; the literals whose bodies it stands in are not asked. For a literal it is asked that it is true, at each choice that reaches it, exactly where some alternative is, and, where it stands directly in a term, that at most one alternative is true there. For a body it is asked that it can be met, at each such choice, exactly where one of the bodies can. (`docs/EXPRESSIONS.md`, "Replacing a literal".)
pub fn replacing_keeps_the_bag()
    ensures { ReplacementLaw }
{}

/// A proper term becomes proper terms, where the alternatives fit among the variables in the literal's scope and are oriented.
pub fn replacing_keeps_terms_proper()
    ensures { ProperLaw }
{}

/// A comparison that the plain literals around it give may go, in a term whose literals name none but variables in scope and labels that have a key, where the call's keys differ and no row from before the call holds one of them. A literal that stands twice in one list may go once, whatever the term.
pub fn given_literals_go()
    ensures { GivenLaw }
{}

/// A body whose plain literals contradict themselves, or those around it, is never met: where it is held it has no alternative, else one without literals. A term whose plain literals contradict themselves has no rows. Of the term and the keys it is asked what `given_literals_go` asks.
pub fn contradictory_bodies_go()
    ensures { NeverLaw }
{}

/// What `given_literals_go` and `contradictory_bodies_go` ask of a term holds of each proper term, where the call's keys differ, no row from before the call holds one of them, and there are sixteen or more.
pub fn proper_terms_are_sound()
    ensures { SoundLaw }
{}

/// A body may be replaced by bodies that are met together by as many choices of rows for their variables as the body is, at each choice that reaches its literal.
pub fn bodies_are_met_by_counts()
    ensures { CountLaw }
{}
