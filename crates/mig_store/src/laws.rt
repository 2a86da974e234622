// The law of texts of answers. It is the contract of a function that does nothing.
ghost use Rattle.mig_store.specs.Law.{TextLaw};

/// Answers of the same calls that are equal as bags, each to each, have the same text.
pub fn equal_bags_have_equal_texts()
    ensures { TextLaw }
{}
