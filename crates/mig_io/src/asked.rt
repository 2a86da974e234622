// A history of names that only proofs read.
ghost use Rattle.std.specs.Prelude.{◌≡◌, ℕ, List, [], ◌∷◌, ◌++◌};
ghost use Rattle.std.specs.Borrow.{ftrue};

use mig_base::Word;
use std::marker::Model;

/// The names that were asked for, in order. Contracts alone see them: the value takes no bytes.
#[derive(Drop)]
pub struct Asked {
    pub ghost names: { List (List ℕ) },
}

impl Model for Asked {
    ghost also_owns = { λ _. ftrue };
}

impl Asked {
    /// No names.
    pub fn new() -> Asked
        ensures { result.names ≡ [] }
    {
        Asked {}
    }

    /// The names before, and then this one.
    pub fn with(_before: &Asked, _name: &Word) -> Asked
        ensures { result.names ≡ _before.now.names ++ _name.now ∷ [] }
    {
        Asked {}
    }
}
