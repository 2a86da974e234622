// What is alone of its kind. The law is the contract of a function that does nothing.
ghost use Rattle.std.specs.Prelude.{◌≡◌, Bool, List};
ghost use Rattle.mig_sat.specs.declared.clauses.Cnf.{Cnf as Clauses};
ghost use Rattle.mig_sat.specs.Models.{IsFirstModel};

/// There is one first model at most.
pub fn one_first()
    ensures one { (cnf : Clauses) (a b : List Bool) → IsFirstModel cnf a → IsFirstModel cnf b → a ≡ b }
{}
