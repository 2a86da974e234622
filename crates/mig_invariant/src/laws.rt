// What holds of the candidates of a worked case. The law is the contract of a function that does nothing.
ghost use Rattle.std.specs.Prelude.{◌≡◌};
ghost use Rattle.mig_invariant.specs.Candidates as spec;
ghost use Rattle.mig_invariant.specs.Worked as worked;

/// Where the pictures of two tables move to a third there are these twelve candidates, in this order.
pub fn candidates_of_pictures()
    ensures twelve { spec.candidates worked.job worked.corr worked.new_program ≡ worked.twelve }
{}
