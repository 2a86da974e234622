// Laws of simplified expressions and of proofs. Each is the contract of a function that does no more than cite others.
ghost use Rattle.mig_prover.specs.Proving.{OneProof};
ghost use Rattle.mig_prover.specs.Simplified.{OneTrail, TrailLaw};

use mig_rules::steps_keep_bags;

/// The end of a proper expression's trail is proper, and has the same bag wherever the facts hold.
pub fn simplified_keeps_bags()
    ensures { TrailLaw }
{
    steps_keep_bags()
}

/// An expression has one trail.
pub fn simplified_one_way()
    ensures { OneTrail }
{}

/// What is made of a program is one thing: a certificate, or a query and the candidates that are not kept.
pub fn one_proof()
    ensures { OneProof }
{}
