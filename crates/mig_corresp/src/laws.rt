// What holds of the list of a job's correspondences. Each law is the contract of a function that does nothing.
ghost use Rattle.std.specs.Prelude.{◌≡◌, ◌++◌, List};
ghost use Rattle.mig_listing.specs.Listing.{IsListOf};
ghost use Rattle.mig_listing.specs.Fronts.{IsFront};
ghost use Rattle.mig_schema.specs.declared.jobs.Job.{Job};
ghost use Rattle.mig_invariant.specs.declared.corresp.Corr.{Corr};
ghost use Rattle.mig_corresp.specs.Correspondences.{IsCorr, RanksBefore};

/// There is one list of all correspondences of a job in their order.
pub fn one_ranking()
    ensures one { (job : Job) (xs ys : List Corr)
        → IsListOf (IsCorr job) (RanksBefore job) xs
        → IsListOf (IsCorr job) (RanksBefore job) ys
        → xs ≡ ys }
{}

/// That list begins with what a ranker has given: its k-th answer is the k-th of the list.
pub fn ranked_in_turn()
    ensures begins { (job : Job) (all given : List Corr)
        → IsListOf (IsCorr job) (RanksBefore job) all
        → IsFront (IsCorr job) (RanksBefore job) given
        → (rest : List Corr) × (all ≡ given ++ rest) }
{}
