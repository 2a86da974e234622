// What the outcome says of completions and programs. Each law is the contract of a function that does nothing.
ghost use Rattle.std.specs.Prelude.{◌≡◌, ◌⊎◌, ℕ, Some, List};
ghost use Rattle.mig_schema.specs.declared.jobs.Job.{Job};
ghost use Rattle.mig_schema.specs.declared.programs.Program.{Program};
ghost use Rattle.mig_listing.specs.Listing.{IsIn};
ghost use Rattle.mig_meaning.specs.declared.calling.Calls.{Calls};
ghost use Rattle.mig_meaning.specs.declared.relating.Invariant.{Invariant};
ghost use Rattle.mig_meaning.specs.Equivalent.{AnswersAlike};
ghost use Rattle.mig_invariant.specs.declared.corresp.Corr.{Corr};
ghost use Rattle.mig_sketch.specs.declared.plans.Plan.{Plan};
ghost use Rattle.mig_sketch.specs.Choices.{IsChoice, sizes_of};
ghost use Rattle.mig_sketch.specs.Filling.{filled};
ghost use Rattle.mig_failing.specs.Failing.{AgreeOn, IsFailing};
ghost use Rattle.mig_search.specs.declared.outcomes.Options.{Options as TheOptions};
ghost use Rattle.mig_search.specs.declared.outcomes.Outcome.{Outcome as OneOutcome};
ghost use Rattle.mig_search.specs.declared.outcomes.Tried.{Tried as OneEntry};
ghost use Rattle.mig_search.specs.Outcomes.{AreAllEntries, AreOfAll, IsOutcome};
ghost use Rattle.mig_search.specs.Looking.{Looked, picks_of, IsPassedOver, AreFirstLooked, AreAllLooked};

/// A search has one outcome.
pub fn one_outcome()
    ensures { (job : Job) (options : TheOptions)
        → (a b : OneOutcome)
        → IsOutcome job options a
        → IsOutcome job options b
        → a ≡ b }
{}

/// There is one list of the completions of a plan that are looked at.
pub fn one_list_is_looked_at()
    ensures { (job : Job) (corr : Corr) (tests : ℕ) (plan : Plan)
        → (xs ys : List Looked)
        → AreAllLooked job corr tests plan xs
        → AreAllLooked job corr tests plan ys
        → xs ≡ ys }
{}

/// Where a search is exhausted, all entries of each correspondence that was taken are among its entries.
pub fn each_correspondence_is_seen()
    ensures { (job : Job) (options : TheOptions) (tried : List OneEntry) (all : AreOfAll job options tried) (corr : Corr)
        → IsIn corr all.corrs
        → (here : List OneEntry) × AreAllEntries job corr options.tests here × ((t : OneEntry) → IsIn t here → IsIn t tried) }
{}

/// Each completion of a plan that was looked through whole has an entry, or is passed over.
pub fn each_completion_is_seen()
    ensures { (job : Job) (corr : Corr) (tests : ℕ) (plan : Plan) (seen : List Looked) (picks : List ℕ)
        → AreAllLooked job corr tests plan seen
        → IsChoice (sizes_of plan.holes) picks
        → IsIn picks (picks_of seen) ⊎ IsPassedOver plan.holes seen picks }
{}

/// A completion that is passed over fails on the list of the entry that blames it.
pub fn passed_over_completions_fail()
    ensures { (job : Job) (corr : Corr) (tests : ℕ) (plan : Plan) (seen : List Looked) (picks : List ℕ)
        → AreFirstLooked job corr tests plan seen
        → IsChoice (sizes_of plan.holes) picks
        → (passed : IsPassedOver plan.holes seen picks)
        → AgreeOn job (filled plan picks) passed.calls.calls
        → ⊥ }
{}

/// A program with a failing list is not equivalent to the job's: they do not answer alike.
pub fn refuted_programs_differ()
    ensures { (job : Job) (p : Program) (tests : ℕ) (calls : Calls) (invs : List Invariant)
        → IsFailing job p tests (Some calls)
        → AnswersAlike job.source job.target job.program p invs
        → ⊥ }
{}
