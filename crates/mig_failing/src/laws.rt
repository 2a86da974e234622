// Laws of test lists, and of programs that fail on one.
ghost use Rattle.std.specs.Prelude.{◌≡◌, false, true, ◌≤◌, List, length};
ghost use Rattle.mig_schema.specs.declared.jobs.Job.{Job};
ghost use Rattle.mig_schema.specs.declared.programs.Program.{Program};
ghost use Rattle.mig_listing.specs.Listing.{IsIn, IsListOf};
ghost use Rattle.mig_meaning.specs.declared.calling.Invocation.{Invocation};
ghost use Rattle.mig_meaning.specs.declared.relating.Invariant.{Invariant};
ghost use Rattle.mig_meaning.specs.Calls.{AreCalls};
ghost use Rattle.mig_meaning.specs.Equivalent.{AnswersAlike};
ghost use Rattle.mig_meaning.specs.Run.{function_at};
ghost use Rattle.mig_failing.specs.Failing.{AgreeOn};
ghost use Rattle.mig_failing.specs.Made.{all_lists, test_calls};
ghost use Rattle.mig_failing.specs.Tests.{IsTestList, TestBefore};

/// The lists that are gone through are all test lists, in order.
pub fn listing_of_tests()
    ensures { (p : Program) → IsListOf (IsTestList p) TestBefore (all_lists (test_calls p false) (test_calls p true)) }
{}

/// Programs that answer alike agree on all calls: one that fails on a test list is not equivalent to the job's.
pub fn equivalent_programs_agree()
    ensures { (job : Job) (p : Program) (invs : List Invariant) (calls : List Invocation)
        → AnswersAlike job.source job.target job.program p invs
        → AreCalls job.program calls
        → length calls ≤ 100000
        → AgreeOn job p calls }
{}

/// Two programs with the same functions wherever these calls name one agree with the job's program alike: what a list
/// refutes, it refutes in each program that differs at other functions alone.
pub fn called_functions_decide()
    ensures { (job : Job) (p q : Program) (calls : List Invocation)
        → ((i : Invocation) → IsIn i calls → function_at p i.function ≡ function_at q i.function)
        → AgreeOn job p calls
        → AgreeOn job q calls }
{}
