// The completions of one correspondence.
ghost use Rattle.std.specs.Prelude.{◌≡◌, ◌<◌, ◌≤◌, ◌^◌, length, IfOk};
ghost use Rattle.mig_sketch.specs.declared.plans.Made.TheVariants as made;
ghost use Rattle.mig_sketch.specs.Choices.{total, sizes_of};
ghost use Rattle.mig_sketch.specs.Completed.{IsSound};
ghost use Rattle.mig_sketch.specs.Made.{IsMade};
ghost use Rattle.mig_search.specs.Stopping.{Stops, StopsPlan, GivesUp, IsRightStop};

use crate::blaming::block_for;
use crate::judging::judge;
use crate::outcomes::{Options, Tried};
use crate::stopping::{Stop, Verdict};
use mig_base::Seq;
use mig_complete::Chooser;
use mig_invariant::Corr;
use mig_schema::Job;
use mig_sketch::{Made, Plan, fill, sketch};
use std::alloc::{AllocError, Global};

/// Looks at completions in order, until the find, the budget or the end, and adds their entries.
fn look_through(
    alloc: Global,
    job: &Job,
    corr: &Corr,
    plan: &Plan,
    options: &Options,
    tried: &mut Seq<Tried>,
) -> Result<Stop, AllocError>
    requires sound { IsSound job.now corr.now }
    requires made { IsMade job.now corr.now (made.Plan plan.now) }
    requires small { total (sizes_of plan.now.holes) < 2 ^ 31 }
    requires room { length tried.old < options.now.budget }
    ensures stops { IfOk result (λ s. StopsPlan job.now corr.now options.now plan.now tried.old tried.new s) }
    ensures right { IfOk result (λ s. IsRightStop job.now s) }
{
    let mut chooser = Chooser::new(alloc, plan)?;
    'choices: while tried.len() < options.budget as usize {
        let Some(choice) = chooser.next(alloc)? else {
            return Ok(Stop::Whole);
        };
        let program = fill(alloc, plan, &choice)?;
        match judge(alloc, job, corr, &program, options.tests)? {
            Verdict::Find(certificate) => return Ok(Stop::Found(program, certificate)),
            Verdict::Entry(entry) => {
                let block = block_for(
                    alloc,
                    plan.holes.as_slice(),
                    &entry,
                    choice.picks.as_slice(),
                )?;
                chooser.block(block)?;
                tried.push(entry)?;
            }
        }
    }
    Ok(Stop::Spent)
}

/// Adds the one entry of a correspondence, and says whether the budget is spent.
fn give_up(tried: &mut Seq<Tried>, only: Tried, budget: u32) -> Result<Stop, AllocError>
    requires { length tried.old < budget }
    ensures { IfOk result (λ s. GivesUp budget only tried.old tried.new s) }
{
    tried.push(only)?;
    if tried.len() < budget as usize {
        Ok(Stop::Whole)
    } else {
        Ok(Stop::Spent)
    }
}

/// Looks at a correspondence, until the find, the budget or the end, and adds its entries.
pub(crate) fn look_at(
    alloc: Global,
    job: &Job,
    corr: &Corr,
    options: &Options,
    tried: &mut Seq<Tried>,
) -> Result<Stop, AllocError>
    requires sound { IsSound job.now corr.now }
    requires room { length tried.old < options.now.budget }
    ensures stops { IfOk result (λ s. Stops job.now corr.now options.now tried.old tried.new s) }
    ensures right { IfOk result (λ s. IsRightStop job.now s) }
{
    match sketch(alloc, job, corr)? {
        Made::Plan(plan) => look_through(alloc, job, corr, &plan, options, tried),
        Made::Empty { function } => give_up(tried, Tried::NoOption(function), options.budget),
        Made::Wide { function } => give_up(tried, Tried::Wide(function), options.budget),
    }
}
