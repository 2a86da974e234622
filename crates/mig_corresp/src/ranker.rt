// Gives the correspondences of a job one after the other, the heaviest first.
ghost use Rattle.std.specs.Prelude.{◌≡◌, [], ◌∷◌, ◌++◌, length, map, IfOk, IfSome, IfNone, OnOk, OnErr};
ghost use Rattle.mig_listing.specs.Listing.{IsListOf};
ghost use Rattle.mig_listing.specs.Fronts.{IsFront};
ghost use Rattle.mig_maxsat.specs.Heaviest.{IsSound};
ghost use Rattle.mig_corresp.specs.Correspondences.{IsCorr, RanksBefore};
ghost use Rattle.mig_corresp.specs.Coding.{clauses_over};
ghost use Rattle.mig_corresp.specs.Weights.{pair_weight};

use crate::coding::{clauses, differing};
use crate::pairing::{all_pairs, picked};
use crate::weighing::weights;
use mig_base::{Exact, Seq, number};
use mig_invariant::{ColPair, Corr};
use mig_maxsat::{Weighted, best};
use mig_sat::{Cnf, SatLit};
use mig_schema::Job;
use std::alloc::{AllocError, Global};
use std::marker::Model;

/// A job, and the correspondences that were given so far.
#[derive(Drop)]
pub struct Ranker {
    alloc: Global,
    job: Job,
    pairs: Seq<ColPair>,
    problem: Weighted,
    given: Vec<Corr>,
}

impl Model for Ranker {
    ghost use Rattle.mig_corresp.specs.Ranked.{Ranked};
    ghost use Rattle.mig_corresp.specs.RankerInside.{ranked_of, IsRanking};

    ghost Value = { Ranked };

    ghost view = { ranked_of };

    ghost invariant = { IsRanking };
}

/// The clauses of the job over these pairs, and what the pairs weigh.
fn problem(alloc: Global, job: &Job, pairs: &[ColPair]) -> Result<Weighted, AllocError>
    ensures vars { IfOk result (λ p. p.hard.vars ≡ length pairs.now) }
    ensures clauses { IfOk result (λ p. p.hard.clauses ≡ clauses_over job.now pairs.now) }
    ensures weights { IfOk result (λ p. p.weights ≡ map (pair_weight job.now) pairs.now) }
    ensures sound { IfOk result IsSound }
{
    let vars = number(pairs.len())?;
    let clauses = clauses(alloc, job, pairs)?;
    let weights = weights(alloc, job, pairs)?;
    let problem = Weighted {
        hard: Cnf { vars, clauses },
        weights,
    };
    if problem.is_sound() {
        Ok(problem)
    } else {
        Err(AllocError)
    }
}

/// Puts a clause and a correspondence at the ends of their lists, or neither.
fn add(
    clauses: &mut Seq<Seq<SatLit>>,
    clause: Seq<SatLit>,
    given: &mut Vec<Corr>,
    corr: Corr,
) -> Result<(), AllocError>
    ensures ok { OnOk result ((clauses.new ≡ clauses.old ++ clause ∷ []) × (given.new.items ≡ given.old.items ++ corr ∷ [])) }
    ensures err { OnErr result ((clauses.new ≡ clauses.old) × (given.new.items ≡ given.old.items)) }
{
    given.push(corr)?;
    if clauses.push(clause).is_err() {
        given.pop();
        return Err(AllocError);
    }
    Ok(())
}

impl Ranker {
    /// A ranker of the job's correspondences, of which it has given none yet.
    ///
    /// The only error is want of memory, as which 2^32 pairs of columns count, and weights that sum to 2^62 or more.
    pub fn new(alloc: Global, job: &Job) -> Result<Ranker, AllocError>
        ensures { IfOk result (λ r. r ≡ record { job = job.now; given = [] }) }
    {
        let pairs = all_pairs(alloc, job)?;
        let problem = problem(alloc, job, pairs.as_slice())?;
        let job = job.twin(alloc)?;
        Ok(Ranker {
            alloc,
            job,
            pairs,
            problem,
            given: Vec::new(alloc),
        })
    }

    /// The next correspondence by falling weight, of equally heavy ones by their pairs; `None` exactly where all were given.
    ///
    /// What has been given is always the front of the list of all correspondences in this order. The only error is want of memory,
    /// which leaves the ranker as it was.
    pub fn next(&mut self) -> Result<Option<Corr>, AllocError>
        ensures given { IfOk result (λ o. IfSome o (λ c. self.new ≡ record { job = self.old.job; given = self.old.given ++ c ∷ [] })) }
        ensures ranked { IfOk result (λ o. IfSome o (λ c. IsFront (IsCorr self.old.job) (RanksBefore self.old.job) (self.old.given ++ c ∷ []))) }
        ensures all { IfOk result (λ o. IfNone o (IsListOf (IsCorr self.old.job) (RanksBefore self.old.job) self.old.given)) }
        ensures none { IfOk result (λ o. IfNone o (self.new ≡ self.old)) }
        ensures err { OnErr result (self.new ≡ self.old) }
    {
        let Some(model) = best(self.alloc, &self.problem)? else {
            return Ok(None);
        };
        let values = model.values.as_slice();
        let pairs = picked(self.alloc, self.pairs.as_slice(), values)?;
        let corr = Corr { pairs };
        let twin = corr.twin(self.alloc)?;
        let clause = differing(self.alloc, values)?;
        add(
            &mut self.problem.hard.clauses,
            clause,
            &mut self.given,
            twin,
        )?;
        Ok(Some(corr))
    }
}
