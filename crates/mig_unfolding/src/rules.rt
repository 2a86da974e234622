// The rules `stage` and `stagein`, and what is tried for them.
ghost use Rattle.std.specs.Prelude.{◌≡◌, IfOk, slice_get};
ghost use Rattle.mig_obligations.specs.Pairs.{sides_of};
ghost use Rattle.mig_unfolding.specs.Stages as spec;

use crate::hosts::{as_host, bodies_of};
use crate::staging::by_stage;
use mig_algebra::{Inner, Lit, Term, Var};
use mig_base::{Seq, number};
use mig_obligations::Pair;
use mig_replacing::spread;
use mig_steps::{Front, LitRule, Spot, TermRule, chosen, spot_at};
use std::alloc::{AllocError, Global};

/// The rule `stage`: a variable of a term is unfolded by the statement before its stage.
#[derive(Drop)]
pub struct Staging<'a> {
    pub pair: &'a Pair<'a>,
}

/// The rule `stagein`: a variable of a body is unfolded by the statement before its stage.
#[derive(Drop)]
pub struct InnerStaging<'a> {
    pub pair: &'a Pair<'a>,
}

impl<'a> TermRule for Staging<'a> {
    ghost use Rattle.mig_unfolding.specs.Stages.{stage};

    ghost gives = { λ r args t. stage (sides_of r.pair.now) args t };

    fn terms(
        &self,
        alloc: Global,
        args: &[u32],
        term: &Term,
    ) -> Result<Option<Seq<Term>>, AllocError> {
        match args {
            [v] => by_stage(alloc, self.pair, &[], *v, term),
            _ => Ok(None),
        }
    }
}

/// What a body becomes.
fn staged_body(
    alloc: Global,
    pair: &Pair,
    scope: &[Var],
    v: u32,
    held: bool,
    inner: &Inner,
) -> Result<Option<Seq<Seq<Lit>>>, AllocError>
    ensures { IfOk result (λ o. o ≡ spec.stagein_body (sides_of pair.now) scope.now v held inner.now.vars inner.now.lits) }
{
    let Some(at) = v.checked_sub(number(scope.len())?) else {
        return Ok(None);
    };
    let host = as_host(alloc, inner)?;
    let Some(hosts) = by_stage(alloc, pair, scope, at, &host)? else {
        return Ok(None);
    };
    let bodies = bodies_of(alloc, hosts.as_slice())?;
    let alternatives = spread(alloc, held, bodies.as_slice())?;
    Ok(Some(Seq::from_vec(alternatives)))
}

/// What a literal becomes.
fn staged_lit(
    alloc: Global,
    pair: &Pair,
    scope: &[Var],
    v: u32,
    lit: &Lit,
) -> Result<Option<Seq<Seq<Lit>>>, AllocError>
    ensures { IfOk result (λ o. o ≡ spec.stagein_lit (sides_of pair.now) scope.now v lit.now) }
{
    match lit {
        Lit::Any { held, inner } => {
            let given = staged_body(alloc, pair, scope, v, *held, inner)?;
            Ok(given)
        }
        _ => Ok(None),
    }
}

impl<'a> LitRule for InnerStaging<'a> {
    ghost use Rattle.mig_unfolding.specs.Stages.{stagein};

    ghost gives = { λ r args s. stagein (sides_of r.pair.now) args s };

    fn alternatives(
        &self,
        alloc: Global,
        args: &[u32],
        spot: &Spot,
    ) -> Result<Option<Seq<Seq<Lit>>>, AllocError> {
        match args {
            [v] => {
                let scope = spot.scope.as_slice();
                let given = staged_lit(alloc, self.pair, scope, *v, spot.lit)?;
                Ok(given)
            }
            _ => Ok(None),
        }
    }
}

/// Whether a variable of a number is there, of a stage after a statement.
fn has_stage(vars: &[Var], at: u32) -> bool
    ensures { result ≡ spec.has_stage (slice_get vars.now at) }
{
    match vars.get(at as usize) {
        Some(var) => var.stage != 0,
        None => false,
    }
}

/// Variables of stages after a statement, each alone, which stand behind so many others.
#[derive(Drop)]
struct Later<'a> {
    around: u32,
    vars: &'a [Var],
}

impl<'a> Front for Later<'a> {
    ghost use Rattle.mig_unfolding.specs.Stages.{may_unfold};

    ghost may = { λ t front. may_unfold t.around t.vars.now front };

    fn goes_on(&self, front: &[u32]) -> bool {
        match front {
            [v] => match v.checked_sub(self.around) {
                Some(at) => has_stage(self.vars, at),
                None => false,
            },
            _ => false,
        }
    }
}

/// The arguments that are tried for the rule `stage`, in order: the term's variables of stages after a statement.
pub fn stage_args(alloc: Global, term: &Term) -> Result<Seq<Seq<u32>>, AllocError>
    ensures { IfOk result (λ s. s ≡ spec.stage_args term.now) }
{
    let vars = term.vars.as_slice();
    let none = Seq::new(alloc);
    let all = chosen(alloc, &Later { around: 0, vars }, vars.len(), 1, &none)?;
    Ok(Seq::from_vec(all))
}

/// The arguments that are tried at a literal.
fn lit_args(alloc: Global, around: u32, lit: &Lit) -> Result<Seq<Seq<u32>>, AllocError>
    ensures { IfOk result (λ s. s ≡ spec.lit_args around lit.now) }
{
    let Lit::Any { inner, .. } = lit else {
        return Ok(Seq::new(alloc));
    };
    let vars = inner.vars.as_slice();
    let none = Seq::new(alloc);
    let Some(count) = vars.len().checked_add(around as usize) else {
        return Err(AllocError);
    };
    let all = chosen(alloc, &Later { around, vars }, count, 1, &none)?;
    Ok(Seq::from_vec(all))
}

/// The arguments that are tried for the rule `stagein` at a path, in order: the body's variables of stages after a statement. Want of memory is answered too where there are more variables than a u32 counts.
pub fn stagein_args(alloc: Global, path: &[u32], term: &Term) -> Result<Seq<Seq<u32>>, AllocError>
    ensures { IfOk result (λ s. s ≡ spec.stagein_args path.now term.now) }
{
    let found = spot_at(alloc, term, path)?;
    let Some(spot) = found else {
        return Ok(Seq::new(alloc));
    };
    let around = number(spot.scope.len())?;
    let args = lit_args(alloc, around, spot.lit)?;
    Ok(args)
}
