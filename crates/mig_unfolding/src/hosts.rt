// Hosts of a variable: a term, or a body, which is a term with no head.
ghost use Rattle.std.specs.Prelude.{◌≡◌, ◌==◌, cond, map, IfOk};
ghost use Rattle.mig_base.specs.Lists.{numbered};
ghost use Rattle.mig_algebra.specs.declared.atoms.Var.{Var as AVar};
ghost use Rattle.mig_algebra.specs.Rename as rename;
ghost use Rattle.mig_unfolding.specs.Hosts as spec;

use mig_algebra::{Inner, Term, Var};
use mig_base::{Exact, Seq};
use std::alloc::{AllocError, Global};

/// A copy of a body, as a host.
pub(crate) fn as_host(alloc: Global, body: &Inner) -> Result<Term, AllocError>
    ensures { IfOk result (λ t. t ≡ spec.as_host body.now) }
{
    let vars = body.vars.twin(alloc)?;
    let lits = body.lits.twin(alloc)?;
    let head = Seq::new(alloc);
    Ok(Term { vars, lits, head })
}

/// A copy of a host, as a body.
fn as_body(alloc: Global, host: &Term) -> Result<Inner, AllocError>
    ensures { IfOk result (λ b. b ≡ spec.as_body host.now) }
{
    let vars = host.vars.twin(alloc)?;
    let lits = host.lits.twin(alloc)?;
    Ok(Inner { vars, lits })
}

/// Copies of hosts, as bodies.
pub(crate) fn bodies_of(alloc: Global, hosts: &[Term]) -> Result<Vec<Inner>, AllocError>
    ensures { IfOk result (λ v. v.items ≡ map spec.as_body hosts.now) }
{
    let mut bodies = Vec::new(alloc);
    for host in hosts {
        bodies.push(as_body(alloc, host)?)?;
    }
    Ok(bodies)
}

/// A variable's number where another one is taken away.
pub(crate) fn below(gone: u32, var: u32) -> u32
    ensures { result ≡ rename.below gone var }
{
    if var < gone {
        var
    } else {
        var.saturating_sub(1)
    }
}

/// A variable one stage earlier.
pub(crate) fn var_before(var: &Var) -> Var
    ensures { result ≡ spec.var_before var.now }
{
    Var {
        side: var.side,
        table: var.table,
        stage: var.stage.saturating_sub(1),
    }
}

/// Variables of which the one of number `at` stands one stage earlier.
fn vars_before(alloc: Global, vars: &[Var], at: usize) -> Result<Seq<Var>, AllocError>
    ensures { IfOk result (λ s. s ≡ numbered (λ n (w : AVar). cond (n == at) (spec.var_before w) w) 0 vars.now) }
{
    let mut before = Seq::new(alloc);
    for (i, var) in vars.iter().enumerate() {
        before.push(if i == at { var_before(var) } else { *var })?;
    }
    Ok(before)
}

/// A host whose own variable of number `at` stands one stage earlier.
pub(crate) fn before_statement(alloc: Global, host: &Term, at: usize) -> Result<Term, AllocError>
    ensures { IfOk result (λ t. t ≡ spec.before_statement at host.now) }
{
    let vars = vars_before(alloc, host.vars.as_slice(), at)?;
    let lits = host.lits.twin(alloc)?;
    let head = host.head.twin(alloc)?;
    Ok(Term { vars, lits, head })
}
