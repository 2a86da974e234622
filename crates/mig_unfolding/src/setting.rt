// A host unfolded by a set of a column: for each case the written host, and the host as it was where none is met.
ghost use Rattle.std.specs.Prelude.{◌≡◌, ◌∷◌, [], true, IfOk};
ghost use Rattle.mig_algebra.specs.declared.literals.Lit.TheVariants.{Any};
ghost use Rattle.mig_unfolding.specs.Cases as bodies;
ghost use Rattle.mig_unfolding.specs.Hosts.{with_more};
ghost use Rattle.mig_unfolding.specs.Unfolding as spec;

use crate::cases::Seeing;
use mig_algebra::{Atom, Renaming, Term, renamed_atoms, renamed_lits};
use mig_base::{Exact, Seq};
use mig_schema::Cmp;
use mig_steps::{Naming, atoms_pass, lits_pass};
use std::alloc::{AllocError, Global};

/// An atom in place of a column of a variable.
#[derive(Drop)]
pub(crate) struct Writing<'a> {
    pub var: u32,
    pub column: u32,
    pub value: &'a Atom,
}

impl<'a> Renaming for Writing<'a> {
    ghost use Rattle.mig_unfolding.specs.Unfolding.{written};

    ghost atom_for = { λ w a. written w.var w.column w.value.now a };

    ghost id_for = { λ w v. v };

    fn atom(&self, alloc: Global, atom: &Atom) -> Result<Atom, AllocError> {
        match atom {
            Atom::Int(i) => Ok(Atom::Int(*i)),
            Atom::Text(t) => Ok(Atom::Text(t.twin(alloc)?)),
            Atom::Param(p) => Ok(Atom::Param(*p)),
            Atom::Fresh(n) => Ok(Atom::Fresh(*n)),
            Atom::Col { var, column } => if *var == self.var && *column == self.column {
                Ok(self.value.twin(alloc)?)
            } else {
                Ok(Atom::Col {
                    var: *var,
                    column: *column,
                })
            },
        }
    }

    fn id(&self, var: u32) -> Result<u32, AllocError> {
        Ok(var)
    }
}

/// A host with that.
fn write(alloc: Global, writing: &Writing, host: &Term) -> Result<Term, AllocError>
    ensures { IfOk result (λ t. t ≡ spec.write writing.now.var writing.now.column writing.now.value.now host.now) }
{
    let vars = host.vars.twin(alloc)?;
    let lits = Seq::from_vec(renamed_lits(alloc, writing, host.lits.as_slice())?);
    let head = Seq::from_vec(renamed_atoms(alloc, writing, host.head.as_slice())?);
    Ok(Term { vars, lits, head })
}

/// Any atom but a column of a variable.
#[derive(Drop)]
struct Unused {
    var: u32,
    column: u32,
}

impl Naming for Unused {
    ghost use Rattle.std.specs.Prelude.{true};
    ghost use Rattle.mig_unfolding.specs.Unfolding.{is_other};

    ghost atom_passes = { λ t a. is_other t.var t.column a };

    ghost id_passes = { λ t v. true };

    fn passes(&self, atom: &Atom) -> bool {
        match atom {
            Atom::Int(_) | Atom::Text(_) | Atom::Param(_) | Atom::Fresh(_) => true,
            Atom::Col { var, column } => !(*var == self.var && *column == self.column),
        }
    }

    fn passes_id(&self, _var: u32) -> bool {
        true
    }
}

/// Whether a host uses a column of a variable nowhere.
pub(crate) fn is_unused(var: u32, column: u32, host: &Term) -> bool
    ensures { result ≡ spec.is_unused var column host.now }
{
    let test = Unused { var, column };
    lits_pass(&test, host.lits.as_slice()) && atoms_pass(&test, host.head.as_slice())
}

/// The written host, where a case's body is met and none of those before it.
fn by_case(
    alloc: Global,
    seeing: &Seeing,
    wrote: &Term,
    before: &[Seq<Cmp>],
    case: &[Cmp],
) -> Result<Term, AllocError>
    ensures { let body = bodies.case_body seeing.now.side seeing.now.stage seeing.now.join.now seeing.now.table seeing.now.var seeing.now.scope in IfOk result (λ t. t ≡ with_more wrote.now (Any true (body case.now) ∷ bodies.unmet body before.now)) }
{
    let mut host = wrote.twin(alloc)?;
    host.lits.push(seeing.met(alloc, true, case)?)?;
    seeing.push_unmet(alloc, before, &mut host.lits)?;
    Ok(host)
}

/// The hosts of a set: a written one for each case, and the host as it was.
fn by_cases(
    alloc: Global,
    seeing: &Seeing,
    kept: Term,
    wrote: &Term,
    cases: &[Seq<Cmp>],
) -> Result<Seq<Term>, AllocError>
    ensures { IfOk result (λ s. s ≡ spec.by_cases (bodies.case_body seeing.now.side seeing.now.stage seeing.now.join.now seeing.now.table seeing.now.var seeing.now.scope) kept wrote.now [] cases.now) }
{
    let mut hosts = Seq::new(alloc);
    for i in 0..cases.len() {
        hosts.push(by_case(alloc, seeing, wrote, &cases[..i], cases[i].as_slice())?)?;
    }
    let mut last = kept;
    seeing.push_unmet(alloc, cases, &mut last.lits)?;
    hosts.push(last)?;
    Ok(hosts)
}

/// The hosts for the rows that take part, by the first case that they meet, and for the others.
pub(crate) fn set_hosts(
    alloc: Global,
    seeing: &Seeing,
    writing: &Writing,
    before: Term,
    cases: &[Seq<Cmp>],
) -> Result<Seq<Term>, AllocError>
    ensures { IfOk result (λ s. s ≡ spec.by_cases (bodies.case_body seeing.now.side seeing.now.stage seeing.now.join.now seeing.now.table seeing.now.var seeing.now.scope) before (spec.write writing.now.var writing.now.column writing.now.value.now before) [] cases.now) }
{
    let wrote = write(alloc, writing, &before)?;
    let hosts = by_cases(alloc, seeing, before, &wrote, cases)?;
    Ok(hosts)
}
