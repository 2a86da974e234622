// A term's equalities are written once for each class, and everywhere else each atom is the least of its class.
ghost use Rattle.std.specs.Prelude.{◌≡◌, ◌++◌, ◌∷◌, [], map, IfOk, OnOk};
ghost use Rattle.mig_schema.specs.declared.programs.Op.TheVariants.{Eq as EqOp};
ghost use Rattle.mig_algebra.specs.declared.literals.Lit.TheVariants.{Cmp};
ghost use Rattle.mig_algebra.specs.Rename as rename;
ghost use Rattle.mig_classes.specs.Classes as class;
ghost use Rattle.mig_literals.specs.Same as spec;

use mig_algebra::{Atom, Lit, Renaming, Term, renamed_atoms, renamed_lits, term_order};
use mig_base::{Exact, Seq};
use mig_classes::{Groups, closure};
use mig_schema::Op;
use mig_steps::{TermRule, one};
use std::alloc::{AllocError, Global};

/// The rule `same`: a term's classes are written once, and each atom is the least of its class.
#[derive(Drop)]
pub struct Settling;

/// Each atom as the least of its class.
#[derive(Drop)]
struct Leasts<'a> {
    groups: &'a Groups<'a>,
}

impl<'a> Renaming for Leasts<'a> {
    ghost atom_for = { λ w a. class.least w.groups.now.lits.now a };

    ghost id_for = { λ w v. spec.kept v };

    fn atom(&self, alloc: Global, atom: &Atom) -> Result<Atom, AllocError> {
        let least = self.groups.least(atom);
        let twin = least.twin(alloc)?;
        Ok(twin)
    }

    fn id(&self, var: u32) -> Result<u32, AllocError> {
        Ok(var)
    }
}

/// An equality.
fn equal(alloc: Global, left: &Atom, right: &Atom) -> Result<Lit, AllocError>
    ensures { IfOk result (λ l. l ≡ Cmp EqOp left.now right.now) }
{
    Ok(Lit::Cmp {
        op: Op::Eq,
        left: left.twin(alloc)?,
        right: right.twin(alloc)?,
    })
}

/// Puts an atom, equal to each of these, at the end.
fn push_equals(
    alloc: Global,
    all: &mut Vec<Lit>,
    first: &Atom,
    rest: &[Atom],
) -> Result<(), AllocError>
    ensures { OnOk result (all.new.items ≡ all.old.items ++ map (Cmp EqOp first.now) rest.now) }
{
    for other in rest {
        all.push(equal(alloc, first, other)?)?;
    }
    Ok(())
}

/// Puts the first atom of a class, equal to each other, at the end.
fn push_class(alloc: Global, all: &mut Vec<Lit>, class: &[Atom]) -> Result<(), AllocError>
    ensures { OnOk result (all.new.items ≡ all.old.items ++ spec.first_equal class.now) }
{
    match class {
        [] => Ok(()),
        [first, rest @ ..] => {
            push_equals(alloc, all, first, rest)?;
            Ok(())
        }
    }
}

/// The equalities of the classes of a term.
fn classes_equal(alloc: Global, term: &Term) -> Result<Vec<Lit>, AllocError>
    ensures { IfOk result (λ v. v.items ≡ spec.classes_equal term.now.lits) }
{
    let mut all = Vec::new(alloc);
    let classes = closure(alloc, term)?;
    for class in classes.groups.as_slice() {
        push_class(alloc, &mut all, class.as_slice())?;
    }
    Ok(all)
}

/// Puts a copy of a literal at the end, unless it is an equality.
fn push_other(alloc: Global, all: &mut Vec<Lit>, lit: &Lit) -> Result<(), AllocError>
    ensures { OnOk result (all.new.items ≡ all.old.items ++ spec.unequated (lit.now ∷ [])) }
{
    match lit {
        Lit::Cmp { op: Op::Eq, .. } => Ok(()),
        _ => {
            all.push(lit.twin(alloc)?)?;
            Ok(())
        }
    }
}

/// The literals that are no equalities.
fn unequated(alloc: Global, lits: &[Lit]) -> Result<Vec<Lit>, AllocError>
    ensures { IfOk result (λ v. v.items ≡ spec.unequated lits.now) }
{
    let mut all = Vec::new(alloc);
    for lit in lits {
        push_other(alloc, &mut all, lit)?;
    }
    Ok(all)
}

/// The literals of a term with its classes written once.
fn settled_lits(alloc: Global, groups: &Groups, term: &Term) -> Result<Seq<Lit>, AllocError>
    requires { groups.now.lits.now ≡ term.now.lits }
    ensures { IfOk result (λ s. s ≡ spec.same_lits term.now.lits ++ rename.lits_with (class.least term.now.lits) spec.kept (spec.unequated term.now.lits)) }
{
    let mut all = classes_equal(alloc, term)?;
    let others = unequated(alloc, term.lits.as_slice())?;
    let mut renamed = renamed_lits(alloc, &Leasts { groups }, others.as_slice())?;
    all.append(&mut renamed)?;
    Ok(Seq::from_vec(all))
}

/// A term with its classes written once.
fn settled(alloc: Global, term: &Term) -> Result<Term, AllocError>
    ensures { IfOk result (λ t. t ≡ spec.term_same term.now) }
{
    let groups = Groups::of(alloc, term.lits.as_slice())?;
    let vars = term.vars.twin(alloc)?;
    let lits = settled_lits(alloc, &groups, term)?;
    let head = renamed_atoms(alloc, &Leasts { groups: &groups }, term.head.as_slice())?;
    Ok(Term {
        vars,
        lits,
        head: Seq::from_vec(head),
    })
}

/// A term with its classes written once, where it differs.
fn by_same(alloc: Global, term: &Term) -> Result<Option<Seq<Term>>, AllocError>
    ensures { IfOk result (λ o. o ≡ spec.by_same term.now) }
{
    let settled = settled(alloc, term)?;
    if term_order(term, &settled).is_eq() {
        return Ok(None);
    }
    let terms = one(alloc, settled)?;
    Ok(Some(terms))
}

impl TermRule for Settling {
    ghost use Rattle.mig_literals.specs.Same.{same};

    ghost gives = { λ r args t. same args t };

    fn terms(
        &self,
        alloc: Global,
        args: &[u32],
        term: &Term,
    ) -> Result<Option<Seq<Term>>, AllocError> {
        match args {
            [] => by_same(alloc, term),
            _ => Ok(None),
        }
    }
}
