// The bodies of the cases of a statement's condition, at a variable of a host.
ghost use Rattle.std.specs.Prelude.{◌≡◌, ◌++◌, map, IfOk, OnOk};
ghost use Rattle.mig_algebra.specs.declared.literals.Lit.TheVariants.{Any};
ghost use Rattle.mig_algebra.specs.Obligations.{var_of};
ghost use Rattle.mig_meaning.specs.Lists.{place};
ghost use Rattle.mig_schema.specs.Joins.{tables_of as spec_tables};
ghost use Rattle.mig_steps.specs.Variables.{leaving_out};
ghost use Rattle.mig_unfolding.specs.Cases as spec;

use crate::comparing::case_lits;
use crate::hosts::below;
use mig_algebra::{Atom, Inner, Lit, Renaming, Var, renamed_lits};
use mig_base::{Exact, Seq, number};
use mig_obligations::{join_lits, join_vars, place_in};
use mig_schema::{Cmp, Join, Side};
use mig_steps::leaving_out as rest_of;
use std::alloc::{AllocError, Global};

/// The condition of a statement, as a variable sees it that stands for the rows of one of its tables.
#[derive(Drop)]
pub(crate) struct Seeing<'a> {
    pub side: Side,
    /// The stage before the statement.
    pub stage: u32,
    pub join: &'a Join,
    pub table: u32,
    /// The variable's number.
    pub var: u32,
    /// How many variables are in scope.
    pub scope: u32,
}

/// The numbers that the tables of a join get in a case's body.
#[derive(Drop)]
struct Numbering {
    place: u32,
    var: u32,
    scope: u32,
}

impl Numbering {
    /// The number of the table at a place.
    fn number(&self, i: u32) -> Result<u32, AllocError>
        ensures { IfOk result (λ n. n ≡ spec.case_number self.now.place self.now.var self.now.scope i) }
    {
        if i == self.place {
            Ok(self.var)
        } else {
            number(self.scope as usize + below(self.place, i) as usize)
        }
    }
}

impl Renaming for Numbering {
    ghost use Rattle.mig_algebra.specs.Rename.{renumbered};

    ghost atom_for = { λ w a. renumbered (spec.case_number w.place w.var w.scope) a };

    ghost id_for = { λ w i. spec.case_number w.place w.var w.scope i };

    fn atom(&self, alloc: Global, atom: &Atom) -> Result<Atom, AllocError> {
        match atom {
            Atom::Int(i) => Ok(Atom::Int(*i)),
            Atom::Text(t) => Ok(Atom::Text(t.twin(alloc)?)),
            Atom::Param(p) => Ok(Atom::Param(*p)),
            Atom::Fresh(n) => Ok(Atom::Fresh(*n)),
            Atom::Col { var, column } => Ok(Atom::Col {
                var: self.number(*var)?,
                column: *column,
            }),
        }
    }

    fn id(&self, var: u32) -> Result<u32, AllocError> {
        self.number(var)
    }
}

/// Variables without the one at a place, where there is one.
#[tactic(auto, using(crate::proofs::Others::leaving_none))]
fn others_of(alloc: Global, vars: &[Var], at: usize) -> Result<Seq<Var>, AllocError>
    ensures { IfOk result (λ s. s ≡ leaving_out at vars.now) }
{
    if at < vars.len() {
        let rest = rest_of(alloc, vars, at)?;
        return Ok(rest);
    }
    let all = Seq::from_slice(alloc, vars)?;
    Ok(all)
}

/// The variables of a join's tables but one.
fn other_vars(alloc: Global, seeing: &Seeing) -> Result<Seq<Var>, AllocError>
    ensures { IfOk result (λ s. s ≡ leaving_out (place (spec_tables seeing.now.join.now) seeing.now.table) (map (var_of seeing.now.side seeing.now.stage) (spec_tables seeing.now.join.now))) }
{
    let vars = join_vars(alloc, seeing.side, seeing.stage, seeing.join)?;
    let others = others_of(alloc, vars.as_slice(), place_in(seeing.join, seeing.table))?;
    Ok(others)
}

impl<'a> Seeing<'a> {
    /// The literals of a case.
    fn lits(&self, alloc: Global, case: &[Cmp]) -> Result<Seq<Lit>, AllocError>
        ensures { IfOk result (λ s. s ≡ spec.case_in self.now.join.now (place (spec_tables self.now.join.now) self.now.table) self.now.var self.now.scope case.now) }
    {
        let place = number(place_in(self.join, self.table))?;
        let var = self.var;
        let scope = self.scope;
        let mut lits = join_lits(alloc, self.join)?;
        lits.append(&mut case_lits(alloc, self.join, case)?)?;
        let numbers = Numbering { place, var, scope };
        Ok(Seq::from_vec(renamed_lits(alloc, &numbers, lits.as_slice())?))
    }

    /// The body of a case.
    #[tactic(auto, using(crate::proofs::Others::leaving_map))]
    fn body(&self, alloc: Global, case: &[Cmp]) -> Result<Inner, AllocError>
        ensures { IfOk result (λ b. b ≡ spec.case_body self.now.side self.now.stage self.now.join.now self.now.table self.now.var self.now.scope case.now) }
    {
        let vars = other_vars(alloc, self)?;
        let lits = self.lits(alloc, case)?;
        Ok(Inner { vars, lits })
    }

    /// That a case's body is met, or that it is not.
    pub(crate) fn met(&self, alloc: Global, held: bool, case: &[Cmp]) -> Result<Lit, AllocError>
        ensures { IfOk result (λ l. l ≡ Any held (spec.case_body self.now.side self.now.stage self.now.join.now self.now.table self.now.var self.now.scope case.now)) }
    {
        let inner = self.body(alloc, case)?;
        Ok(Lit::Any { held, inner })
    }

    /// Puts at the end that none of these cases' bodies is met.
    pub(crate) fn push_unmet(
        &self,
        alloc: Global,
        cases: &[Seq<Cmp>],
        lits: &mut Seq<Lit>,
    ) -> Result<(), AllocError>
        ensures { OnOk result (lits.new ≡ lits.old ++ spec.unmet (spec.case_body self.now.side self.now.stage self.now.join.now self.now.table self.now.var self.now.scope) cases.now) }
    {
        for case in cases {
            lits.push(self.met(alloc, false, case.as_slice())?)?;
        }
        Ok(())
    }
}
