// A host unfolded by an insert: the rows that were there, and the row that is added.
ghost use Rattle.std.specs.Prelude.{◌≡◌, ◌<◌, ◌∷◌, [], IfOk, length};
ghost use Rattle.mig_algebra.specs.Rename as rename;
ghost use Rattle.mig_unfolding.specs.Hosts as hosts;
ghost use Rattle.mig_unfolding.specs.Unfolding as spec;

use crate::hosts::{before_statement, below};
use mig_algebra::{Atom, Renaming, Term, renamed_atoms, renamed_lits};
use mig_base::{Exact, Seq};
use mig_obligations::{list_of, scalar_atom};
use mig_schema::{Assign, ColId, Join, Joined, leader, same_col};
use mig_steps::leaving_out;
use std::alloc::{AllocError, Global};

/// What an insert writes in place of a variable that stands for the row it adds to a table.
#[derive(Drop)]
pub(crate) struct Adding<'a> {
    /// The variable's number among all in scope, and among the host's own.
    pub var: u32,
    pub at: u32,
    pub table: u32,
    pub join: &'a Join,
    pub values: &'a [Assign],
}

/// The value of a column's class; a number where there is none.
fn class_atom(
    alloc: Global,
    joined: &[Joined],
    values: &[Assign],
    column: ColId,
) -> Result<Atom, AllocError>
    ensures { IfOk result (λ a. a ≡ spec.class_atom joined.now values.now column) }
{
    match values {
        [] => Ok(Atom::Int(0)),
        [first, rest @ ..] => if same_col(leader(joined, first.column), leader(joined, column)) {
            scalar_atom(alloc, &first.value)
        } else {
            class_atom(alloc, joined, rest, column)
        },
    }
}

impl<'a> Renaming for Adding<'a> {
    ghost use Rattle.mig_schema.specs.declared.tables.ColId.{ColId as AColumn};

    ghost atom_for = { λ w a. rename.without w.var (λ c. spec.class_atom w.join.now.more w.values.now (record { table = w.table; column = c })) a };

    ghost id_for = { λ w v. rename.below w.var v };

    fn atom(&self, alloc: Global, atom: &Atom) -> Result<Atom, AllocError> {
        match atom {
            Atom::Int(i) => Ok(Atom::Int(*i)),
            Atom::Text(t) => Ok(Atom::Text(t.twin(alloc)?)),
            Atom::Param(p) => Ok(Atom::Param(*p)),
            Atom::Fresh(n) => Ok(Atom::Fresh(*n)),
            Atom::Col { var, column } => if *var == self.var {
                let table = self.table;
                let column = *column;
                let joined = self.join.more.as_slice();
                class_atom(alloc, joined, self.values, ColId { table, column })
            } else {
                Ok(Atom::Col {
                    var: below(self.var, *var),
                    column: *column,
                })
            },
        }
    }

    fn id(&self, var: u32) -> Result<u32, AllocError> {
        Ok(below(self.var, var))
    }
}

/// The host without the variable, each of whose columns is what is written.
fn host_without(alloc: Global, adding: &Adding, host: &Term) -> Result<Term, AllocError>
    requires { adding.now.at < length host.now.vars }
    ensures { IfOk result (λ t. t ≡ hosts.host_without adding.now.var adding.now.at (λ c. spec.class_atom adding.now.join.now.more adding.now.values.now (record { table = adding.now.table; column = c })) host.now) }
{
    let vars = leaving_out(alloc, host.vars.as_slice(), adding.at as usize)?;
    let lits = Seq::from_vec(renamed_lits(alloc, adding, host.lits.as_slice())?);
    let head = Seq::from_vec(renamed_atoms(alloc, adding, host.head.as_slice())?);
    Ok(Term { vars, lits, head })
}

/// The hosts for the rows that were there, and for the row that is added, of the host as it is narrowed.
pub(crate) fn inserted(
    alloc: Global,
    adding: &Adding,
    host: &Term,
    narrowed: &Term,
) -> Result<Seq<Term>, AllocError>
    requires { adding.now.at < length narrowed.now.vars }
    ensures { IfOk result (λ s. s ≡ hosts.before_statement adding.now.at host.now ∷ (hosts.host_without adding.now.var adding.now.at (λ c. spec.class_atom adding.now.join.now.more adding.now.values.now (record { table = adding.now.table; column = c })) narrowed.now ∷ [])) }
{
    let before = before_statement(alloc, host, adding.at as usize)?;
    let added = host_without(alloc, adding, narrowed)?;
    Ok(list_of(alloc, [before, added])?)
}
