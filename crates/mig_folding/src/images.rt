// Columns of variables that are named for an old view's tables: which are said by its outputs, and which columns of the new view those are.
ghost use Rattle.std.specs.Prelude.{◌≡◌, ◌+◌, List, length, slice_index_or};
ghost use Rattle.std.specs.List.{list_all};
ghost use Rattle.mig_schema.specs.Joins.{tables_of};
ghost use Rattle.mig_meaning.specs.Lists.{place, has};
ghost use Rattle.mig_folding.specs.Folding as spec;
ghost use Rattle.mig_folding.specs.Writing as writing;

use mig_algebra::{Atom, Lit, View};
use mig_schema::{ColId, Join, Op};
use mig_steps::{Naming, lit_passes};
use mig_typing::in_one_class;

/// The place of a number, or how many there are where it is not there.
pub(crate) fn place_of(numbers: &[u32], n: u32) -> usize
    ensures { result ≡ place numbers.now n }
{
    for (i, m) in numbers.iter().enumerate() {
        if *m == n {
            return i;
        }
    }
    numbers.len()
}

/// Whether a number is there.
pub(crate) fn is_there(numbers: &[u32], n: u32) -> bool
    ensures { result ≡ has numbers.now n }
{
    numbers.iter().any(|m| *m == n)
}

/// The table of a number in a join.
fn table_at(join: &Join, i: usize) -> u32
    ensures { result ≡ slice_index_or (tables_of join.now) i 0 }
{
    if i == 0 {
        return join.first;
    }
    match join.more.as_slice().get(i - 1) {
        Some(joined) => joined.table,
        None => 0,
    }
}

/// The column of the new view for the first output in a column's class.
pub(crate) fn image_of(join: &Join, outs: &[ColId], images: &[ColId], column: ColId) -> ColId
    ensures { result ≡ spec.image_of join.now outs.now images.now column }
{
    match outs {
        [] => column,
        [out, outs @ ..] => match images {
            [] => column,
            [image, images @ ..] => if in_one_class(join, column, *out) {
                *image
            } else {
                image_of(join, outs, images, column)
            },
        },
    }
}

/// The numbers of variables that are named for an old view's tables, in order.
#[derive(Drop)]
pub(crate) struct Named<'a> {
    pub numbers: &'a [u32],
    pub source: &'a View,
}

impl<'a> Named<'a> {
    /// The column of the old view's join that a column of a named variable is.
    pub(crate) fn old_column(&self, var: u32, column: u32) -> ColId
        ensures { result ≡ spec.old_column (writing.named_now self.now) var column }
    {
        ColId {
            table: table_at(&self.source.join, place_of(self.numbers, var)),
            column,
        }
    }

    /// Whether a literal equates two columns of named variables that are in one class of the old view's join.
    pub(crate) fn is_inner(&self, lit: &Lit) -> bool
        ensures { result ≡ spec.is_inner (writing.named_now self.now) lit.now }
    {
        match lit {
            Lit::Cmp {
                op: Op::Eq,
                left: Atom::Col { var: v, column: c },
                right: Atom::Col { var: w, column: d },
            } => is_there(self.numbers, *v)
                && is_there(self.numbers, *w)
                && in_one_class(
                    &self.source.join,
                    self.old_column(*v, *c),
                    self.old_column(*w, *d),
                ),
            _ => false,
        }
    }

    /// Whether the class of a column holds an output.
    fn has_output(&self, column: ColId) -> bool
        ensures { result ≡ spec.has_output (writing.named_now self.now) column }
    {
        let join = &self.source.join;
        self.source
            .outs
            .as_slice()
            .iter()
            .any(|out| in_one_class(join, column, *out))
    }
}

impl<'a> Naming for Named<'a> {
    ghost atom_passes = { λ w a. spec.atom_folds (writing.named_now w) a };

    ghost id_passes = { λ w v. spec.id_folds (writing.named_now w) v };

    fn passes(&self, atom: &Atom) -> bool {
        match atom {
            Atom::Int(_) | Atom::Text(_) | Atom::Param(_) | Atom::Fresh(_) => true,
            Atom::Col { var, column } => !is_there(self.numbers, *var)
                || self.has_output(self.old_column(*var, *column)),
        }
    }

    fn passes_id(&self, var: u32) -> bool {
        !is_there(self.numbers, var)
    }
}

/// Whether all that literals but the inner ones say of named variables can be said of the view's outputs.
pub(crate) fn lits_fold(named: &Named, lits: &[Lit]) -> bool
    ensures { result ≡ spec.lits_fold (writing.named_now named.now) lits.now }
{
    for lit in lits {
        if !named.is_inner(lit) && !lit_passes(named, lit) {
            return false;
        }
    }
    true
}
