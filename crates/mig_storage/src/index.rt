// An index of a column: in which slots of a table the rows have which value.
ghost use Rattle.std.specs.Prelude.{◌≡◌, ℕ, ◌+◌, ◌++◌, ◌∷◌, [], ◌==◌, List, cond, filter, IfOk, OnOk};
ghost use Rattle.std.specs.BTreeSet.{contains};
ghost use Rattle.std.specs.Option.{option_map};
ghost use Rattle.mig_meaning.specs.declared.states.Placed.{Placed as PlacedRow};
ghost use Rattle.mig_meaning.specs.Rows.{value_at};
ghost use Rattle.mig_meaning.specs.Values as spec;
ghost use Rattle.mig_storage.specs.declared.slots.Slot.{Slot as AnySlot};
ghost use Rattle.mig_storage.specs.Index.{IsIndex, ChangesAt, entry_cmp, is_code};
ghost use Rattle.mig_storage.specs.Slots.{rows_in};

use crate::codes::{code_held, code_of};
use crate::slots::Slot;
use crate::values::has_value;
use mig_base::{Exact, Seq};
use mig_meaning::{Placed, Row};
use mig_schema::Value;
use std::alloc::{AllocError, Global};
use std::collections::BTreeSet;

/// Puts a copy of the row in a slot behind the others, if there is one and its column has the value.
fn push_matching(
    alloc: Global,
    rows: &mut Seq<Placed>,
    slot: &Slot,
    column: u32,
    value: &Value,
) -> Result<(), AllocError>
    ensures { OnOk result (rows.new ≡ rows.old ++ filter (λ (p : PlacedRow). spec.value_eq (value_at p column) value.now) (rows_in (slot.now ∷ []))) }
{
    if let Some(row) = &slot.row {
        if has_value(row, column, value) {
            let row = row.twin(alloc)?;
            rows.push(Placed { id: slot.id, row })?;
        }
    }
    Ok(())
}

/// The places of a column's values, by numbers for them.
#[derive(Drop)]
pub(crate) struct Index {
    pub(crate) column: u32,
    places: BTreeSet<(u64, usize)>,
}

impl Index {
    /// The index of a column over these slots.
    pub(crate) fn of(alloc: Global, slots: &[Slot], column: u32) -> Result<Index, AllocError>
        ensures column { IfOk result (λ x. x.column ≡ column) }
        ensures right { IfOk result (λ x. IsIndex slots.now x) }
    {
        let mut index = Index {
            column,
            places: BTreeSet::new(alloc),
        };
        for place in 0..slots.len() {
            let code = code_held(&slots[place].row, column);
            index.note(place, None, code)?;
        }
        Ok(index)
    }

    /// Puts a place under another number, or none, where it stood under this one. On want of memory it may stand under
    /// neither.
    fn note(&mut self, place: usize, old: Option<u64>, new: Option<u64>) -> Result<(), AllocError>
        requires { (code : ℕ) → contains entry_cmp self.old.places (code, place) ≡ is_code old code }
        ensures column { self.new.column ≡ self.old.column }
        ensures ok { OnOk result ((code p : ℕ) → contains entry_cmp self.new.places (code, p) ≡ cond (p == place) (is_code new code) (contains entry_cmp self.old.places (code, p))) }
    {
        if old == new {
            return Ok(());
        }
        if let Some(code) = old {
            self.places.remove(&(code, place));
        }
        if let Some(code) = new {
            self.places.insert((code, place))?;
        }
        Ok(())
    }

    /// Follows a change of the row at a place. These are the slots before the change. On want of memory the index is
    /// of no use any more.
    pub(crate) fn follow(
        &mut self,
        slots: &[Slot],
        place: usize,
        row: &Option<Row>,
    ) -> Result<(), AllocError>
        requires { IsIndex slots.now self.old }
        ensures column { self.new.column ≡ self.old.column }
        ensures ok { OnOk result ((after : List AnySlot) → ChangesAt place row.now slots.now after → IsIndex after self.new) }
    {
        let old = match slots.get(place) {
            Some(slot) => code_held(&slot.row, self.column),
            None => None,
        };
        let new = code_held(row, self.column);
        self.note(place, old, new)
    }

    /// A copy of each row in these slots whose column has the value.
    pub(crate) fn matching(
        &self,
        alloc: Global,
        slots: &[Slot],
        value: &Value,
    ) -> Result<Seq<Placed>, AllocError>
        requires { IsIndex slots.now self.now }
        ensures { IfOk result (λ rows. rows ≡ filter (λ (p : PlacedRow). spec.value_eq (value_at p self.now.column) value.now) (rows_in slots.now)) }
    {
        let code = code_of(value);
        let mut rows = Seq::new(alloc);
        for entry in self.places.range((code, 0)..(code, slots.len())) {
            if let Some(slot) = slots.get(entry.1) {
                push_matching(alloc, &mut rows, slot, self.column, value)?;
            }
        }
        Ok(rows)
    }
}
