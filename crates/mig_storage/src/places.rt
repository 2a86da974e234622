// Where the row of an id stands.
ghost use Rattle.std.specs.Prelude.{◌≡◌, ℕ, ◌<◌, ◌≤◌, false, length, slice_index_or, IfSome, IfNone};
ghost use Rattle.mig_storage.specs.Changes.{has_id};
ghost use Rattle.mig_storage.specs.Order.{SlotsRise};
ghost use Rattle.mig_storage.specs.Places.{IsPlaceOf};
ghost use Rattle.mig_storage.specs.Slots.{no_slot, rows_in};

use crate::slots::Slot;
use mig_meaning::Row;

/// How many slots stand before an id.
fn slots_before(slots: &[Slot], id: u64) -> usize
    requires { SlotsRise slots.now }
    ensures lower { (k : ℕ) → k < result → (slice_index_or slots.now k no_slot).id < id }
    ensures upper { result < length slots.now → id ≤ (slice_index_or slots.now result no_slot).id }
{
    slots.partition_point(|slot| slot.id < id)
}

/// The place of the slot that has the row of this id, and the row; `None` where no slot has a row of it. It halves the
/// slots again and again, as their ids rise.
pub(crate) fn place_of(slots: &[Slot], id: u64) -> Option<(usize, &Row)>
    requires { SlotsRise slots.now }
    ensures found { IfSome result (λ f. IsPlaceOf slots.now id f.0 f.1.now) }
    ensures none { IfNone result (has_id id (rows_in slots.now) ≡ false) }
{
    let place = slots_before(slots, id);
    let slot = slots.get(place)?;
    let row = slot.row.as_ref()?;
    if slot.id == id {
        Some((place, row))
    } else {
        None
    }
}
