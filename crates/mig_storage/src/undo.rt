// How changes are taken back.
use mig_meaning::Row;

/// What takes a change back.
#[derive(Debug, Drop)]
pub(crate) enum Undo {
    /// The last slot of this table was added.
    Added { table: u32 },
    /// This row stood in this slot.
    Changed { table: u32, place: usize, row: Row },
}
