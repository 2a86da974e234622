// Answers as bags of rows.
ghost use Rattle.std.specs.Prelude.{◌≡◌, ◌==◌, ◌↔◌, IsTrue};
ghost use Rattle.std.specs.List.{list_all};
ghost use Rattle.mig_meaning.specs.declared.states.Row.{Row};
ghost use Rattle.mig_meaning.specs.Bags as spec;
ghost use Rattle.mig_meaning.specs.Bags.{SameBag};
ghost use Rattle.mig_meaning.specs.Told.{rows_told};

use crate::calling::Answer;
use crate::states::Row;
use mig_base::Exact;

/// Whether two rows have the same values.
fn row_eq(left: &Row, right: &Row) -> bool
    ensures { result ≡ spec.row_eq left.now.values right.now.values }
{
    left.same(right)
}

/// How often a row stands among these.
fn times(row: &Row, rows: &[Row]) -> usize
    ensures { result ≡ spec.times row.now.values (rows_told rows.now) }
{
    rows.iter().filter(|r| row_eq(row, r)).count()
}

/// Whether each of these rows stands as often on one side as on the other.
fn all_as_often(rows: &[Row], left: &[Row], right: &[Row]) -> bool
    ensures { result ≡ list_all (λ (r : Row). spec.times r.values (rows_told left.now) == spec.times r.values (rows_told right.now)) rows.now }
{
    rows.iter().all(|r| times(r, left) == times(r, right))
}

/// Whether each row stands equally often in both answers. It takes no memory, and its time grows with the square of the number of rows.
pub fn same_bag(left: &Answer, right: &Answer) -> bool
    ensures { IsTrue result ↔ SameBag (rows_told left.now.rows) (rows_told right.now.rows) }
{
    let l = left.rows.as_slice();
    let r = right.rows.as_slice();
    all_as_often(l, l, r) && all_as_often(r, l, r)
}
