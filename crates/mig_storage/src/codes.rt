// Numbers for values, by which indexes find them.
ghost use Rattle.std.specs.Prelude.{◌≡◌};
ghost use Rattle.std.specs.Option.{option_map};
ghost use Rattle.mig_storage.specs.Index as spec;

use mig_meaning::Row;
use mig_schema::Value;

/// A number for a text. Equal texts have one number.
fn text_code(text: &[u8]) -> u64
    ensures { result ≡ spec.text_code text.now }
{
    let mut code: u64 = 0;
    for byte in text {
        code = code.wrapping_mul(31).wrapping_add(u64::from(*byte));
    }
    code
}

/// A number for a value. Equal values have one number; others may share it.
pub(crate) fn code_of(value: &Value) -> u64
    ensures { result ≡ spec.code_of value.now }
{
    match value {
        Value::Int(int) => int.unsigned_abs(),
        Value::Text(text) => text_code(text.as_slice()),
        Value::Key(key) => *key,
    }
}

/// The number for the value in a column. A column past the end of the row counts as the int 0.
#[tactic(auto, using(std::proofs::lemmas::Grind::common_steps, std::proofs::lemmas::Option::gets))]
fn code_in(row: &Row, column: u32) -> u64
    ensures { result ≡ spec.code_in column row.now }
{
    match row.values.get(column as usize) {
        Some(value) => code_of(value),
        None => 0,
    }
}

/// The number for the value in a column, if there is a row.
pub(crate) fn code_held(row: &Option<Row>, column: u32) -> Option<u64>
    ensures { result ≡ option_map (spec.code_in column) row.now }
{
    match row {
        Some(row) => Some(code_in(row, column)),
        None => None,
    }
}
