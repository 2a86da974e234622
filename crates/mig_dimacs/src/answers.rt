// The text of an answer.
ghost use Rattle.std.specs.Prelude.{◌≡◌, ◌++◌, IfOk, IfErr, OnOk, false};
ghost use Rattle.mig_sat.specs.Models.{IsInRange};
ghost use Rattle.mig_dimacs.specs.Answers as spec;
ghost use Rattle.mig_dimacs.specs.Texts.{IsRefusal};
ghost use Rattle.mig_dimacs.specs.Words.{pieces_of};

use crate::fault::ReadError;
use crate::formulas::read_cnf;
use itoa::Buffer;
use mig_base::{Seq, Txt};
use mig_sat::{Cnf, Model, solve};
use std::alloc::{AllocError, Global};

/// Appends a text as it is.
pub(crate) fn put(out: &mut Txt, text: &str) -> Result<(), AllocError>
    ensures { OnOk result (out.new ≡ out.old ++ text.now) }
{
    out.extend_from_slice(text.as_bytes())
}

/// Appends the literal of the variable of this number that is true.
fn put_value(out: &mut Txt, number: u64, value: bool) -> Result<(), AllocError>
    ensures { OnOk result (out.new ≡ out.old ++ spec.value_text number value) }
{
    if value {
        put(out, " ")?;
    } else {
        put(out, " -")?;
    }
    put(out, Buffer::new().format(number))
}

/// Appends the line of a model.
pub(crate) fn put_model(out: &mut Txt, values: &[bool]) -> Result<(), AllocError>
    ensures { OnOk result (out.new ≡ out.old ++ spec.model_text values.now) }
{
    put(out, "v")?;
    for i in 0..values.len() {
        put_value(out, i as u64 + 1, values[i])?;
    }
    put(out, " 0\n")
}

/// The answer for a model, or for none.
pub(crate) fn answer_text(alloc: Global, found: &Option<Model>) -> Result<Txt, AllocError>
    ensures { IfOk result (λ t. t ≡ spec.answer_text found.now) }
{
    let mut out = Seq::new(alloc);
    match found {
        Some(model) => {
            put(&mut out, "s SATISFIABLE\n")?;
            put_model(&mut out, model.values.as_slice())?;
        }
        None => put(&mut out, "s UNSATISFIABLE\n")?,
    }
    Ok(out)
}

/// The answer for clauses, in two lines or one: `s SATISFIABLE`, and behind `v` the true literals of the first model and a 0; or `s UNSATISFIABLE`.
///
/// The variable of each literal must be below `vars`. The only error is want of memory.
pub fn sat_answer(alloc: Global, cnf: &Cnf) -> Result<Txt, AllocError>
    requires { IsInRange cnf.now }
    ensures { IfOk result (spec.IsAnswer cnf.now) }
{
    let found = solve(alloc, cnf)?;
    let text = answer_text(alloc, &found)?;
    Ok(text)
}

/// The answer for the clauses that the bytes spell. `read_cnf` says when they are refused, and `sat_answer` what the answer is.
pub fn answer_cnf(alloc: Global, bytes: &[u8]) -> Result<Txt, ReadError>
    ensures answer { IfOk result (spec.IsAnswerTo bytes.now) }
    ensures refused { IfErr result (IsRefusal false (pieces_of bytes.now)) }
{
    let cnf = read_cnf(alloc, bytes)?;
    let text = sat_answer(alloc, &cnf)?;
    Ok(text)
}
