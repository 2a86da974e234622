// The text of an answer for clauses with weights.
ghost use Rattle.std.specs.Prelude.{◌≡◌, ◌<◌, ◌^◌, length, All, IfOk, IfErr, true};
ghost use Rattle.mig_dimacs.specs.Costs.{IsSoundWcnf, total};
ghost use Rattle.mig_dimacs.specs.Optimum as spec;
ghost use Rattle.mig_dimacs.specs.Texts.{IsRefusal};
ghost use Rattle.mig_dimacs.specs.Words.{pieces_of};
ghost use Rattle.mig_dimacs.specs.declared.soft.SoftLit.{SoftLit as Soft};

use crate::answers::{answer_text, put, put_model};
use crate::costs::{cheapest, cost};
use crate::fault::ReadError;
use crate::soft::{Wcnf, read_wcnf};
use itoa::Buffer;
use mig_base::{Seq, Txt};
use std::alloc::{AllocError, Global};

/// What the values cost, and their line.
fn optimum_text(alloc: Global, problem: &Wcnf, values: &[bool]) -> Result<Txt, AllocError>
    requires range { All (λ (s : Soft). s.lit.var < length values.now) problem.now.soft }
    requires fits { total problem.now.soft < 2 ^ 62 }
    ensures { IfOk result (λ t. t ≡ spec.optimum_text problem.now values.now) }
{
    let mut out = Seq::new(alloc);
    put(&mut out, "o ")?;
    let cost = cost(problem.soft.as_slice(), values);
    put(&mut out, Buffer::new().format(cost))?;
    put(&mut out, "\ns OPTIMUM FOUND\n")?;
    put_model(&mut out, values)?;
    Ok(out)
}

/// The answer for clauses with weights: behind `o` what the first of the cheapest models costs, `s OPTIMUM FOUND`, and behind
/// `v` its true literals and a 0; or `s UNSATISFIABLE`. `cheapest` says what that is and asks for.
///
/// The only error is want of memory.
pub fn wcnf_answer(alloc: Global, problem: &Wcnf) -> Result<Txt, AllocError>
    requires { IsSoundWcnf problem.now }
    ensures { IfOk result (spec.IsOptimum problem.now) }
{
    match cheapest(alloc, problem)? {
        Some(model) => optimum_text(alloc, problem, model.values.as_slice()),
        None => answer_text(alloc, &None),
    }
}

/// The answer for the clauses with weights that the bytes spell. `read_wcnf` says when they are refused, and `wcnf_answer`
/// what the answer is.
pub fn answer_wcnf(alloc: Global, bytes: &[u8]) -> Result<Txt, ReadError>
    ensures answer { IfOk result (spec.IsOptimumOf bytes.now) }
    ensures refused { IfErr result (IsRefusal true (pieces_of bytes.now)) }
{
    let problem = read_wcnf(alloc, bytes)?;
    let text = wcnf_answer(alloc, &problem)?;
    Ok(text)
}
