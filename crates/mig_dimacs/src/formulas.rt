// From texts to clauses.
ghost use Rattle.std.specs.Prelude.{◌≡◌, IfOk, IfErr, false};
ghost use Rattle.mig_sat.specs.Models.{IsInRange};
ghost use Rattle.mig_dimacs.specs.Formulas as spec;
ghost use Rattle.mig_dimacs.specs.Texts.{IsRefusal};
ghost use Rattle.mig_dimacs.specs.Words.{pieces_of};

use crate::fault::ReadError;
use crate::reading::read_text;
use crate::text::Text;
use crate::token::Number;
use mig_base::Seq;
use mig_sat::{Cnf, SatLit};
use std::alloc::{AllocError, Global};

/// The literal that a number is.
pub(crate) fn lit_of(number: Number) -> SatLit
    ensures { result ≡ spec.lit_of number }
{
    let var = number.size.saturating_sub(1).min(4_294_967_295);
    SatLit {
        var: var as u32,
        positive: !number.negative,
    }
}

/// The literals that numbers are.
pub(crate) fn lits_of(alloc: Global, numbers: &[Number]) -> Result<Seq<SatLit>, AllocError>
    ensures { IfOk result (λ lits. lits ≡ spec.lits_of numbers.now) }
{
    let mut lits = Vec::new(alloc);
    for number in numbers {
        lits.push(lit_of(*number))?;
    }
    Ok(Seq::from_vec(lits))
}

/// The clauses of a text without weights.
fn cnf_of(alloc: Global, text: &Text) -> Result<Cnf, AllocError>
    ensures { IfOk result (λ cnf. cnf ≡ spec.cnf_of text.now) }
{
    let mut clauses = Vec::new(alloc);
    for clause in text.clauses.as_slice() {
        clauses.push(lits_of(alloc, clause.as_slice())?)?;
    }
    Ok(Cnf {
        vars: text.head.vars,
        clauses: Seq::from_vec(clauses),
    })
}

/// The clauses that the bytes spell: `p cnf VARIABLES CLAUSES`, and then each clause with a 0 behind it.
///
/// `Refused` tells the line of the first token with which no such text goes on; the end of the bytes counts as a token.
/// Want of memory is `Memory`. `docs/SOLVERS.md` has the rules.
pub fn read_cnf(alloc: Global, bytes: &[u8]) -> Result<Cnf, ReadError>
    ensures found { IfOk result (λ cnf. spec.IsCnfText bytes.now cnf) }
    ensures range { IfOk result (λ cnf. IsInRange cnf) }
    ensures refused { IfErr result (IsRefusal false (pieces_of bytes.now)) }
{
    let text = read_text(alloc, false, bytes)?;
    Ok(cnf_of(alloc, &text)?)
}
