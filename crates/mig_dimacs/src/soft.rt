// From texts with weights to hard clauses and soft literals.
ghost use Rattle.std.specs.Prelude.{◌≡◌, ◌++◌, IfOk, IfErr, OnOk, true};
ghost use Rattle.std.specs.List.{flat_map};
ghost use Rattle.mig_dimacs.specs.Costs.{IsSoundWcnf};
ghost use Rattle.mig_dimacs.specs.Softs as spec;
ghost use Rattle.mig_dimacs.specs.Texts.{IsRefusal};
ghost use Rattle.mig_dimacs.specs.Words.{pieces_of};

use crate::fault::ReadError;
use crate::formulas::{lit_of, lits_of};
use crate::reading::read_text;
use crate::text::Text;
use crate::token::Number;
use mig_base::Seq;
use mig_sat::{Cnf, SatLit};
use std::alloc::{AllocError, Global};

/// A literal that may be false, and what that costs.
#[derive(Debug, Clone, Copy, PartialEq, Eq)]
pub struct SoftLit {
    pub lit: SatLit,
    pub weight: u64,
}

/// Clauses that a model must meet, and literals that it should make true.
#[derive(Debug, Drop)]
pub struct Wcnf {
    pub hard: Cnf,
    pub soft: Seq<SoftLit>,
}

/// Puts the clause without its weight behind the others, if it is hard.
fn put_hard(
    alloc: Global,
    hard: &mut Seq<Seq<SatLit>>,
    top: u64,
    clause: &[Number],
) -> Result<(), AllocError>
    ensures { OnOk result (hard.new ≡ hard.old ++ spec.hard_part top clause.now) }
{
    match clause {
        [weight, lits @ ..] if weight.size == top => hard.push(lits_of(alloc, lits)?),
        _ => Ok(()),
    }
}

/// The hard clauses among these.
fn hard_of(alloc: Global, top: u64, clauses: &[Seq<Number>]) -> Result<Seq<Seq<SatLit>>, AllocError>
    ensures { IfOk result (λ hard. hard ≡ flat_map (spec.hard_part top) clauses.now) }
{
    let mut hard = Seq::new(alloc);
    for clause in clauses {
        put_hard(alloc, &mut hard, top, clause.as_slice())?;
    }
    Ok(hard)
}

/// Puts a single literal with this weight behind the others.
fn put_lit(soft: &mut Seq<SoftLit>, weight: u64, lits: &[Number]) -> Result<(), AllocError>
    ensures { OnOk result (soft.new ≡ soft.old ++ spec.soft_lit weight lits.now) }
{
    match lits {
        [lit] => soft.push(SoftLit {
            lit: lit_of(*lit),
            weight,
        }),
        _ => Ok(()),
    }
}

/// Puts the literal of the clause and its weight behind the others, if it is soft.
fn put_soft(soft: &mut Seq<SoftLit>, top: u64, clause: &[Number]) -> Result<(), AllocError>
    ensures { OnOk result (soft.new ≡ soft.old ++ spec.soft_part top clause.now) }
{
    match clause {
        [weight, lits @ ..] if weight.size != top => put_lit(soft, weight.size, lits),
        _ => Ok(()),
    }
}

/// The soft literals among these clauses.
fn soft_of(alloc: Global, top: u64, clauses: &[Seq<Number>]) -> Result<Seq<SoftLit>, AllocError>
    ensures { IfOk result (λ soft. soft ≡ flat_map (spec.soft_part top) clauses.now) }
{
    let mut soft = Seq::new(alloc);
    for clause in clauses {
        put_soft(&mut soft, top, clause.as_slice())?;
    }
    Ok(soft)
}

/// The clauses of a text with weights.
fn wcnf_of(alloc: Global, text: &Text) -> Result<Wcnf, AllocError>
    ensures { IfOk result (λ w. w ≡ spec.wcnf_of text.now) }
{
    let top = text.head.top.unwrap_or(0);
    let clauses = hard_of(alloc, top, text.clauses.as_slice())?;
    let soft = soft_of(alloc, top, text.clauses.as_slice())?;
    let hard = Cnf {
        vars: text.head.vars,
        clauses,
    };
    Ok(Wcnf { hard, soft })
}

/// The clauses that the bytes spell: `p wcnf VARIABLES CLAUSES TOP`, and then each clause with its weight in front and a 0 behind it.
///
/// A clause that weighs as much as the top is hard. A soft one weighs less and has one literal, and soft ones must weigh less
/// than 2^62 together. `Refused` tells the line of the first token with which no such text goes on; the end of the bytes
/// counts as a token. Want of memory is `Memory`. `docs/SOLVERS.md` has the rules.
pub fn read_wcnf(alloc: Global, bytes: &[u8]) -> Result<Wcnf, ReadError>
    ensures found { IfOk result (λ w. spec.IsWcnfText bytes.now w) }
    ensures sound { IfOk result (λ w. IsSoundWcnf w) }
    ensures refused { IfErr result (IsRefusal true (pieces_of bytes.now)) }
{
    let text = read_text(alloc, true, bytes)?;
    Ok(wcnf_of(alloc, &text)?)
}
