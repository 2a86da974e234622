// Writes answers: the new program, the invariants and the certificate.
ghost use Rattle.std.specs.Prelude.{◌≡◌, ◌++◌, IfOk, OnOk, codes};
ghost use Rattle.std.specs.List.{flat_map};
ghost use Rattle.mig_printing.specs.Printing.{program_text};
ghost use Rattle.mig_answer.specs.AnswerText.{line, part, invariant_text, claim_text, entry_text, pair_text, answer_text};

use crate::print_invariants::put_invariants;
use crate::print_steps::put_steps;
use mig_algebra::Invariant;
use mig_base::{Seq, Txt};
use mig_certificate::{Certificate, Claim, Entry, PairProof};
use mig_printing::{put, put_number, put_program};
use mig_schema::{Job, Program};
use std::alloc::{AllocError, Global};

#[tactic(auto, unfolding(crate::specs::AnswerText::line))]
fn put_line(out: &mut Txt, text: &str) -> Result<(), AllocError>
    ensures { OnOk result (out.new ≡ out.old ++ line text.now) }
{
    put(out, text)?;
    put(out, "\n")
}

fn put_claim(out: &mut Txt, claim: Claim) -> Result<(), AllocError>
    ensures { OnOk result (out.new ≡ out.old ++ claim_text claim) }
{
    match claim {
        Claim::Holds(invariant) => {
            put(out, "holds ")?;
            put_number(out, invariant)?;
            put(out, "\n")
        }
        Claim::Answers => put_line(out, "answers"),
    }
}

fn put_entry(out: &mut Txt, entry: &Entry) -> Result<(), AllocError>
    ensures { OnOk result (out.new ≡ out.old ++ entry_text entry.now) }
{
    put_claim(out, entry.claim)?;
    put_line(out, "old")?;
    put_steps(out, entry.source.as_slice())?;
    put_line(out, "new")?;
    put_steps(out, entry.target.as_slice())
}

fn put_entries(out: &mut Txt, entries: &[Entry]) -> Result<(), AllocError>
    ensures { OnOk result (out.new ≡ out.old ++ flat_map entry_text entries.now) }
{
    for entry in entries {
        put_entry(out, entry)?;
    }
    Ok(())
}

fn put_pair(out: &mut Txt, pair: &PairProof) -> Result<(), AllocError>
    ensures { OnOk result (out.new ≡ out.old ++ pair_text pair.now) }
{
    put(out, "pair ")?;
    out.extend_from_slice(pair.name.as_slice())?;
    put(out, "\n")?;
    put_entries(out, pair.entries.as_slice())
}

fn put_pairs(out: &mut Txt, pairs: &[PairProof]) -> Result<(), AllocError>
    ensures { OnOk result (out.new ≡ out.old ++ flat_map pair_text pairs.now) }
{
    for pair in pairs {
        put_pair(out, pair)?;
    }
    Ok(())
}

#[tactic(auto, unfolding(crate::specs::AnswerText::part))]
fn put_program_part(out: &mut Txt, job: &Job, program: &Program) -> Result<(), AllocError>
    ensures { OnOk result (out.new ≡ out.old ++ part (codes "program") (program_text job.now.target program.now)) }
{
    put_line(out, "program")?;
    put_program(out, &job.target, program)
}

#[tactic(auto, unfolding(crate::specs::AnswerText::part))]
fn put_invariant_part(out: &mut Txt, job: &Job, invariants: &[Invariant]) -> Result<(), AllocError>
    ensures { OnOk result (out.new ≡ out.old ++ part (codes "invariants") (flat_map (invariant_text job.now) invariants.now)) }
{
    put_line(out, "invariants")?;
    put_invariants(out, job, invariants)
}

#[tactic(auto, unfolding(crate::specs::AnswerText::part))]
fn put_pair_part(out: &mut Txt, pairs: &[PairProof]) -> Result<(), AllocError>
    ensures { OnOk result (out.new ≡ out.old ++ part (codes "certificate") (flat_map pair_text pairs.now)) }
{
    put_line(out, "certificate")?;
    put_pairs(out, pairs)
}

/// The text of an answer to a job: the program, which stands over the new schema, the invariants and the certificate, in lines that each end with a line feed. A number that names nothing is written as nothing. Its only error is want of memory.
pub fn print_answer(
    alloc: Global,
    job: &Job,
    program: &Program,
    certificate: &Certificate,
) -> Result<Txt, AllocError>
    ensures { IfOk result (λ t. t ≡ answer_text job.now program.now certificate.now) }
{
    let mut out = Seq::new(alloc);
    put_line(&mut out, "answer 1")?;
    put_program_part(&mut out, job, program)?;
    put_invariant_part(&mut out, job, certificate.invariants.list.as_slice())?;
    put_pair_part(&mut out, certificate.pairs.as_slice())?;
    put_line(&mut out, "end")?;
    Ok(out)
}
