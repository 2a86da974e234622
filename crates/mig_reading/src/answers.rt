// Reading of answers.
ghost use Rattle.std.specs.Prelude.{◌≡◌, ◌⊎◌, ℕ, ◌+◌, ◌<◌, ◌≤◌, List, true, ◌++◌, length, Ok, Err, IfOk, IfSome, IsSome};
ghost use Rattle.mig_schema.specs.declared.programs.Program.{Program};
ghost use Rattle.mig_certificate.specs.declared.proofs.Certificate.{Certificate};
ghost use Rattle.mig_printing.specs.Printing.{program_text};
ghost use Rattle.mig_syntax.specs.declared.fault.TextFault.TheVariants as fault;
ghost use Rattle.mig_syntax.specs.Program.{IsTypedProgramText};
ghost use Rattle.mig_tokens.specs.declared.fault.ReadError.TheVariants as read;
ghost use Rattle.mig_reading.specs.declared.tree.CertificateTree.{CertificateTree};
ghost use Rattle.mig_reading.specs.IsAnswer as spec;
ghost use Rattle.mig_reading.specs.Texts.{IsCertificateText};

use crate::certificates::read_certificate;
use crate::cutting::pieces_to_end;
use crate::naming::certificate_of;
use crate::places::{line_at, pieces_len, two_lines_on, unlike, wrong_at};
use crate::tree::CertificateTree;
use mig_certificate::Certificate;
use mig_printing::print_program;
use mig_schema::{Job, Program, Schema};
use mig_syntax::{TextFault, read_program};
use mig_tokens::ReadError;
use std::alloc::{AllocError, Global};

/// The two lines with which an answer begins.
const OPENING: &str = "answer 1\nprogram\n";

/// How many bytes stand before the first line that begins with an `i`.
fn program_len(bytes: &[u8]) -> usize
    ensures value { result ≡ spec.program_len true bytes.now }
    ensures within { result ≤ length bytes.now }
{
    let mut begins = true;
    for (i, b) in bytes.iter().enumerate() {
        if begins && *b == b'i' {
            return i;
        }
        begins = *b == b'\n';
    }
    bytes.len()
}

/// The program that its lines spell in its one spelling, typed. Places count from its first line.
fn program_in(alloc: Global, schema: &Schema, lines: &[u8]) -> Result<Program, TextFault>
    requires { length lines.now < 2147483648 }
    ensures spelling { IfOk result (λ p. lines.now ≡ program_text schema.now p) }
    ensures found { IfOk result (λ p. IsTypedProgramText schema.now lines.now p) }
    ensures only { (p : Program) → lines.now ≡ program_text schema.now p → IsTypedProgramText schema.now lines.now p → (result ≡ Ok p) ⊎ (result ≡ Err fault.Memory) }
{
    let program = read_program(alloc, schema, lines)?;
    let text = print_program(alloc, schema, &program)?;
    if text.as_slice() == lines {
        Ok(program)
    } else {
        Err(unlike(lines, text.as_slice()))
    }
}

/// A fault in the lines of a certificate, which end these bytes, as one of the bytes.
fn fault_in(
    alloc: Global,
    bytes: &[u8],
    lines: &[u8],
    error: ReadError,
) -> Result<TextFault, AllocError>
    requires { length bytes.now < 2147483648 }
    ensures { error ≡ read.Memory → IfOk result (λ f. f ≡ fault.Memory) }
{
    let pieces = pieces_to_end(alloc, lines)?;
    let before = bytes.len().saturating_sub(lines.len());
    match error {
        ReadError::Memory => Ok(TextFault::Memory),
        ReadError::At { left } => {
            let count = pieces.len().saturating_sub(left);
            let at = before.saturating_add(pieces_len(&pieces.as_slice()[..count]));
            Ok(wrong_at(bytes, at))
        }
        ReadError::Limit { which, left } => {
            let count = pieces.len().saturating_sub(left);
            let at = before.saturating_add(pieces_len(&pieces.as_slice()[..count]));
            Ok(TextFault::Limit {
                which,
                line: line_at(bytes, at),
            })
        }
    }
}

/// A fault in the lines of a certificate, which end these bytes, as one of the bytes.
fn placed(alloc: Global, bytes: &[u8], lines: &[u8], error: ReadError) -> TextFault
    requires { length bytes.now < 2147483648 }
    ensures { error ≡ read.Memory → result ≡ fault.Memory }
{
    match fault_in(alloc, bytes, lines, error) {
        Ok(found) => found,
        Err(_) => TextFault::Memory,
    }
}

/// The certificate that its lines spell, where they end these bytes.
fn certificate_in(alloc: Global, bytes: &[u8], lines: &[u8]) -> Result<CertificateTree, TextFault>
    requires { length bytes.now < 2147483648 }
    ensures found { IfOk result (λ c. IsCertificateText lines.now c) }
    ensures only { (c : CertificateTree) → IsCertificateText lines.now c → (result ≡ Ok c) ⊎ (result ≡ Err fault.Memory) }
{
    match read_certificate(alloc, lines) {
        Ok(tree) => Ok(tree),
        Err(e) => Err(placed(alloc, bytes, lines, e)),
    }
}

/// The certificate of its lines, with numbers in place of names.
fn numbered_in(
    alloc: Global,
    job: &Job,
    bytes: &[u8],
    lines: &[u8],
) -> Result<Certificate, TextFault>
    requires { length bytes.now < 2147483648 }
    ensures found { IfOk result (λ c. spec.IsNumbered job.now lines.now c) }
    ensures only { (c : Certificate) → spec.IsNumbered job.now lines.now c → (result ≡ Ok c) ⊎ (result ≡ Err fault.Memory) }
{
    let tree = certificate_in(alloc, bytes, lines)?;
    Ok(certificate_of(alloc, job, tree)?)
}

/// The program and the certificate of the lines behind the first two, which end these bytes.
fn lines_of(
    alloc: Global,
    job: &Job,
    bytes: &[u8],
    lines: &[u8],
) -> Result<(Program, Certificate), TextFault>
    requires all { length bytes.now < 2147483648 }
    requires part { length lines.now < 2147483648 }
    ensures found { IfOk result (λ r. spec.AreLines job.now lines.now r.0 r.1) }
    ensures only { (p : Program) → (c : Certificate) → spec.AreLines job.now lines.now p c → (result ≡ Ok (p, c)) ⊎ (result ≡ Err fault.Memory) }
{
    let (front, back) = lines.split_at(program_len(lines));
    match program_in(alloc, &job.target, front) {
        Ok(program) => match numbered_in(alloc, job, bytes, back) {
            Ok(certificate) => Ok((program, certificate)),
            Err(e) => Err(e),
        },
        Err(TextFault::Typing(rule)) => {
            certificate_in(alloc, bytes, back)?;
            Err(TextFault::Typing(rule))
        }
        Err(e) => Err(two_lines_on(e)),
    }
}

/// What follows the first two lines, where they are those of an answer.
fn after_opening(bytes: &[u8]) -> Option<&[u8]>
    ensures some { IfSome result (λ lines. bytes.now ≡ spec.opening ++ lines.now) }
    ensures none { (lines : List ℕ) → bytes.now ≡ spec.opening ++ lines → IsSome result }
{
    let (front, lines) = bytes.split_at(bytes.len().min(OPENING.len()));
    if front == OPENING.as_bytes() {
        Some(lines)
    } else {
        None
    }
}

/// The program and the certificate that the bytes of an answer are, over a job.
///
/// The text stands in `docs/CERTIFICATES.md`. An answer has one spelling: layout counts. The program stands over the job's new
/// schema, and is typed and within the limits. The names of invariants stand over the schemas of their sides; one that its
/// schema doesn't have is read as the number 4,294,967,295. Any other text is refused: `At` tells a line and column, `Limit` a
/// limit and its line, `Typing` the first rule for programs that is broken. The program is read first, in any layout, and then
/// compared with its one spelling; so its typing and its limits are told before its layout, and all of it before the lines
/// behind it. Which fault is told is not promised by a clause, nor its place. Want of memory may come in place of any answer.
/// The bytes are fewer than 2^31.
pub fn read_answer(
    alloc: Global,
    job: &Job,
    bytes: &[u8],
) -> Result<(Program, Certificate), TextFault>
    requires { length bytes.now < 2147483648 }
    ensures found { IfOk result (λ r. spec.IsAnswer job.now bytes.now r.0 r.1) }
    ensures only { (p : Program) → (c : Certificate) → spec.IsAnswer job.now bytes.now p c → (result ≡ Ok (p, c)) ⊎ (result ≡ Err fault.Memory) }
{
    match after_opening(bytes) {
        Some(lines) => lines_of(alloc, job, bytes, lines),
        None => Err(unlike(bytes, OPENING.as_bytes())),
    }
}
