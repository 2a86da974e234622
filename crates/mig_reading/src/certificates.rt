// Reading of whole certificates.
ghost use Rattle.std.specs.Prelude.{◌≡◌, ◌⊎◌, ℕ, Ok, Err, IfOk};
ghost use Rattle.mig_schema.specs.declared.limits.Limit.{Limit};
ghost use Rattle.mig_tokens.specs.declared.fault.ReadError.TheVariants as error;
ghost use Rattle.mig_tokens.specs.Given.{Gives};
ghost use Rattle.mig_reading.specs.declared.tree.CertificateTree.{CertificateTree};
ghost use Rattle.mig_reading.specs.ReadingPairs.{last_lines_at, later_lines_at, certificate_at};
ghost use Rattle.mig_reading.specs.Texts.{IsCertificateText, IsWrongPiece, IsPastPiece, IsPieceAnswer};

use crate::cutting::pieces_to_end;
use crate::entries::pairs_of;
use crate::facts::facts_of;
use crate::tree::{CertificateTree, FactTree};
use mig_base::Seq;
use mig_tokens::{ReadError, Token, after_end, after_sign, after_word};
use std::alloc::Global;

/// Pairs and the last line, up to the end of the text.
#[tactic(auto, unfolding(crate::specs::ReadingPairs::last_lines_at))]
fn last_lines(
    alloc: Global,
    invariants: Seq<FactTree>,
    tokens: &[Token],
) -> Result<(CertificateTree, &[Token]), ReadError>
    ensures { Gives (λ x. (x.0, x.1.now)) result (last_lines_at invariants tokens.now) }
{
    let (pairs, rest) = pairs_of(alloc, tokens)?;
    let rest = after_word("end", None, rest)?;
    let rest = after_sign("\n", rest)?;
    let rest = after_end(rest)?;
    Ok((CertificateTree { invariants, pairs }, rest))
}

/// The lines behind the invariants, up to the end of the text.
#[tactic(auto, unfolding(crate::specs::ReadingPairs::later_lines_at))]
fn later_lines(
    alloc: Global,
    invariants: Seq<FactTree>,
    tokens: &[Token],
) -> Result<(CertificateTree, &[Token]), ReadError>
    ensures { Gives (λ x. (x.0, x.1.now)) result (later_lines_at invariants tokens.now) }
{
    let rest = after_word("certificate", None, tokens)?;
    let rest = after_sign("\n", rest)?;
    last_lines(alloc, invariants, rest)
}

/// A whole certificate, up to the end of the text.
#[tactic(auto, unfolding(crate::specs::ReadingPairs::certificate_at))]
fn certificate_to_end(
    alloc: Global,
    tokens: &[Token],
) -> Result<(CertificateTree, &[Token]), ReadError>
    ensures { Gives (λ x. (x.0, x.1.now)) result (certificate_at tokens.now) }
{
    let rest = after_word("invariants", None, tokens)?;
    let rest = after_sign("\n", rest)?;
    let (invariants, rest) = facts_of(alloc, rest)?;
    later_lines(alloc, invariants, rest)
}

/// The certificate that the bytes spell, as one fact.
fn tree_of(alloc: Global, bytes: &[u8]) -> Result<CertificateTree, ReadError>
    ensures { IsPieceAnswer bytes.now result }
{
    let pieces = pieces_to_end(alloc, bytes)?;
    match certificate_to_end(alloc, pieces.as_slice()) {
        Ok((tree, _)) => Ok(tree),
        Err(e) => Err(e),
    }
}

/// The certificate that the lines of an answer from `invariants` on spell, with its names as they are written.
///
/// The lines stand in `docs/CERTIFICATES.md`. Layout counts: each certificate has one spelling. `At` comes at the first piece
/// that no certificate has behind the pieces before it, `Limit` at the first piece that passes a limit, where it could go
/// on; each tells how many pieces are left there, this one and the end of the text included. Pieces are the longest runs of
/// letters, digits and underscores, and each other byte alone. Want of memory may come instead.
pub fn read_certificate(alloc: Global, bytes: &[u8]) -> Result<CertificateTree, ReadError>
    ensures found { IfOk result (λ c. IsCertificateText bytes.now c) }
    ensures only { (c : CertificateTree) → IsCertificateText bytes.now c → (result ≡ Ok c) ⊎ (result ≡ Err error.Memory) }
    ensures wrong { (left : ℕ) → result ≡ Err (error.At left) → IsWrongPiece bytes.now left }
    ensures only_wrong { (left : ℕ) → IsWrongPiece bytes.now left → (result ≡ Err (error.At left)) ⊎ (result ≡ Err error.Memory) }
    ensures past { (which : Limit) (left : ℕ) → result ≡ Err (error.Limit which left) → IsPastPiece which bytes.now left }
    ensures only_past { (which : Limit) (left : ℕ) → IsPastPiece which bytes.now left → (result ≡ Err (error.Limit which left)) ⊎ (result ≡ Err error.Memory) }
{
    tree_of(alloc, bytes)
}
