// Reading of texts: from the bytes to the header and the clauses.
ghost use Rattle.std.specs.Prelude.{◌≡◌, IfOk, IfErr};
ghost use Rattle.mig_dimacs.specs.Texts.{Spells, IsRefusal};
ghost use Rattle.mig_dimacs.specs.Words.{pieces_of};

use crate::fault::ReadError;
use crate::lexing::pieces;
use crate::reader::Reader;
use crate::text::Text;
use crate::token::Piece;
use std::alloc::Global;

/// The text that these tokens spell.
fn read_pieces(alloc: Global, weighted: bool, pieces: &[Piece]) -> Result<Text, ReadError>
    ensures found { IfOk result (λ t. Spells weighted pieces.now t) }
    ensures refused { IfErr result (IsRefusal weighted pieces.now) }
{
    let mut reader = Reader::new(alloc, weighted);
    for piece in pieces {
        if !reader.take(alloc, piece.token)? {
            return Err(ReadError::Refused { line: piece.line });
        }
    }
    match reader.into_text() {
        Some(text) => Ok(text),
        None => Err(ReadError::Memory),
    }
}

/// The text that the bytes spell, with weights or without.
///
/// `Refused` tells the line of the first token with which no text goes on; the end of the text counts as a token.
/// Want of memory is `Memory`. `docs/SOLVERS.md` has the rules.
pub fn read_text(alloc: Global, weighted: bool, bytes: &[u8]) -> Result<Text, ReadError>
    ensures found { IfOk result (λ t. Spells weighted (pieces_of bytes.now) t) }
    ensures refused { IfErr result (IsRefusal weighted (pieces_of bytes.now)) }
{
    let pieces = pieces(alloc, bytes)?;
    read_pieces(alloc, weighted, pieces.as_slice())
}
