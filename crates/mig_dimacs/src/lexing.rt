// The bytes of a text as tokens.
ghost use Rattle.std.specs.Prelude.{◌≡◌, ℕ, ◌+◌, ◌<◌, ◌≤◌, ◌^◌, ◌∷◌, ◌++◌, [], List, OnOk, IfOk};
ghost use Rattle.mig_dimacs.specs.Words as spec;
ghost use Rattle.mig_dimacs.specs.Reading.{pieces_with};

use crate::token::{Piece, Spot, Token};
use crate::words::{is_blank, token_of};
use std::alloc::{AllocError, Global};

/// The tokens so far, the line, where the next byte stands in it, and the beginning of a word.
#[derive(Drop)]
pub struct Lexer {
    pieces: Vec<Piece>,
    line: u64,
    spot: Spot,
    word: Vec<u8>,
}

/// Whether a comment begins or goes on.
fn in_comment(spot: Spot, b: u8) -> bool
    ensures { result ≡ spec.in_comment spot b }
{
    match spot {
        Spot::Start => b == b'c',
        Spot::Inside => false,
        Spot::Comment => true,
    }
}

impl Lexer {
    /// Ends the word that has begun, if one has.
    fn end_word(&mut self) -> Result<(), AllocError>
        ensures pieces { OnOk result (self.new.pieces.items ≡ self.old.pieces.items ++ spec.ended self.old.line self.old.word.items) }
        ensures word { OnOk result (self.new.word.items ≡ []) }
        ensures line { self.new.line ≡ self.old.line }
        ensures spot { self.new.spot ≡ self.old.spot }
    {
        if !self.word.is_empty() {
            let token = token_of(self.word.as_slice());
            self.pieces.push(Piece {
                line: self.line,
                token,
            })?;
            self.word.clear();
        }
        Ok(())
    }

    /// Takes the next byte.
    fn take(&mut self, b: u8) -> Result<(), AllocError>
        requires room { self.old.line + 1 < 2 ^ 64 }
        ensures pieces { OnOk result ((rest : List ℕ) → pieces_with self.new rest ≡ pieces_with self.old (b ∷ rest)) }
        ensures line { OnOk result (self.new.line ≤ self.old.line + 1) }
    {
        if b == b'\n' {
            self.end_word()?;
            self.line += 1;
            self.spot = Spot::Start;
        } else if in_comment(self.spot, b) {
            self.word.clear();
            self.spot = Spot::Comment;
        } else if is_blank(b) {
            self.end_word()?;
            self.spot = Spot::Inside;
        } else {
            self.word.push(b)?;
            self.spot = Spot::Inside;
        }
        Ok(())
    }
}

/// All tokens of the bytes, and the end of the text.
pub(crate) fn pieces(alloc: Global, bytes: &[u8]) -> Result<Vec<Piece>, AllocError>
    ensures { IfOk result (λ v. v.items ≡ spec.pieces_of bytes.now) }
{
    let mut lexer = Lexer {
        pieces: Vec::new(alloc),
        line: 1,
        spot: Spot::Start,
        word: Vec::new(alloc),
    };
    for b in bytes {
        lexer.take(*b)?;
    }
    lexer.end_word()?;
    let Lexer {
        mut pieces,
        line,
        ..
    } = lexer;
    pieces.push(Piece {
        line,
        token: Token::End,
    })?;
    Ok(pieces)
}
