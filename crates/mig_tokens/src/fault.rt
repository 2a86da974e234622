// Why a text is not read.
ghost use Rattle.std.specs.Prelude.{◌≡◌};
ghost use Rattle.mig_tokens.specs.declared.fault.ReadError.TheVariants.{Memory};
ghost use Rattle.mig_tokens.specs.declared.fault.Misread.TheVariants as misread;

use mig_schema::Limit;
use std::alloc::{AllocError, AllocFailed};

/// Why tokens are not read. Places are counted from the end: a token stands where so many tokens are left, itself and the end of the text included.
#[derive(Clone, Copy, Debug, PartialEq, Eq)]
pub enum ReadError {
    /// Memory ran out.
    Memory,
    /// The first wrong token stands here: no text of the grammar that is read has the tokens before it and itself.
    At { left: usize },
    /// The first token that passes a limit stands here, and all tokens before it can go on.
    Limit { which: Limit, left: usize },
}

impl From<AllocError> for ReadError {
    ghost from_gives = { λ _ e. e ≡ Memory };

    fn from(_e: AllocError) -> ReadError {
        ReadError::Memory
    }
}

impl<T: Drop> From<AllocFailed<T>> for ReadError {
    ghost from_gives = { λ _ e. e ≡ Memory };

    fn from(_e: AllocFailed<T>) -> ReadError {
        ReadError::Memory
    }
}

/// Why a text is not read. Lines and columns count from 1, columns in bytes.
#[derive(Clone, Copy, Debug, PartialEq, Eq)]
pub enum Misread {
    /// Memory ran out.
    Memory,
    /// The first wrong token stands here, or the end of the text where all tokens could go on.
    At { line: u32, column: u32 },
    /// The first token that passes a limit stands in this line, and all tokens before it can go on.
    Limit { which: Limit, line: u32 },
}

impl From<AllocError> for Misread {
    ghost from_gives = { λ _ e. e ≡ misread.Memory };

    fn from(_e: AllocError) -> Misread {
        Misread::Memory
    }
}
