// Why a text is no job, or no program.
ghost use Rattle.std.specs.Prelude.{◌≡◌};
ghost use Rattle.mig_syntax.specs.declared.fault.TextFault.TheVariants as text;
ghost use Rattle.mig_syntax.specs.Faults.{text_fault, type_fault};

use mig_schema::{Limit, TypeFault};
use mig_tokens::Misread;
use std::alloc::AllocError;

/// Why a text is not a job or a program that is within the limits and typed. Lines and columns count from 1, columns in bytes.
#[derive(Clone, Copy, Debug, PartialEq, Eq)]
pub enum TextFault {
    /// Memory ran out.
    Memory,
    /// The first wrong token stands here, or the end of the text where all tokens could go on.
    At { line: u32, column: u32 },
    /// The first token that passes a limit stands in this line. The limit for pairs of columns stands in line 0.
    Limit { which: Limit, line: u32 },
    /// The first broken typing rule; never want of memory.
    Typing(TypeFault),
}

impl From<AllocError> for TextFault {
    ghost from_gives = { λ _ e. e ≡ text.Memory };

    fn from(_e: AllocError) -> TextFault {
        TextFault::Memory
    }
}

impl From<Misread> for TextFault {
    ghost from_gives = { λ m e. e ≡ text_fault m };

    fn from(misread: Misread) -> TextFault {
        match misread {
            Misread::Memory => TextFault::Memory,
            Misread::At { line, column } => TextFault::At { line, column },
            Misread::Limit { which, line } => TextFault::Limit { which, line },
        }
    }
}

impl From<TypeFault> for TextFault {
    ghost from_gives = { λ t e. e ≡ type_fault t };

    fn from(fault: TypeFault) -> TextFault {
        match fault {
            TypeFault::Memory => TextFault::Memory,
            other => TextFault::Typing(other),
        }
    }
}
