// The lines on words and on files.
ghost use Rattle.std.specs.Prelude.{◌≡◌, ◌≢◌, ◌++◌, IfOk, OnOk};
ghost use Rattle.mig_words.specs.declared.command.WordFault.TheVariants as word;
ghost use Rattle.mig_syntax.specs.declared.fault.TextFault.TheVariants as text;
ghost use Rattle.mig_messages.specs.Lines as spec;

use crate::names::{limit_name, put_rule};
use mig_base::{Seq, Txt, Word};
use mig_printing::{put, put_number};
use mig_schema::{Limit, TypeFault};
use mig_syntax::TextFault;
use mig_words::WordFault;
use std::alloc::{AllocError, Global};

/// The line on want of memory.
pub fn no_memory() -> &'static str
    ensures { result.now ≡ spec.no_memory }
{
    "out of memory\n"
}

/// The line on a command whose work is not there yet.
pub fn unbuilt_words() -> &'static str
    ensures { result.now ≡ spec.unbuilt_words }
{
    "words: not built\n"
}

/// Appends what is wrong with words, and a number.
pub(crate) fn put_numbered(out: &mut Txt, text: &str, number: u32) -> Result<(), AllocError>
    ensures { OnOk result (out.new ≡ out.old ++ spec.numbered text.now number) }
{
    put(out, text)?;
    put_number(out, number)
}

/// Appends what is wrong with words; want of memory is handed on.
fn put_word_fault(out: &mut Txt, fault: WordFault) -> Result<(), AllocError>
    ensures { OnOk result ((fault ≢ word.Memory) × (out.new ≡ out.old ++ spec.word_fault fault)) }
{
    match fault {
        WordFault::Memory => Err(AllocError),
        WordFault::NoCommand => put(out, "no command"),
        WordFault::UnknownWord { at } => put_numbered(out, "unknown word ", at),
        WordFault::Missing => put(out, "missing"),
        WordFault::Twice { at } => put_numbered(out, "twice at ", at),
        WordFault::Number { at } => put_numbered(out, "number at ", at),
    }
}

/// The line on words that are no command.
pub fn words_line(alloc: Global, fault: WordFault) -> Result<Txt, AllocError>
    ensures { IfOk result (λ t. (fault ≢ word.Memory) × (t ≡ spec.refused_words fault)) }
{
    let mut out = Seq::from_slice(alloc, b"words: ")?;
    put_word_fault(&mut out, fault)?;
    put(&mut out, "\n")?;
    Ok(out)
}

/// The file's name, and what is said of it.
pub(crate) fn line_of(alloc: Global, file: &Word, text: &str) -> Result<Txt, AllocError>
    ensures { IfOk result (λ t. t ≡ file.now ++ text.now) }
{
    let mut line = Seq::from_slice(alloc, file.as_slice())?;
    put(&mut line, text)?;
    Ok(line)
}

/// The line on a file that could not be read.
pub fn cannot_read(alloc: Global, file: &Word) -> Result<Txt, AllocError>
    ensures { IfOk result (λ t. t ≡ spec.cannot_read file.now) }
{
    line_of(alloc, file, ": cannot read\n")
}

/// The line on a file that is longer than so many bytes.
pub fn too_long(alloc: Global, file: &Word, cap: u32) -> Result<Txt, AllocError>
    ensures { IfOk result (λ t. t ≡ spec.too_long file.now cap) }
{
    let mut out = line_of(alloc, file, ": longer than ")?;
    put_number(&mut out, cap)?;
    put(&mut out, " bytes\n")?;
    Ok(out)
}

/// Appends a colon and a number.
fn put_place(out: &mut Txt, number: u32) -> Result<(), AllocError>
    ensures { OnOk result (out.new ≡ out.old ++ spec.place number) }
{
    put(out, ":")?;
    put_number(out, number)
}

/// The line on the first wrong token.
fn not_expected(alloc: Global, file: &Word, line: u32, column: u32) -> Result<Txt, AllocError>
    ensures { IfOk result (λ t. t ≡ spec.not_expected file.now line column) }
{
    let mut out = Seq::from_slice(alloc, file.as_slice())?;
    put_place(&mut out, line)?;
    put_place(&mut out, column)?;
    put(&mut out, ": not expected\n")?;
    Ok(out)
}

/// The line on a limit that is passed.
pub(crate) fn past_limit(
    alloc: Global,
    file: &Word,
    line: u32,
    which: Limit,
) -> Result<Txt, AllocError>
    ensures { IfOk result (λ t. t ≡ spec.past_limit file.now line which) }
{
    let mut out = Seq::from_slice(alloc, file.as_slice())?;
    put_place(&mut out, line)?;
    put(&mut out, ": limit ")?;
    put(&mut out, limit_name(which))?;
    put(&mut out, "\n")?;
    Ok(out)
}

/// The line on a broken typing rule.
fn broken_rule(alloc: Global, file: &Word, fault: TypeFault) -> Result<Txt, AllocError>
    ensures { IfOk result (λ t. t ≡ spec.broken_rule file.now fault) }
{
    let mut out = Seq::from_slice(alloc, file.as_slice())?;
    put(&mut out, ": ")?;
    put_rule(&mut out, fault)?;
    put(&mut out, "\n")?;
    Ok(out)
}

/// The line on a fault of a text; want of memory is handed on.
pub fn fault_line(alloc: Global, file: &Word, fault: TextFault) -> Result<Txt, AllocError>
    ensures { IfOk result (λ t. (fault ≢ text.Memory) × (t ≡ spec.fault_line file.now fault)) }
{
    match fault {
        TextFault::Memory => Err(AllocError),
        TextFault::At { line, column } => not_expected(alloc, file, line, column),
        TextFault::Limit { which, line } => past_limit(alloc, file, line, which),
        TextFault::Typing(fault) => broken_rule(alloc, file, fault),
    }
}
