// Reading of programs alone.
ghost use Rattle.std.specs.Prelude.{◌≡◌, ℕ, ◌<◌, List, length, Ok, Err, ◌⊎◌, IfOk};
ghost use Rattle.mig_schema.specs.declared.limits.Limit.{Limit};
ghost use Rattle.mig_tokens.specs.declared.fault.Misread.TheVariants as Misread;
ghost use Rattle.mig_tokens.specs.Given.{Gives};
ghost use Rattle.mig_tokens.specs.Refused.{StandsWrong, StandsPast, IsPlacedAnswer};
ghost use Rattle.mig_grammar.specs.declared.tree.FunctionTree.{FunctionTree};
ghost use Rattle.mig_grammar.specs.ReadingJobs.{program_at};
ghost use Rattle.mig_grammar.specs.Spelling.{program_tokens};
ghost use Rattle.mig_grammar.specs.Shapes.{AreFunctions};
ghost use Rattle.mig_grammar.specs.Texts.{IsFunctionsText};

use crate::tree::{FunctionTree, Jobs};
use mig_base::Seq;
use mig_tokens::{Misread, ReadError, Token, after_end, many_of, placed, tokens_to_end};
use std::alloc::Global;

/// Functions, up to the end of the text.
#[tactic(auto, unfolding(crate::specs::ReadingJobs::program_at))]
fn functions_to_end(
    alloc: Global,
    tokens: &[Token],
) -> Result<(Seq<FunctionTree>, &[Token]), ReadError>
    ensures { Gives (λ x. (x.0, x.1.now)) result (program_at tokens.now) }
{
    let (functions, rest) = many_of::<Jobs, FunctionTree>(alloc, 0, 0, tokens)?;
    let rest = after_end(rest)?;
    Ok((functions, rest))
}

/// The functions that a text spells, as one fact.
fn answer_of(alloc: Global, bytes: &[u8]) -> Result<Seq<FunctionTree>, Misread>
    requires { length bytes.now < 2147483648 }
    ensures { IsPlacedAnswer program_tokens AreFunctions bytes.now result }
{
    let found = tokens_to_end(alloc, bytes)?;
    let all = found.as_slice();
    match functions_to_end(alloc, all) {
        Ok((functions, _)) => Ok(functions),
        Err(e) => Err(placed(alloc, bytes, all, e)),
    }
}

/// The functions that a program's text spells, with their names and numbers as they are written.
///
/// The text is `function*` in the grammar of `docs/LANGUAGE.md`. The errors are those of `read_tree`, and come likewise.
/// The bytes are fewer than 2^31.
pub fn read_functions(alloc: Global, bytes: &[u8]) -> Result<Seq<FunctionTree>, Misread>
    requires { length bytes.now < 2147483648 }
    ensures found { IfOk result (λ fs. IsFunctionsText bytes.now fs) }
    ensures only { (fs : List FunctionTree) → IsFunctionsText bytes.now fs → (result ≡ Ok fs) ⊎ (result ≡ Err Misread.Memory) }
    ensures wrong { (line column : ℕ) → result ≡ Err (Misread.At line column) → StandsWrong program_tokens AreFunctions bytes.now line column }
    ensures only_wrong { (line column : ℕ) → StandsWrong program_tokens AreFunctions bytes.now line column → (result ≡ Err (Misread.At line column)) ⊎ (result ≡ Err Misread.Memory) }
    ensures past { (which : Limit) (line : ℕ) → result ≡ Err (Misread.Limit which line) → StandsPast program_tokens AreFunctions which bytes.now line }
    ensures only_past { (which : Limit) (line : ℕ) → StandsPast program_tokens AreFunctions which bytes.now line → (result ≡ Err (Misread.Limit which line)) ⊎ (result ≡ Err Misread.Memory) }
{
    answer_of(alloc, bytes)
}
