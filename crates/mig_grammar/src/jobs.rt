// Reading of whole jobs.
ghost use Rattle.std.specs.Prelude.{◌≡◌, ℕ, ◌<◌, length, Ok, Err, ◌⊎◌, IfOk};
ghost use Rattle.mig_schema.specs.declared.limits.Limit.{Limit};
ghost use Rattle.mig_tokens.specs.declared.fault.Misread.TheVariants as Misread;
ghost use Rattle.mig_tokens.specs.Given.{Gives};
ghost use Rattle.mig_tokens.specs.Refused.{StandsWrong, StandsPast, IsPlacedAnswer};
ghost use Rattle.mig_grammar.specs.declared.tree.JobTree.{JobTree};
ghost use Rattle.mig_grammar.specs.ReadingJobs.{job_at};
ghost use Rattle.mig_grammar.specs.Spelling.{job_tokens};
ghost use Rattle.mig_grammar.specs.Shapes.{IsJobTree};
ghost use Rattle.mig_grammar.specs.Texts.{IsTreeText};

use crate::hints::hints_of;
use crate::schemas::schema_of;
use crate::tree::{FunctionTree, JobTree, Jobs};
use mig_tokens::{
    Misread, ReadError, Token, after_end, after_word, many_of, placed, tokens_to_end,
};
use std::alloc::Global;

/// A whole job, up to the end of the text.
#[tactic(auto, unfolding(crate::specs::ReadingJobs::job_at))]
fn job_of(alloc: Global, tokens: &[Token]) -> Result<(JobTree, &[Token]), ReadError>
    ensures { Gives (λ x. (x.0, x.1.now)) result (job_at tokens.now) }
{
    let rest = after_word("old", None, tokens)?;
    let (source, rest) = schema_of(alloc, rest)?;
    let rest = after_word("new", None, rest)?;
    let (target, rest) = schema_of(alloc, rest)?;
    let rest = after_word("program", None, rest)?;
    let (functions, rest) = many_of::<Jobs, FunctionTree>(alloc, 0, 0, rest)?;
    let (hints, rest) = hints_of(alloc, rest)?;
    let rest = after_end(rest)?;
    Ok((
        JobTree {
            source,
            target,
            functions,
            hints,
        },
        rest,
    ))
}

/// The job that a text spells, as one fact.
fn answer_of(alloc: Global, bytes: &[u8]) -> Result<JobTree, Misread>
    requires { length bytes.now < 2147483648 }
    ensures { IsPlacedAnswer job_tokens IsJobTree bytes.now result }
{
    let found = tokens_to_end(alloc, bytes)?;
    let all = found.as_slice();
    match job_of(alloc, all) {
        Ok((job, _)) => Ok(job),
        Err(e) => Err(placed(alloc, bytes, all, e)),
    }
}

/// The job that a text spells, with its names and numbers as they are written.
///
/// The grammar and the limits stand in `docs/LANGUAGE.md`. `At` comes at the first token that no text of that grammar has
/// behind the tokens before it, or at the end of the bytes where all tokens could go on; its line and column count from 1,
/// columns in bytes. `Limit` comes with the line of the first token that passes a limit, where it could go on. The
/// earlier token decides, and at one token `At` comes first. Names may be unknown, or stand twice. Want of memory may come
/// instead. The bytes are fewer than 2^31.
pub fn read_tree(alloc: Global, bytes: &[u8]) -> Result<JobTree, Misread>
    requires { length bytes.now < 2147483648 }
    ensures found { IfOk result (λ t. IsTreeText bytes.now t) }
    ensures only { (t : JobTree) → IsTreeText bytes.now t → (result ≡ Ok t) ⊎ (result ≡ Err Misread.Memory) }
    ensures wrong { (line column : ℕ) → result ≡ Err (Misread.At line column) → StandsWrong job_tokens IsJobTree bytes.now line column }
    ensures only_wrong { (line column : ℕ) → StandsWrong job_tokens IsJobTree bytes.now line column → (result ≡ Err (Misread.At line column)) ⊎ (result ≡ Err Misread.Memory) }
    ensures past { (which : Limit) (line : ℕ) → result ≡ Err (Misread.Limit which line) → StandsPast job_tokens IsJobTree which bytes.now line }
    ensures only_past { (which : Limit) (line : ℕ) → StandsPast job_tokens IsJobTree which bytes.now line → (result ≡ Err (Misread.Limit which line)) ⊎ (result ≡ Err Misread.Memory) }
{
    answer_of(alloc, bytes)
}
