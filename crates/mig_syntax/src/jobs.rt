// Reading of jobs: from the bytes to the job with its numbers, tested by all rules and limits.
ghost use Rattle.std.specs.Prelude.{◌≡◌, ℕ, ◌<◌, length, Ok, Err, ◌⊎◌, IfOk};
ghost use Rattle.mig_schema.specs.declared.faults.TypeFault.{TypeFault};
ghost use Rattle.mig_schema.specs.declared.jobs.Job.{Job};
ghost use Rattle.mig_schema.specs.Typed.{IsTyped};
ghost use Rattle.mig_schema.specs.declared.limits.Limit.{Limit};
ghost use Rattle.mig_schema.specs.declared.limits.Limit.TheVariants as limit;
ghost use Rattle.mig_tokens.specs.Refused.{StandsWrong, StandsPast};
ghost use Rattle.mig_grammar.specs.Spelling.{job_tokens};
ghost use Rattle.mig_grammar.specs.Shapes.{IsJobTree};
ghost use Rattle.mig_syntax.specs.declared.fault.TextFault.TheVariants as fault;
ghost use Rattle.mig_syntax.specs.Job.{IsJobText, IsTypedJobText, IsMistypedJobText, HasManyPairs, IsJobAnswer};
ghost use Rattle.mig_syntax.specs.Named.{IsTypedAnswer};
ghost use Rattle.mig_syntax.specs.Naming.{job_of};
ghost use Rattle.mig_schema.specs.Within.{IsProgramWithin};
ghost use Rattle.mig_syntax.specs.TypingFault.{IsTypingFault};

use crate::fault::TextFault;
use crate::naming::job_of_tree;
use crate::pairs::has_many_pairs;
use crate::typing::check_job;
use mig_grammar::read_tree;
use mig_schema::{Job, Limit};
use std::alloc::Global;

/// The job that the bytes spell, where it is typed, as one fact.
fn typed_job(alloc: Global, bytes: &[u8]) -> Result<Job, TextFault>
    requires { length bytes.now < 2147483648 }
    ensures { IsTypedAnswer job_tokens IsJobTree job_of IsTyped IsTypingFault bytes.now result }
{
    let tree = read_tree(alloc, bytes)?;
    let job = job_of_tree(alloc, &tree)?;
    check_job(alloc, &job)?;
    Ok(job)
}

/// The job that the bytes spell, where it is typed and has few pairs, as one fact.
fn job_with_pairs(alloc: Global, bytes: &[u8]) -> Result<Job, TextFault>
    requires { length bytes.now < 2147483648 }
    ensures { IsJobAnswer bytes.now result }
{
    let job = typed_job(alloc, bytes)?;
    if has_many_pairs(&job) {
        return Err(TextFault::Limit {
            which: Limit::Pairs,
            line: 0,
        });
    }
    Ok(job)
}

/// The job that the bytes of a text spell, typed and within all limits.
///
/// The grammar, the typing rules and the limits stand in `docs/LANGUAGE.md`. `At` comes at the first token that no text of
/// the grammar has behind the tokens before it, or at the end of the bytes where all tokens could go on; its line and
/// column count from 1, columns in bytes. `Limit` comes with the line of the first token that passes a limit, where it
/// could go on. The earlier token decides, and at one token `At` comes first. A whole text is then tested by the typing
/// rules: `Typing` tells the first that is broken, by the old schema, the new one, the program and the hints. At last
/// `Limit` of `Pairs` comes, in line 0, where more than 256 pairs of an old and a new column have one kind. `Memory` may
/// come in place of any answer. The bytes are fewer than 2^31. The time is linear in the bytes.
pub fn read_job(alloc: Global, bytes: &[u8]) -> Result<Job, TextFault>
    requires { length bytes.now < 2147483648 }
    ensures found { IfOk result (λ job. IsTypedJobText bytes.now job) }
    ensures only { (job : Job) → IsTypedJobText bytes.now job → (result ≡ Ok job) ⊎ (result ≡ Err fault.Memory) }
    ensures wrong { (line column : ℕ) → result ≡ Err (fault.At line column) → StandsWrong job_tokens IsJobTree bytes.now line column }
    ensures only_wrong { (line column : ℕ) → StandsWrong job_tokens IsJobTree bytes.now line column → (result ≡ Err (fault.At line column)) ⊎ (result ≡ Err fault.Memory) }
    ensures past { (which : Limit) (line : ℕ) → 0 < line → result ≡ Err (fault.Limit which line) → StandsPast job_tokens IsJobTree which bytes.now line }
    ensures only_past { (which : Limit) (line : ℕ) → StandsPast job_tokens IsJobTree which bytes.now line → (result ≡ Err (fault.Limit which line)) ⊎ (result ≡ Err fault.Memory) }
    ensures typing { (f : TypeFault) → result ≡ Err (fault.Typing f) → IsMistypedJobText bytes.now f }
    ensures only_typing { (f : TypeFault) → IsMistypedJobText bytes.now f → (result ≡ Err (fault.Typing f)) ⊎ (result ≡ Err fault.Memory) }
    ensures pairs { (which : Limit) → result ≡ Err (fault.Limit which 0) → (which ≡ limit.Pairs) × HasManyPairs bytes.now }
    ensures only_pairs { HasManyPairs bytes.now → (result ≡ Err (fault.Limit limit.Pairs 0)) ⊎ (result ≡ Err fault.Memory) }
    ensures within { (job : Job) → IsJobText bytes.now job → IsProgramWithin job.program }
{
    job_with_pairs(alloc, bytes)
}
