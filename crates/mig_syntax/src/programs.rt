// Reading of programs over a schema.
ghost use Rattle.std.specs.Prelude.{◌≡◌, ℕ, ◌<◌, length, Ok, Err, ◌⊎◌, IfOk};
ghost use Rattle.mig_schema.specs.declared.faults.TypeFault.{TypeFault};
ghost use Rattle.mig_schema.specs.declared.programs.Program.{Program};
ghost use Rattle.mig_schema.specs.declared.limits.Limit.{Limit};
ghost use Rattle.mig_tokens.specs.Refused.{StandsWrong, StandsPast};
ghost use Rattle.mig_grammar.specs.Spelling.{program_tokens};
ghost use Rattle.mig_grammar.specs.Shapes.{AreFunctions};
ghost use Rattle.mig_printing.specs.Printing.{program_text};
ghost use Rattle.mig_syntax.specs.declared.fault.TextFault.TheVariants as fault;
ghost use Rattle.mig_syntax.specs.Printable.{IsPrintable};
ghost use Rattle.mig_syntax.specs.Program.{IsTypedProgramText, IsMistypedProgramText, IsProgramText, IsProgramAnswer};
ghost use Rattle.mig_schema.specs.Within.{IsProgramWithin};

use crate::fault::TextFault;
use crate::naming::program_of;
use mig_grammar::read_functions;
use mig_schema::{Program, Schema};
use mig_typing::check_program;
use std::alloc::Global;

/// The program that the bytes spell, where it is typed, as one fact.
fn answer_of(alloc: Global, schema: &Schema, bytes: &[u8]) -> Result<Program, TextFault>
    requires { length bytes.now < 2147483648 }
    ensures { IsProgramAnswer schema.now bytes.now result }
{
    let functions = read_functions(alloc, bytes)?;
    let program = program_of(alloc, schema.tables.as_slice(), functions.as_slice())?;
    check_program(alloc, schema, &program)?;
    Ok(program)
}

/// The program over a schema that the bytes of a text spell, typed and within all limits.
///
/// The text is `function*` in the grammar of `docs/LANGUAGE.md`. `At` and `Limit` come where `read_job` has them; `Typing`
/// tells the first rule for programs that is broken. The schema may be any. What `print_program` writes of a typed program
/// within the limits, over a typed schema whose names are names of the grammar, is read as the same program. `Memory` may
/// come in place of any answer. The bytes are fewer than 2^31.
pub fn read_program(alloc: Global, schema: &Schema, bytes: &[u8]) -> Result<Program, TextFault>
    requires { length bytes.now < 2147483648 }
    ensures found { IfOk result (λ p. IsTypedProgramText schema.now bytes.now p) }
    ensures only { (p : Program) → IsTypedProgramText schema.now bytes.now p → (result ≡ Ok p) ⊎ (result ≡ Err fault.Memory) }
    ensures wrong { (line column : ℕ) → result ≡ Err (fault.At line column) → StandsWrong program_tokens AreFunctions bytes.now line column }
    ensures only_wrong { (line column : ℕ) → StandsWrong program_tokens AreFunctions bytes.now line column → (result ≡ Err (fault.At line column)) ⊎ (result ≡ Err fault.Memory) }
    ensures past { (which : Limit) (line : ℕ) → result ≡ Err (fault.Limit which line) → StandsPast program_tokens AreFunctions which bytes.now line }
    ensures only_past { (which : Limit) (line : ℕ) → StandsPast program_tokens AreFunctions which bytes.now line → (result ≡ Err (fault.Limit which line)) ⊎ (result ≡ Err fault.Memory) }
    ensures typing { (f : TypeFault) → result ≡ Err (fault.Typing f) → IsMistypedProgramText schema.now bytes.now f }
    ensures only_typing { (f : TypeFault) → IsMistypedProgramText schema.now bytes.now f → (result ≡ Err (fault.Typing f)) ⊎ (result ≡ Err fault.Memory) }
    ensures printed { (p : Program) → IsPrintable schema.now p → bytes.now ≡ program_text schema.now p → (result ≡ Ok p) ⊎ (result ≡ Err fault.Memory) }
    ensures within { (p : Program) → IsProgramText schema.now bytes.now p → IsProgramWithin p }
{
    answer_of(alloc, schema, bytes)
}
