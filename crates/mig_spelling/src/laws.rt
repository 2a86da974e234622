// Laws of spelled programs. Each is the contract of a function that does nothing.
ghost use Rattle.std.specs.Prelude.{◌≡◌, ℕ, true, List};
ghost use Rattle.std.specs.List.{list_all};
ghost use Rattle.mig_schema.specs.declared.jobs.Job.{Job};
ghost use Rattle.mig_schema.specs.declared.programs.Program.{Program};
ghost use Rattle.mig_sketch.specs.Completed.{IsCompletion, has_columns};
ghost use Rattle.mig_spelling.specs.Spellable.{function_spelled};
ghost use Rattle.mig_syntax.specs.Job.{IsJobText};

/// The grammar spells each function of a job that a text spells.
pub fn job_texts_are_spelled()
    ensures { (bytes : List ℕ) (job : Job) → IsJobText bytes job → list_all function_spelled job.program.functions ≡ true }
{}

/// It spells each function of a completion of a job whose functions it spells.
pub fn completions_are_spelled()
    ensures { (job : Job) (program : Program) → list_all function_spelled job.program.functions ≡ true → IsCompletion job program → list_all function_spelled program.functions ≡ true }
{}

/// Each table of a job that a text spells has a column.
pub fn job_texts_have_columns()
    ensures { (bytes : List ℕ) (job : Job) → IsJobText bytes job → has_columns job.target ≡ true }
{}
