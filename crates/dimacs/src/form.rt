// Which form the clauses have, and their answer.
ghost use Rattle.std.specs.Prelude.{◌≡◌, IfOk, IfErr, true, false};
ghost use Rattle.mig_dimacs.specs.Answers.{IsAnswerTo};
ghost use Rattle.mig_dimacs.specs.Optimum.{IsOptimumOf};
ghost use Rattle.mig_dimacs.specs.Texts.{IsRefusal};
ghost use Rattle.mig_dimacs.specs.Words.{pieces_of};
ghost use Rattle.dimacs.specs.declared.form.Form.TheVariants as at;

use mig_base::Txt;
use mig_dimacs::{ReadError, answer_cnf, answer_wcnf};
use std::alloc::Global;
use std::rt::Runtime;
use std::{env, io};

/// The form of the clauses.
#[derive(Clone, Copy)]
pub enum Form {
    Cnf,
    Wcnf,
}

/// The form that the only word behind the program's name tells.
pub fn form_of<R: Runtime + Alloc<A = Global>>(rt: &R) -> io::Result<Option<Form>> {
    let mut words = env::args(rt)?.skip(1);
    let Some(word) = words.next() else {
        return Ok(None);
    };
    Ok(match word.as_str() {
        _ if words.next().is_some() => None,
        "cnf" => Some(Form::Cnf),
        "wcnf" => Some(Form::Wcnf),
        _ => None,
    })
}

/// The answer for clauses of this form.
pub fn answer(alloc: Global, form: Form, bytes: &[u8]) -> Result<Txt, ReadError>
    ensures cnf { form ≡ at.Cnf → IfOk result (IsAnswerTo bytes.now) }
    ensures wcnf { form ≡ at.Wcnf → IfOk result (IsOptimumOf bytes.now) }
    ensures refused_cnf { form ≡ at.Cnf → IfErr result (IsRefusal false (pieces_of bytes.now)) }
    ensures refused_wcnf { form ≡ at.Wcnf → IfErr result (IsRefusal true (pieces_of bytes.now)) }
{
    match form {
        Form::Cnf => answer_cnf(alloc, bytes),
        Form::Wcnf => answer_wcnf(alloc, bytes),
    }
}
