// What the query calls of a run answer.
ghost use Rattle.std.specs.Prelude.{◌≡◌, ◌∷◌, ◌++◌, [], map, OnOk};
ghost use Rattle.mig_meaning.specs.Told.{reply_told};
ghost use Rattle.mig_store.specs.Runs.{answered_by};
ghost use Rattle.mig_store.specs.Told.{answered_told};

use mig_base::Seq;
use mig_meaning::{Answer, Reply};
use std::alloc::AllocError;

/// What a query call answered.
#[derive(Debug, Drop)]
pub struct Answered {
    /// The call's number in its run, from 0.
    pub call: u32,
    /// The number of its function in the program, from 0.
    pub function: u32,
    /// Its rows.
    pub answer: Answer,
}

/// What the query calls of a run answered, in order.
#[derive(Debug, Drop)]
pub struct Answers {
    pub list: Seq<Answered>,
}

/// Puts what a query call answered behind the others; an update answers nothing.
pub(crate) fn put_answer(
    list: &mut Seq<Answered>,
    call: u32,
    function: u32,
    reply: Reply,
) -> Result<(), AllocError>
    ensures { OnOk result (map answered_told list.new ≡ map answered_told list.old ++ answered_by call function (reply_told reply)) }
{
    match reply {
        Reply::Done => Ok(()),
        Reply::Rows(answer) => {
            list.push(Answered {
                call,
                function,
                answer,
            })?;
            Ok(())
        }
    }
}
