// The text of answers.
ghost use Rattle.std.specs.Prelude.{◌≡◌, ◌<◌, IfOk, length};
ghost use Rattle.mig_meaning.specs.Lists.{Each};
ghost use Rattle.mig_store.specs.declared.answers.Answered.{Answered as AnAnswer};

use crate::programs::program;
use mig_base::Seq;
use mig_meaning::{Answer, Row};
use mig_schema::Program;
use mig_store::{Answered, Answers, answers_text, read_calls};
use std::alloc::{AllocError, Global};
use std::test::Fail;

/// What call 3, of the function 1, answers with these rows.
fn answers(alloc: Global, program: &Program, rows: Seq<Row>) -> Result<Answers, AllocError>
    requires { length program.now.functions ≡ 6 }
    ensures { IfOk result (λ a. Each (λ (x : AnAnswer). x.function < length program.now.functions) a.list) }
{
    let _program = program;
    let mut list = Seq::new(alloc);
    list.push(Answered {
        call: 3,
        function: 1,
        answer: Answer { rows },
    })?;
    Ok(Answers { list })
}

/// Rows with the arguments of calls.
fn rows_of(alloc: Global, program: &Program, calls: &str) -> Result<Seq<Row>, Fail> {
    let mut rows = Seq::new(alloc);
    let calls = read_calls(alloc, program, calls.as_bytes())?;
    for call in calls.calls.into_vec() {
        rows.push(Row {
            values: call.args.values,
        })?;
    }
    Ok(rows)
}

/// Whether the answer whose rows are these arguments is written so.
fn is_written(alloc: Global, calls: &str, want: &str) -> Result<bool, Fail> {
    let program = program(alloc)?;
    let rows = rows_of(alloc, &program, calls)?;
    let answers = answers(alloc, &program, rows)?;
    let text = answers_text(alloc, &program, &answers)?;
    Ok(text.as_slice() == want.as_bytes())
}

/// Rows, as the arguments of calls, and the text of the answer.
const ANSWERS: [(&str, &str); 8] = [
    (
        "row,7,Bob,#1\nrow,7,Ann,#2\nrow,7,Ann,#1\n",
        "3,get,3\n7,Ann,#1\n7,Ann,#2\n7,Bob,#1\n",
    ),
    (
        "row,10,,#0\nrow,9,,#0\nrow,-10,,#0\n",
        "3,get,3\n-10,,#0\n9,,#0\n10,,#0\n",
    ),
    (
        "row,1,a,#10\nrow,1,a,#9\nrow,1,B,#11\n",
        "3,get,3\n1,B,#11\n1,a,#9\n1,a,#10\n",
    ),
    (
        "row,1,ab,#0\nrow,1,a,#0\nrow,1,,#0\n",
        "3,get,3\n1,,#0\n1,a,#0\n1,ab,#0\n",
    ),
    (
        "row,0,\"x,y\",#0\nrow,1,\"\"\"\",#0\nrow,2,\"a\nb\r\",#0\n",
        "3,get,3\n0,\"x,y\",#0\n1,\"\"\"\",#0\n2,\"a\nb\r\",#0\n",
    ),
    (
        "row,9223372036854775807,é,#18446744073709551615\nrow,-9223372036854775808, ,#0\nrow,0,#1,#0\n",
        "3,get,3\n-9223372036854775808, ,#0\n0,#1,#0\n9223372036854775807,é,#18446744073709551615\n",
    ),
    // A row of one empty text is quoted.
    ("one,b\none,\none,a\none,a\n", "3,get,4\n\"\"\na\na\nb\n"),
    ("", "3,get,0\n"),
];

#[test]
fn rows_are_written_in_order(rt: HostRuntime) -> Result<(), Fail> {
    for (calls, want) in ANSWERS {
        let right = is_written(rt.alloc(), calls, want)?;
        assert!(rt; right, "at {want}");
    }
    Ok(())
}
