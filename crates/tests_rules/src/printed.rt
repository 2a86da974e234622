// Whole answers, byte for byte.
use crate::certificates::certificate;
use crate::jobs::{RENAMED, job, program};
use mig_answer::print_answer;
use std::alloc::Global;
use std::test::Fail;

/// A renamed table.
const RENAMING: &str = "answer 1
program
update add(id: int, nick: text) {
  insert into person { person.id = id, person.nick = nick };
}
query all() {
  select person.id, person.nick from person;
}
invariants
view user { user.uid, user.nick } is person { person.id, person.nick };
certificate
pair add
holds 0
old
stage 0 - 0
fold 0 - 0 0
new
stage 0 - 0
pair all
answers
old
fold 0 - 0 0
new
end
";

/// The other invariants, and a path.
const OTHERS: &str = "answer 1
program
invariants
unique new person.id;
apart old user.uid user.nick;
within new person.id person.nick;
certificate
pair add
holds 12
old
new
implied 1 1.2
end
";

/// What an answer is called, its program, invariants and pairs, and its text.
const ANSWERS: [(&str, &str, &str, &str, &str); 2] = [
    (
        "a renamed table",
        RENAMED,
        "view 0.0 0.1 is 0.0 0.1",
        "add; holds 0: stage 0 - 0, fold 0 - 0 0 | stage 0 - 0\nall; answers: fold 0 - 0 0 |",
        RENAMING,
    ),
    (
        "further invariants and a path",
        "",
        "unique new 0.0\napart old 0.0 0.1\nwithin new 0.0 0.1",
        "add; holds 12: | implied 1 1.2",
        OTHERS,
    ),
];

/// Whether the answer is printed so.
fn is_printed(
    alloc: Global,
    text: &str,
    facts: &str,
    shown: &str,
    want: &str,
) -> Result<bool, Fail> {
    let job = job(alloc)?;
    let program = program(alloc, &job, text)?;
    let certificate = certificate(alloc, facts, shown)?;
    let printed = print_answer(alloc, &job, &program, &certificate)?;
    Ok(printed.as_slice() == want.as_bytes())
}

#[test]
fn answers_are_printed(rt: HostRuntime) -> Result<(), Fail> {
    for (name, text, facts, shown, want) in ANSWERS {
        let right = is_printed(rt.alloc(), text, facts, shown, want)?;
        assert!(rt; right, "{name}");
    }
    Ok(())
}
