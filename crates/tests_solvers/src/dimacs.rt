// Texts with their answers, and refused ones with their lines, worked out by hand.
use mig_base::Txt;
use mig_dimacs::{ReadError, answer_cnf, answer_wcnf};
use std::test::Fail;

/// A text, and its answer or the refused line.
type Case = (&'static str, Result<&'static str, u64>);

const CLAUSES: [Case; 16] = [
    (
        "p cnf 2 2\n1 2 0\n-1 -2 0\n",
        Ok("s SATISFIABLE\nv 1 -2 0\n"),
    ),
    ("p cnf 1 2\n1 0 -1 0", Ok("s UNSATISFIABLE\n")),
    (
        "c three\r\np\tcnf 3 3\r\n-1 3 0\n-3\nc\n0 1 2 0\n",
        Ok("s SATISFIABLE\nv -1 2 -3 0\n"),
    ),
    ("p cnf 0 0", Ok("s SATISFIABLE\nv 0\n")),
    ("p cnf 1 1 0", Ok("s UNSATISFIABLE\n")),
    ("", Err(1)),
    ("p cnf 2 1\n1\n3 0\n", Err(3)),
    ("p cnf 2 1\n1 2\n", Err(3)),
    ("p cnf 2 2\n1 0\n\n", Err(4)),
    ("p cnf 2 1\n1 0\n2 0\n", Err(3)),
    ("p cnf 2 1\np cnf 2 1\n1 0\n", Err(2)),
    ("\n1 0\n", Err(2)),
    ("p wcnf 1 1 2\n2 1 0\n", Err(1)),
    ("p cnf 1 1\n1x 0\n", Err(2)),
    ("p cnf 4294967296 0\n", Err(1)),
    ("p cnf 1 1\n-0\n", Err(2)),
];

const WEIGHTED: [Case; 19] = [
    (
        "p wcnf 2 3 10\n10 -1 -2 0\n3 1 0\n2 2 0\n",
        Ok("o 2\ns OPTIMUM FOUND\nv 1 -2 0\n"),
    ),
    (
        "p wcnf 1 2 9\n9 1 0\n4 -1 0\n",
        Ok("o 4\ns OPTIMUM FOUND\nv 1 0\n"),
    ),
    (
        "p wcnf 1 2 9\n2 1 0\n2 -1 0\n",
        Ok("o 2\ns OPTIMUM FOUND\nv 1 0\n"),
    ),
    (
        "p wcnf 1 3 9\n2 -1 0\n3 1 0\n2 -1 0\n",
        Ok("o 3\ns OPTIMUM FOUND\nv -1 0\n"),
    ),
    (
        "p wcnf 3 5 10\n10 1 2 0\n10 1 3\n0 5 -1 0\n2 -2 0\n2 -3 0\n",
        Ok("o 4\ns OPTIMUM FOUND\nv -1 2 3 0\n"),
    ),
    ("p wcnf 0 0 1", Ok("o 0\ns OPTIMUM FOUND\nv 0\n")),
    ("p wcnf 1 2 5\n5 1 0\n5 -1 0\n", Ok("s UNSATISFIABLE\n")),
    ("p wcnf 1 1 5\n5 0\n", Ok("s UNSATISFIABLE\n")),
    (
        "p wcnf 1 1 9223372036854775808\n4611686018427387903 -1 0\n",
        Ok("o 0\ns OPTIMUM FOUND\nv -1 0\n"),
    ),
    (
        "p wcnf 1 2 4611686018427387904\n4611686018427387904 1 0\n4611686018427387904 1 0\n",
        Ok("o 0\ns OPTIMUM FOUND\nv 1 0\n"),
    ),
    (
        "p wcnf 2 2 9223372036854775808\n4611686018427387903 -1 0\n1 2 0\n",
        Err(3),
    ),
    ("p wcnf 2 1 10\n3 1\n2 0", Err(3)),
    ("p wcnf 2 1 10\n3\n0\n", Err(3)),
    ("p wcnf 2 1 10\n11 1 0", Err(2)),
    ("p wcnf 2 1 10\n-3 1 0", Err(2)),
    ("p wcnf 2 1 10\n0\n", Err(2)),
    ("p wcnf 2 1 0\n", Err(1)),
    ("p wcnf 0 1 10\n3\n1 0", Err(2)),
    ("p cnf 1 1\n1 0\n", Err(1)),
];

/// Whether it is the answer, or the refusal at the line, that is wanted.
fn is_wanted(found: &Result<Txt, ReadError>, want: Result<&'static str, u64>) -> bool {
    match (found, want) {
        (Ok(text), Ok(want)) => text.as_slice() == want.as_bytes(),
        (Err(ReadError::Refused { line }), Err(want)) => *line == want,
        _ => false,
    }
}

#[test]
fn clauses_are_answered_as_by_hand(rt: HostRuntime) -> Result<(), Fail> {
    for (text, want) in &CLAUSES {
        let found = answer_cnf(rt.alloc(), text.as_bytes());
        assert!(rt; is_wanted(&found, *want), "{}", text);
    }
    Ok(())
}

#[test]
fn clauses_with_weights_are_answered_as_by_hand(rt: HostRuntime) -> Result<(), Fail> {
    for (text, want) in &WEIGHTED {
        let found = answer_wcnf(rt.alloc(), text.as_bytes());
        assert!(rt; is_wanted(&found, *want), "{}", text);
    }
    Ok(())
}
