// A whole program, byte for byte.
use crate::texts::untyped;
use mig_printing::print_program;
use mig_tokens::Misread;

/// An update with each part of a statement, a condition that no typing rule allows, and each byte that is escaped.
const UPDATE: &str = r#"old table t { a: text } table u { c: text } new program
update f(p:text){delete t,u from t join u on t.a=u.c where t.a=p and t.a<-7 or u.c<>"a\"\\\n";set t.a=p in t;}"#;

const PRINTED: &str = "update f(p: text) {
  delete t, u from t join u on t.a = u.c where t.a = p and t.a < -7 or u.c <> \"a\\\"\\\\\\n\";
  set t.a = p in t;
}
";

#[test]
fn each_part_of_a_statement(rt: HostRuntime) -> Result<(), Misread> {
    let job = untyped(rt.alloc(), &[UPDATE])?;
    let printed = print_program(rt.alloc(), &job.source, &job.program)?;
    assert!(rt; printed.as_slice() == PRINTED.as_bytes());
    Ok(())
}
