// The first rule that a program breaks.
ghost use Rattle.std.specs.Prelude.{◌≡◌, ◌⊎◌, ◌∷◌, [], map};
ghost use Rattle.mig_schema.specs.declared.faults.TypeFault.{TypeFault as Fault};
ghost use Rattle.mig_schema.specs.Typed as typing;
ghost use Rattle.mig_schema.specs.Typed.{IsTypedProgram};
ghost use Rattle.mig_typing.specs.First.{IsFirst, IsOkWhere, IsFaultWhere};
ghost use Rattle.mig_typing.specs.Broken.{program_rank, numbers, item_has, parameters_meet, piece_broken, function_broken, program_broken, program_breaks};
ghost use Rattle.mig_typing.specs.Seen.{seen};

use crate::again::{first_again, is_again};
use crate::pieces::{Piece, piece_of, query_piece};
use crate::rules::breaks;
use mig_base::Seq;
use mig_schema::{Body, Function, Program, ProgramRule, Schema, Stmt, TypeFault};
use std::alloc::Global;

/// The rules in the order in which they are tested.
const RULES: [ProgramRule; 11] = [
    ProgramRule::FunctionTwice,
    ProgramRule::ParameterTwice,
    ProgramRule::UnknownTable,
    ProgramRule::UnknownColumn,
    ProgramRule::JoinedTwice,
    ProgramRule::OnShape,
    ProgramRule::UnknownParameter,
    ProgramRule::NotJoined,
    ProgramRule::KindDiffers,
    ProgramRule::OrderKind,
    ProgramRule::InsertCover,
];

/// The first rule that a statement or a query breaks.
fn first_rule(schema: &Schema, function: &Function, piece: &Piece) -> Option<ProgramRule>
    ensures { IsFirst (λ r. program_rank r ∷ []) (λ r. piece_broken schema.now function.now r (seen piece.now)) result }
{
    for rule in &RULES {
        if breaks(schema, function, *rule, piece) {
            return Some(*rule);
        }
    }
    None
}

/// The first rule that statement k breaks.
fn first_at(
    schema: &Schema,
    function: &Function,
    stmts: &Seq<Stmt>,
    k: usize,
) -> Option<ProgramRule>
    ensures { IsFirst (λ r. program_rank r ∷ []) (λ r. item_has (piece_broken schema.now function.now r) (map typing.piece_of stmts.now) k) result }
{
    match stmts.get(k) {
        Some(stmt) => {
            let piece = piece_of(stmt);
            first_rule(schema, function, &piece)
        }
        None => None,
    }
}

/// The first statement that breaks a rule, with the first rule that it breaks.
fn first_stmt(
    schema: &Schema,
    function: &Function,
    stmts: &Seq<Stmt>,
) -> Option<(ProgramRule, usize)>
    ensures { IsFirst (λ p. p.1 ∷ program_rank p.0 ∷ []) (λ p. item_has (piece_broken schema.now function.now p.0) (map typing.piece_of stmts.now) p.1) result }
{
    for k in 0..stmts.len() {
        match first_at(schema, function, stmts, k) {
            Some(rule) => return Some((rule, k)),
            None => {}
        }
    }
    None
}

/// The first rule that a function's statements or its query break.
fn first_in_body(schema: &Schema, function: &Function) -> Option<(ProgramRule, usize)>
    ensures { IsFirst (λ p. p.1 ∷ program_rank p.0 ∷ []) (λ p. item_has (piece_broken schema.now function.now p.0) (typing.pieces_of function.now.body) p.1) result }
{
    match &function.body {
        Body::Update(stmts) => first_stmt(schema, function, stmts),
        Body::Query(query) => {
            first_rule(schema, function, &query_piece(query)).map(|rule| (rule, 0))
        }
    }
}

/// Whether two parameters of a function have one name.
fn parameters_meet(function: &Function) -> bool
    ensures { result ≡ parameters_meet function.now }
{
    first_again(function.params.as_slice()).is_some()
}

/// The first rule that a function breaks. The rules for names come first, at statement 0.
fn first_in_function(
    schema: &Schema,
    twice: bool,
    function: &Function,
) -> Option<(ProgramRule, usize)>
    ensures { IsFirst (λ p. p.1 ∷ program_rank p.0 ∷ []) (λ p. function_broken schema.now twice function.now p.0 p.1) result }
{
    if twice {
        Some((ProgramRule::FunctionTwice, 0))
    } else if parameters_meet(function) {
        Some((ProgramRule::ParameterTwice, 0))
    } else {
        first_in_body(schema, function)
    }
}

/// The first rule that function i breaks, with its statement.
fn first_in(schema: &Schema, program: &Program, i: usize) -> Option<(ProgramRule, usize)>
    ensures { IsFirst (λ p. p.1 ∷ program_rank p.0 ∷ []) (λ p. program_broken schema.now program.now p.0 i p.1) result }
{
    let twice = is_again(program.functions.as_slice(), i);
    match program.functions.get(i) {
        Some(function) => first_in_function(schema, twice, function),
        None => None,
    }
}

/// The first function that breaks a rule, with the first statement and rule.
fn first_place(schema: &Schema, program: &Program) -> Option<(ProgramRule, usize, usize)>
    ensures { IsFirst (λ p. p.1 ∷ p.2 ∷ program_rank p.0 ∷ []) (λ p. program_broken schema.now program.now p.0 p.1 p.2) result }
{
    for i in 0..program.functions.len() {
        match first_in(schema, program, i) {
            Some(found) => return Some((found.0, i, found.1)),
            None => {}
        }
    }
    None
}

/// The fault at a place. A number that is no u32 is reported as want of memory.
fn fault_at(rule: ProgramRule, i: usize, k: usize) -> TypeFault
    ensures { (result ≡ Fault.Memory) ⊎ (result ≡ Fault.Program rule i k) }
{
    match (u32::try_from(i), u32::try_from(k)) {
        (Ok(function), Ok(statement)) => TypeFault::Program {
            rule,
            function,
            statement,
        },
        _ => TypeFault::Memory,
    }
}

/// Whether a program is typed over a schema. The error is the first broken rule, by function, then statement, then rule;
/// a query is statement 0, and the rules for the names of functions and parameters stand at statement 0.
/// A place whose numbers are no u32 is answered as `Memory`.
pub fn check_program(_alloc: Global, schema: &Schema, program: &Program) -> Result<(), TypeFault>
    ensures typed { IsOkWhere (IsTypedProgram schema.now program.now) result }
    ensures first { IsFaultWhere numbers (program_breaks schema.now program.now) result }
{
    match first_place(schema, program) {
        None => Ok(()),
        Some(found) => Err(fault_at(found.0, found.1, found.2)),
    }
}
