// The names of limits and of typing rules.
ghost use Rattle.std.specs.Prelude.{◌≡◌, ◌++◌, OnOk};
ghost use Rattle.mig_messages.specs.Lines as spec;

use mig_base::Txt;
use mig_printing::{put, put_number};
use mig_schema::{HintRule, Limit, ProgramRule, SchemaRule, Side, TypeFault};
use std::alloc::AllocError;

/// The name of a limit.
pub fn limit_name(which: Limit) -> &'static str
    ensures { result.now ≡ spec.limit_name which }
{
    match which {
        Limit::Tables => "tables",
        Limit::Columns => "columns",
        Limit::Keys => "keys",
        Limit::Links => "links",
        Limit::Functions => "functions",
        Limit::Parameters => "parameters",
        Limit::Statements => "statements",
        Limit::Joined => "joined",
        Limit::Selected => "selected",
        Limit::Invariants => "invariants",
        Limit::Steps => "steps",
        Limit::Comparisons => "comparisons",
        Limit::Cases => "cases",
        Limit::Name => "name",
        Limit::Text => "text",
        Limit::Int => "int",
        Limit::Label => "label",
        Limit::Hint => "hint",
        Limit::Hints => "hints",
        Limit::Pairs => "pairs",
        Limit::Outs => "outs",
        Limit::Path => "path",
        Limit::Args => "args",
        Limit::Calls => "calls",
    }
}

/// The side of a schema.
fn side_name(side: Side) -> &'static str
    ensures { result.now ≡ spec.side_name side }
{
    match side {
        Side::Old => "Old",
        Side::New => "New",
    }
}

/// A rule for schemas.
fn schema_rule_name(rule: SchemaRule) -> &'static str
    ensures { result.now ≡ spec.schema_rule_name rule }
{
    match rule {
        SchemaRule::TableTwice => "TableTwice",
        SchemaRule::ColumnTwice => "ColumnTwice",
        SchemaRule::LinkEnd => "LinkEnd",
        SchemaRule::LinkTables => "LinkTables",
        SchemaRule::LinkKinds => "LinkKinds",
    }
}

/// A rule for programs.
fn program_rule_name(rule: ProgramRule) -> &'static str
    ensures { result.now ≡ spec.program_rule_name rule }
{
    match rule {
        ProgramRule::FunctionTwice => "FunctionTwice",
        ProgramRule::ParameterTwice => "ParameterTwice",
        ProgramRule::UnknownTable => "UnknownTable",
        ProgramRule::UnknownColumn => "UnknownColumn",
        ProgramRule::JoinedTwice => "JoinedTwice",
        ProgramRule::OnShape => "OnShape",
        ProgramRule::UnknownParameter => "UnknownParameter",
        ProgramRule::NotJoined => "NotJoined",
        ProgramRule::KindDiffers => "KindDiffers",
        ProgramRule::OrderKind => "OrderKind",
        ProgramRule::InsertCover => "InsertCover",
    }
}

/// A rule for hints.
fn hint_rule_name(rule: HintRule) -> &'static str
    ensures { result.now ≡ spec.hint_rule_name rule }
{
    match rule {
        HintRule::HintEnd => "HintEnd",
        HintRule::HintKinds => "HintKinds",
        HintRule::HintTwice => "HintTwice",
    }
}

/// Appends where a rule is broken.
fn put_numbers(out: &mut Txt, a: u32, b: u32) -> Result<(), AllocError>
    ensures { OnOk result (out.new ≡ out.old ++ spec.at_numbers a b) }
{
    put(out, " at ")?;
    put_number(out, a)?;
    put(out, " ")?;
    put_number(out, b)
}

/// Appends a rule for schemas and where it is broken.
fn put_schema_rule(
    out: &mut Txt,
    side: Side,
    rule: SchemaRule,
    a: u32,
    b: u32,
) -> Result<(), AllocError>
    ensures { OnOk result (out.new ≡ out.old ++ (spec.side_name side ++ (spec.schema_rule_name rule ++ spec.at_numbers a b))) }
{
    put(out, side_name(side))?;
    put(out, schema_rule_name(rule))?;
    put_numbers(out, a, b)
}

/// Appends a broken rule and where it is broken; want of memory is handed on.
pub fn put_rule(out: &mut Txt, fault: TypeFault) -> Result<(), AllocError>
    ensures { OnOk result (out.new ≡ out.old ++ spec.rule_text fault) }
{
    match fault {
        TypeFault::Memory => Err(AllocError),
        TypeFault::Schema { side, rule, a, b } => put_schema_rule(out, side, rule, a, b),
        TypeFault::Program {
            rule,
            function,
            statement,
        } => {
            put(out, program_rule_name(rule))?;
            put_numbers(out, function, statement)
        }
        TypeFault::Hint { rule, at } => {
            put(out, hint_rule_name(rule))?;
            put_numbers(out, at, 0)
        }
    }
}
