// Writes steps, a line each.
ghost use Rattle.std.specs.Prelude.{◌≡◌, ◌++◌, OnOk, codes, decimal};
ghost use Rattle.std.specs.List.{flat_map};
ghost use Rattle.mig_answer.specs.AnswerText.{rule_text, path_text, place_text, step_text};

use mig_base::Txt;
use mig_printing::{put, put_number};
use mig_rules::{Rule, Step};
use std::alloc::AllocError;

/// The name of a rule.
fn rule_name(rule: Rule) -> &'static str
    ensures { result.now ≡ rule_text rule }
{
    match rule {
        Rule::Stage => "stage",
        Rule::StageIn => "stagein",
        Rule::Dead => "dead",
        Rule::Same => "same",
        Rule::Implied => "implied",
        Rule::Lift => "lift",
        Rule::Split => "split",
        Rule::Found => "found",
        Rule::Alone => "alone",
        Rule::Inside => "inside",
        Rule::Never => "never",
        Rule::Merge => "merge",
        Rule::Apart => "apart",
        Rule::Lossless => "lossless",
        Rule::Fold => "fold",
        Rule::FoldIn => "foldin",
        Rule::Rejoin => "rejoin",
    }
}

/// Appends numbers, each behind the separator.
fn put_each_behind(out: &mut Txt, separator: &str, numbers: &[u32]) -> Result<(), AllocError>
    ensures { OnOk result (out.new ≡ out.old ++ flat_map (λ n. separator.now ++ decimal n) numbers.now) }
{
    for number in numbers {
        put(out, separator)?;
        put_number(out, *number)?;
    }
    Ok(())
}

fn put_path(out: &mut Txt, path: &[u32]) -> Result<(), AllocError>
    ensures { OnOk result (out.new ≡ out.old ++ path_text path.now) }
{
    let [first, others @ ..] = path else {
        return put(out, "-");
    };
    put_number(out, *first)?;
    put_each_behind(out, ".", others)
}

fn put_place(out: &mut Txt, step: &Step) -> Result<(), AllocError>
    ensures { OnOk result (out.new ≡ out.old ++ place_text step.now) }
{
    put(out, " ")?;
    put_number(out, step.term)?;
    put(out, " ")?;
    put_path(out, step.path.as_slice())
}

fn put_step(out: &mut Txt, step: &Step) -> Result<(), AllocError>
    ensures { OnOk result (out.new ≡ out.old ++ step_text step.now) }
{
    put(out, rule_name(step.rule))?;
    put_place(out, step)?;
    put_each_behind(out, " ", step.args.as_slice())?;
    put(out, "\n")
}

/// Appends the lines of steps, in order.
pub(crate) fn put_steps(out: &mut Txt, steps: &[Step]) -> Result<(), AllocError>
    ensures { OnOk result (out.new ≡ out.old ++ flat_map step_text steps.now) }
{
    for step in steps {
        put_step(out, step)?;
    }
    Ok(())
}
