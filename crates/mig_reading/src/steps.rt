// Reading of steps, a line each.
ghost use Rattle.std.specs.Prelude.{◌≡◌};
ghost use Rattle.mig_tokens.specs.Forms.{no_room};
ghost use Rattle.mig_tokens.specs.Given.{Gives};
ghost use Rattle.mig_reading.specs.ReadingWords.{begins_rule};
ghost use Rattle.mig_reading.specs.ReadingPairs.{step_at};

use crate::numbers::number_of;
use crate::paths::path_of;
use crate::tree::Certificates;
use crate::words::{is_rule, rule_of};
use mig_rules::Step;
use mig_schema::Limit;
use mig_tokens::{Item, ReadError, Token, after_sign, many_of, over};
use std::alloc::Global;

impl Item<Certificates> for Step {
    ghost begun = { begins_rule };

    ghost reads = { step_at };

    ghost takes = { no_room };

    fn is_begun(token: &Token) -> bool {
        is_rule(token)
    }

    fn taken(&self) -> usize {
        0
    }

    #[tactic(auto, unfolding(crate::specs::ReadingPairs::step_at))]
    fn read(
        alloc: Global,
        count: usize,
        _room: usize,
        tokens: &[Token],
    ) -> Result<(Step, &[Token]), ReadError> {
        let (rule, rest) = rule_of(over(Limit::Steps, 4000, count), tokens)?;
        let rest = after_sign(" ", rest)?;
        let (term, rest) = number_of(None, rest)?;
        let rest = after_sign(" ", rest)?;
        let (path, rest) = path_of(alloc, rest)?;
        let (args, rest) = many_of::<Certificates, u32>(alloc, 0, 0, rest)?;
        let rest = after_sign("\n", rest)?;
        Ok((
            Step {
                rule,
                term,
                path,
                args,
            },
            rest,
        ))
    }
}
