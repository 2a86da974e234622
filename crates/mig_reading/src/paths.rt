// Reading of paths and arguments.
ghost use Rattle.std.specs.Prelude.{◌≡◌, codes};
ghost use Rattle.mig_tokens.specs.Forms.{no_room};
ghost use Rattle.mig_tokens.specs.Pieces.{begins_sign};
ghost use Rattle.mig_tokens.specs.Given.{Gives};
ghost use Rattle.mig_reading.specs.ReadingPairs.{part_at, more_part_at, parts_at, no_parts_at, path_at, arg_at};

use crate::numbers::number_of;
use crate::tree::{Certificates, Paths};
use mig_base::Seq;
use mig_schema::Limit;
use mig_tokens::{Item, ReadError, Token, after_sign, is_sign, led_of, over};
use std::alloc::Global;

/// A number of a path, with `count` before it.
#[tactic(auto, unfolding(crate::specs::ReadingPairs::part_at))]
fn part_of(count: usize, room: usize, tokens: &[Token]) -> Result<(u32, &[Token]), ReadError>
    ensures { Gives (λ x. (x.0, x.1.now)) result (part_at (count, room) tokens.now) }
{
    number_of(over(Limit::Path, 16, count), tokens)
}

/// A number of a path behind a dot.
impl Item<Paths> for u32 {
    ghost begun = { begins_sign (codes ".") };

    ghost reads = { more_part_at };

    ghost takes = { no_room };

    fn is_begun(token: &Token) -> bool {
        is_sign(token, ".")
    }

    fn taken(&self) -> usize {
        0
    }

    #[tactic(auto, unfolding(crate::specs::ReadingPairs::more_part_at))]
    fn read(
        _alloc: Global,
        count: usize,
        room: usize,
        tokens: &[Token],
    ) -> Result<(u32, &[Token]), ReadError> {
        let rest = after_sign(".", tokens)?;
        part_of(count, room, rest)
    }
}

/// The numbers of a path: one or more.
#[tactic(auto, unfolding(mig_tokens::specs::Reading::led_at))]
fn parts_of(alloc: Global, tokens: &[Token]) -> Result<(Seq<u32>, &[Token]), ReadError>
    ensures { Gives (λ x. (x.0, x.1.now)) result (parts_at tokens.now) }
{
    let (first, rest) = part_of(0, 0, tokens)?;
    led_of::<Paths, _>(alloc, 0, first, rest)
}

/// The sign of an empty path.
#[tactic(auto, unfolding(crate::specs::ReadingPairs::no_parts_at))]
fn no_parts(alloc: Global, tokens: &[Token]) -> Result<(Seq<u32>, &[Token]), ReadError>
    ensures { Gives (λ x. (x.0, x.1.now)) result (no_parts_at tokens.now) }
{
    let rest = after_sign("-", tokens)?;
    Ok((Seq::new(alloc), rest))
}

/// A path.
#[tactic(auto, unfolding(mig_tokens::specs::Reading::choice_at))]
pub(crate) fn path_of(alloc: Global, tokens: &[Token]) -> Result<(Seq<u32>, &[Token]), ReadError>
    ensures { Gives (λ x. (x.0, x.1.now)) result (path_at tokens.now) }
{
    match tokens {
        [token, ..] if is_sign(token, "-") => no_parts(alloc, tokens),
        _ => parts_of(alloc, tokens),
    }
}

/// An argument behind a space.
impl Item<Certificates> for u32 {
    ghost begun = { begins_sign (codes " ") };

    ghost reads = { arg_at };

    ghost takes = { no_room };

    fn is_begun(token: &Token) -> bool {
        is_sign(token, " ")
    }

    fn taken(&self) -> usize {
        0
    }

    #[tactic(auto, unfolding(crate::specs::ReadingPairs::arg_at))]
    fn read(
        _alloc: Global,
        count: usize,
        _room: usize,
        tokens: &[Token],
    ) -> Result<(u32, &[Token]), ReadError> {
        let rest = after_sign(" ", tokens)?;
        number_of(over(Limit::Args, 16, count), rest)
    }
}
