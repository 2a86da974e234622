// Reading of lists: items as long as one begins.
ghost use Rattle.std.specs.Prelude.{◌≡◌, [], ◌∷◌, ◌≤◌, length};
ghost use Rattle.mig_tokens.specs.Pieces.{next};
ghost use Rattle.mig_tokens.specs.Reading.{many_at, most_at, with_front};
ghost use Rattle.mig_tokens.specs.Marked.{first_is};
ghost use Rattle.mig_tokens.specs.Given.{Gives};

use crate::fault::ReadError;
use crate::token::Token;
use mig_base::Seq;
use std::alloc::Global;

/// A part of a text of the grammar `G` that stands in lists. Behind a comma, an `and` or an `or`, that token belongs to it.
pub trait Item<G>: Drop {
    ghost use Rattle.std.specs.Prelude.{ℕ, Bool, List};
    ghost use Rattle.mig_tokens.specs.declared.token.Token.{Token};
    ghost use Rattle.mig_tokens.specs.Forms.{Before};
    ghost use Rattle.mig_tokens.specs.Reading.{Read};
    ghost use Rattle.mig_tokens.specs.Given.{Gives};

    /// Whether one begins with this token.
    ghost begun: { Token → Bool };
    /// What the first tokens are read as, behind what stands before.
    ghost reads: { Before → List Token → Read Self };
    /// How much it takes of the room for what is counted over several lists.
    ghost takes: { Self → ℕ };

    /// Whether one begins with this token.
    fn is_begun(token: &Token) -> bool
        ensures { result ≡ begun token.now };

    /// How much it takes of the room for what is counted over several lists.
    fn taken(&self) -> usize
        ensures { result ≡ takes self.now };

    /// The item at the front, with `count` before it and so much room, and the tokens behind it.
    fn read(
        alloc: Global,
        count: usize,
        room: usize,
        tokens: &[Token],
    ) -> Result<(Self, &[Token]), ReadError>
        ensures { Gives (λ x. (x.0, x.1.now)) result (reads (count, room) tokens.now) };
}

/// Whether an item begins here.
fn begins<G, T: Item<G>>(tokens: &[Token]) -> bool
    ensures { result ≡ first_is T.begun tokens.now }
{
    match tokens {
        [token, ..] => T::is_begun(token),
        [] => false,
    }
}

/// These items, and those that follow.
fn more_of<'a, G, T: Item<G>>(
    alloc: Global,
    before: Vec<T>,
    start: usize,
    room: usize,
    tokens: &'a [Token],
) -> Result<(Vec<T>, &'a [Token]), ReadError>
    requires { start ≤ 1 }
    ensures { Gives (λ x. (x.0.items, x.1.now)) result (with_front before.items (most_at T.begun T.reads (next T.takes) (length tokens.now) (start, room) tokens.now)) }
{
    let mut items = before;
    let mut left = room;
    let mut rest = tokens;
    for i in 0..tokens.len() {
        if begins::<G, T>(rest) {
            let (item, more) = T::read(alloc, start + i, left, rest)?;
            left = left.saturating_sub(item.taken());
            items.push(item)?;
            rest = more;
        } else {
            return Ok((items, rest));
        }
    }
    Ok((items, rest))
}

/// Items as long as one begins, with `count` before them and so much room for what is counted over several lists, and the
/// tokens behind them. An error is that of the first item that fails, or `Memory`.
pub fn many_of<G, T: Item<G>>(
    alloc: Global,
    count: usize,
    room: usize,
    tokens: &[Token],
) -> Result<(Seq<T>, &[Token]), ReadError>
    requires { count ≤ 1 }
    ensures { Gives (λ x. (x.0, x.1.now)) result (many_at T.begun T.reads (next T.takes) (count, room) tokens.now) }
{
    let (items, rest) = more_of::<G, T>(alloc, Vec::new(alloc), count, room, tokens)?;
    Ok((Seq::from_vec(items), rest))
}

/// A first item, before which so much room was, and those that follow, and the tokens behind them. An error is that of the
/// first item that fails, or `Memory`.
pub fn led_of<G, T: Item<G>>(
    alloc: Global,
    room: usize,
    first: T,
    tokens: &[Token],
) -> Result<(Seq<T>, &[Token]), ReadError>
    ensures { Gives (λ x. (x.0, x.1.now)) result (with_front (first ∷ []) (many_at T.begun T.reads (next T.takes) (next T.takes (0, room) first) tokens.now)) }
{
    let left = room.saturating_sub(first.taken());
    let mut before = Vec::new(alloc);
    before.push(first)?;
    let (items, rest) = more_of::<G, T>(alloc, before, 1, left, tokens)?;
    Ok((Seq::from_vec(items), rest))
}
