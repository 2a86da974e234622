// Reading of functions.
ghost use Rattle.std.specs.Prelude.{◌≡◌, codes};
ghost use Rattle.mig_tokens.specs.Forms.{start, no_room};
ghost use Rattle.mig_tokens.specs.Pieces.{begins_sign, comma_at, listed_at};
ghost use Rattle.mig_grammar.specs.ReadingFunctions.{body_at, function_at, param_at, params_at, select_at, stmts_at};
ghost use Rattle.mig_grammar.specs.ReadingTokens.{begins_function, head_at};
ghost use Rattle.mig_grammar.specs.ReadingTokens as part;
ghost use Rattle.mig_tokens.specs.Given.{Gives};

use crate::kinds::param_kind_of;
use crate::selects::select_of;
use crate::statements::stmts_of;
use crate::tree::{BodyTree, FunctionTree, Jobs};
use mig_base::Seq;
use mig_schema::{Limit, Param};
use mig_tokens::{Item, ReadError, Token, after_sign, is, is_sign, is_word, led_of, name_of, over};
use std::alloc::Global;

/// The two sorts of functions.
#[derive(Clone, Copy)]
enum Head {
    Update,
    Query,
}

/// The sort of a function that begins with this word.
fn sort_of(word: &[u8]) -> Option<Head>
    ensures { result ≡ part.head_of word.now }
{
    if is(word, "update") {
        Some(Head::Update)
    } else if is(word, "query") {
        Some(Head::Query)
    } else {
        None
    }
}

/// The word that begins a function.
#[tactic(auto, unfolding(mig_tokens::specs::Reading::token_at, crate::specs::ReadingTokens::head_at))]
fn head_of(limit: Option<Limit>, tokens: &[Token]) -> Result<(Head, &[Token]), ReadError>
    ensures { Gives (λ x. (x.0, x.1.now)) result (head_at limit tokens.now) }
{
    let left = tokens.len();
    match tokens {
        [Token::Word(text), rest @ ..] => {
            let head = match sort_of(text.as_slice()) {
                Some(head) => head,
                None => return Err(ReadError::At { left }),
            };
            match limit {
                Some(which) => Err(ReadError::Limit { which, left }),
                None => Ok((head, rest)),
            }
        }
        _ => Err(ReadError::At { left }),
    }
}

/// A parameter, with `count` before it.
#[tactic(auto, unfolding(crate::specs::ReadingFunctions::param_at))]
fn param_of(
    alloc: Global,
    count: usize,
    room: usize,
    tokens: &[Token],
) -> Result<(Param, &[Token]), ReadError>
    ensures { Gives (λ x. (x.0, x.1.now)) result (param_at (count, room) tokens.now) }
{
    let (name, rest) = name_of(alloc, over(Limit::Parameters, 8, count), tokens)?;
    let rest = after_sign(":", rest)?;
    let (kind, rest) = param_kind_of(rest)?;
    Ok((Param { name, kind }, rest))
}

/// A parameter behind a comma.
impl Item<Jobs> for Param {
    ghost begun = { begins_sign (codes ",") };

    ghost reads = { comma_at param_at };

    ghost takes = { no_room };

    fn is_begun(token: &Token) -> bool {
        is_sign(token, ",")
    }

    fn taken(&self) -> usize {
        0
    }

    #[tactic(auto, unfolding(mig_tokens::specs::Pieces::comma_at))]
    fn read(
        alloc: Global,
        count: usize,
        room: usize,
        tokens: &[Token],
    ) -> Result<(Param, &[Token]), ReadError> {
        let rest = after_sign(",", tokens)?;
        param_of(alloc, count, room, rest)
    }
}

/// The parameters up to a closing bracket; there may be none.
#[tactic(auto, unfolding(mig_tokens::specs::Reading::led_at, mig_tokens::specs::Reading::choice_at))]
fn params_of(alloc: Global, tokens: &[Token]) -> Result<(Seq<Param>, &[Token]), ReadError>
    ensures { Gives (λ x. (x.0, x.1.now)) result (params_at tokens.now) }
{
    match tokens {
        [token, ..] if is_sign(token, ")") => Ok((Seq::new(alloc), tokens)),
        _ => {
            let (first, rest) = param_of(alloc, 0, 0, tokens)?;
            led_of::<Jobs, _>(alloc, 0, first, rest)
        }
    }
}

/// What a function of this sort does.
#[tactic(auto, unfolding(crate::specs::ReadingFunctions::update_body_at, crate::specs::ReadingFunctions::query_body_at))]
fn body_of(alloc: Global, head: Head, tokens: &[Token]) -> Result<(BodyTree, &[Token]), ReadError>
    ensures { Gives (λ x. (x.0, x.1.now)) result (body_at head tokens.now) }
{
    match head {
        Head::Update => {
            let (statements, rest) = stmts_of(alloc, tokens)?;
            Ok((BodyTree::Update(statements), rest))
        }
        Head::Query => {
            let (select, rest) = select_of(alloc, tokens)?;
            Ok((BodyTree::Query(select), rest))
        }
    }
}

impl Item<Jobs> for FunctionTree {
    ghost begun = { begins_function };

    ghost reads = { function_at };

    ghost takes = { no_room };

    fn is_begun(token: &Token) -> bool {
        is_word(token, "update") || is_word(token, "query")
    }

    fn taken(&self) -> usize {
        0
    }

    #[tactic(auto, unfolding(crate::specs::ReadingFunctions::function_at))]
    fn read(
        alloc: Global,
        count: usize,
        _room: usize,
        tokens: &[Token],
    ) -> Result<(FunctionTree, &[Token]), ReadError> {
        let (head, rest) = head_of(over(Limit::Functions, 32, count), tokens)?;
        let (name, rest) = name_of(alloc, None, rest)?;
        let rest = after_sign("(", rest)?;
        let (params, rest) = params_of(alloc, rest)?;
        let rest = after_sign(")", rest)?;
        let rest = after_sign("{", rest)?;
        let (body, rest) = body_of(alloc, head, rest)?;
        let rest = after_sign("}", rest)?;
        Ok((FunctionTree { name, params, body }, rest))
    }
}
