// A program without statements that tests read calls for.
ghost use Rattle.std.specs.Prelude.{◌≡◌, IfOk, length};

use mig_base::{Seq, Txt};
use mig_schema::{Body, Function, Kind, Param, Program};
use std::alloc::{AllocError, Global};

fn text(alloc: Global, text: &str) -> Result<Txt, AllocError> {
    Seq::from_slice(alloc, text.as_bytes())
}

/// An update that does nothing, with parameters of these kinds.
fn function(alloc: Global, name: &str, kinds: &[Kind]) -> Result<Function, AllocError> {
    let mut params = Seq::new(alloc);
    for kind in kinds {
        params.push(Param {
            name: text(alloc, "p")?,
            kind: *kind,
        })?;
    }
    Ok(Function {
        name: text(alloc, name)?,
        params,
        body: Body::Update(Seq::new(alloc)),
    })
}

/// The functions `add` of an int and a text, `get` of an int, `all` of nothing, `keyed` of a key, `row` of an int, a text
/// and a key, and `one` of a text.
pub(crate) fn program(alloc: Global) -> Result<Program, AllocError>
    ensures { IfOk result (λ p. length p.functions ≡ 6) }
{
    let mut functions = Seq::new(alloc);
    functions.push(function(alloc, "add", &[Kind::Int, Kind::Text])?)?;
    functions.push(function(alloc, "get", &[Kind::Int])?)?;
    functions.push(function(alloc, "all", &[])?)?;
    functions.push(function(alloc, "keyed", &[Kind::Key])?)?;
    functions.push(function(alloc, "row", &[Kind::Int, Kind::Text, Kind::Key])?)?;
    functions.push(function(alloc, "one", &[Kind::Text])?)?;
    Ok(Program { functions })
}
