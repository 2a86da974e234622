// The lines on verdicts.
ghost use Rattle.std.specs.Prelude.{◌≡◌, ◌++◌, IfOk};
ghost use Rattle.mig_messages.specs.VerdictLines as spec;

use crate::lines::put_numbered;
use mig_base::{Seq, Txt};
use mig_checker::Why;
use mig_printing::put;
use std::alloc::{AllocError, Global};

/// The line on an answer that is accepted.
pub fn accepted() -> &'static str
    ensures { result.now ≡ spec.accepted }
{
    "accepted\n"
}

/// Why a certificate is not valid at a place.
fn why_name(why: Why) -> &'static str
    ensures { result.now ≡ spec.why_name why }
{
    match why {
        Why::Shape => "shape",
        Why::Missing => "missing",
        Why::Extra => "extra",
        Why::NoFollow => "no follow",
        Why::EndsDiffer => "ends differ",
    }
}

/// The line on an answer that is rejected: the numbers of the pair of functions, of the obligation and of the step at which
/// it is first broken, and why.
pub fn rejected_line(
    alloc: Global,
    pair: u32,
    obligation: u32,
    step: u32,
    why: Why,
) -> Result<Txt, AllocError>
    ensures { IfOk result (λ t. t ≡ spec.rejected_line pair obligation step why) }
{
    let mut out = Seq::from_slice(alloc, b"rejected: ")?;
    put_numbered(&mut out, "pair ", pair)?;
    put_numbered(&mut out, " obligation ", obligation)?;
    put_numbered(&mut out, " step ", step)?;
    put(&mut out, ": ")?;
    put(&mut out, why_name(why))?;
    put(&mut out, "\n")?;
    Ok(out)
}
