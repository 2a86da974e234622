// How a call ends: both texts are put, or a sink fails.
ghost use Rattle.std.specs.Prelude.{◌≡◌, ◌≢◌, ◌≤◌, ◌⊎◌};
ghost use Rattle.mig_cli.specs.Desk.{Cut, EitherRose, Whole};
ghost use Rattle.mig_cli.specs.World.{outputs_of};

use mig_io::{Sink, emit};
use mig_messages::Status;

/// Puts the text on `out` and then the report on `err`, and answers the status; or that of a sink's fault, after which nothing further is put.
pub fn finish<W: Sink, E: Sink>(
    status: Status,
    out: &mut W,
    text: &[u8],
    err: &mut E,
    report: &[u8],
) -> Status
    requires { status ≢ Status.Sink }
    ensures status { (result ≡ status) ⊎ (result ≡ Status.Sink) }
    ensures whole { let before = outputs_of W.Sink E.Sink out.old err.old in
        let after = outputs_of W.Sink E.Sink out.new err.new in
        result ≡ status → Whole before after text.now report.now }
    ensures cut { let before = outputs_of W.Sink E.Sink out.old err.old in
        let after = outputs_of W.Sink E.Sink out.new err.new in
        result ≡ Status.Sink → Cut before after text.now report.now }
    ensures fault { let before = outputs_of W.Sink E.Sink out.old err.old in
        let after = outputs_of W.Sink E.Sink out.new err.new in
        result ≡ Status.Sink → EitherRose before after }
    ensures out_later { W.faults out.old ≤ W.faults out.new }
    ensures err_later { E.faults err.old ≤ E.faults err.new }
{
    match emit(out, text) {
        Err(_) => Status::Sink,
        Ok(()) => match emit(err, report) {
            Err(_) => Status::Sink,
            Ok(()) => status,
        },
    }
}
