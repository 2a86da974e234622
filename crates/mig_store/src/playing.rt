// A file of calls, played over a store.
ghost use Rattle.std.specs.Prelude.{◌≡◌, ◌⊎◌, true, Ok, Err, IfOk, OnErr};
ghost use Rattle.mig_schema.specs.Typed.{IsTypedProgram};
ghost use Rattle.mig_schema.specs.Within.{IsProgramWithin};
ghost use Rattle.mig_meaning.specs.declared.calling.Calls.{Calls as SaidCalls};
ghost use Rattle.mig_storage.specs.Meaning.{IsAtRest};
ghost use Rattle.mig_store.specs.Stopped.{IsStopped};
ghost use Rattle.mig_store.specs.declared.faults.CallsFault.{CallsFault};
ghost use Rattle.mig_store.specs.declared.play_faults.PlayFault.TheVariants as fault;
ghost use Rattle.mig_store.specs.Playing.{HasFailed, IsPlayed, IsRefused, Lasts, calls_in};

use crate::calls::read_calls;
use crate::play_faults::PlayFault;
use crate::runs::run;
use crate::writing::answers_text;
use mig_base::Txt;
use mig_schema::{Program, Schema};
use mig_storage::Store;
use std::alloc::Global;

/// Plays the calls that the bytes of a file say, from empty tables, and answers the text of what its query calls answer.
///
/// The calls are those of `read_calls`; they are played by `run`, and their answers are written by `answers_text`. Where
/// the store tells its state, the text is exactly the defined one, and the told state is the last of the defined run
/// (`docs/MEANING.md`). The layout is the schema's then. Over any other store the text has one answer for each query call.
///
/// `Calls` comes exactly where the file says no calls, with the cause that `read_calls` gives, and the store is left
/// alone. `Store` comes only where the file says calls, and the store's count of faults rose or it was broken before. So
/// over a broken store no file of calls is played. `Memory` may come in place of any answer. After `Store` and `Memory`
/// the told state is that at entry, or that after the first n calls, none left out, or the store is broken; it breaks
/// only with `Store`. After each answer no transaction is begun, or the store is broken.
///
/// The program must be typed over the schema and within the limits of the language. No transaction may be begun in the
/// store, unless it is broken.
pub fn play<S: Store>(
    alloc: Global,
    store: &mut S,
    schema: &Schema,
    program: &Program,
    bytes: &[u8],
) -> Result<Txt, PlayFault>
    requires typed { IsTypedProgram schema.now program.now }
    requires within { IsProgramWithin program.now }
    requires rest { IsAtRest (S.meaning store.old) }
    ensures played { IfOk result (IsPlayed schema.now program.now bytes.now (S.meaning store.old) (S.meaning store.new)) }
    ensures refused { (cause : CallsFault) → result ≡ Err (fault.Calls cause) → IsRefused program.now bytes.now (S.meaning store.old) (S.meaning store.new) cause }
    ensures only_refused { (cause : CallsFault) → calls_in program.now bytes.now ≡ Err cause → ((result ≡ Err (fault.Calls cause)) ⊎ (result ≡ Err fault.Memory)) × (S.meaning store.new ≡ S.meaning store.old) }
    ensures failed { result ≡ Err fault.Store → HasFailed schema.now program.now bytes.now (S.meaning store.old) (S.meaning store.new) }
    ensures stopped { (calls : SaidCalls) → calls_in program.now bytes.now ≡ Ok calls → OnErr result (IsStopped schema.now program.now calls.calls (S.meaning store.old) (S.meaning store.new)) }
    ensures breaks { (S.meaning store.new).broken ≡ true → (result ≡ Err fault.Store) ⊎ ((S.meaning store.old).broken ≡ true) }
    ensures lasts { Lasts (S.meaning store.old) (S.meaning store.new) }
    ensures rest { IsAtRest (S.meaning store.new) }
{
    let calls = read_calls(alloc, program, bytes)?;
    let answers = run(alloc, store, schema, program, &calls)?;
    Ok(answers_text(alloc, program, &answers)?)
}
