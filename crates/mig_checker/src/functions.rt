// The first function in which two programs are not the same.
ghost use Rattle.std.specs.Prelude.{◌≡◌, ◌∷◌, [], slice_get};
ghost use Rattle.std.specs.Option.{option_copied};
ghost use Rattle.mig_typing.specs.First.{IsFirst};
ghost use Rattle.mig_obligations.specs.Shaped as shaped;
ghost use Rattle.mig_certificate.specs.BrokenPlace as spec;

use mig_base::same_text;
use mig_schema::{Body, ColId, Function, Job, Param, Program, Schema, kind_of, same_kind};

/// Whether two lists of columns, each over its schema, are equally long and have equal kinds at each place.
pub(crate) fn same_kinds(source: &Schema, target: &Schema, left: &[ColId], right: &[ColId]) -> bool
    ensures { result ≡ shaped.same_kinds source.now target.now left.now right.now }
{
    match left {
        [] => right.is_empty(),
        [c, cs @ ..] => match right {
            [] => false,
            [d, ds @ ..] => {
                same_kind(kind_of(source, *c), kind_of(target, *d))
                    && same_kinds(source, target, cs, ds)
            }
        },
    }
}

/// Whether two lists of parameters have equal names and kinds.
fn same_params(left: &[Param], right: &[Param]) -> bool
    ensures { result ≡ spec.same_params left.now right.now }
{
    match left {
        [] => right.is_empty(),
        [p, ps @ ..] => match right {
            [] => false,
            [q, qs @ ..] => {
                same_text(&p.name, &q.name) && same_kind(p.kind, q.kind) && same_params(ps, qs)
            }
        },
    }
}

/// Whether two bodies are both updates, or queries whose selected columns have equal kinds.
fn same_body(job: &Job, left: &Body, right: &Body) -> bool
    ensures { result ≡ spec.same_body job.now.source job.now.target left.now right.now }
{
    match (left, right) {
        (Body::Update(_), Body::Update(_)) => true,
        (Body::Query(q), Body::Query(r)) => same_kinds(
            &job.source,
            &job.target,
            q.columns.as_slice(),
            r.columns.as_slice(),
        ),
        _ => false,
    }
}

/// Whether one of two functions is missing, or they are not the same.
fn differ(job: &Job, left: Option<&Function>, right: Option<&Function>) -> bool
    ensures { result ≡ spec.differ job.now.source job.now.target (option_copied left.entry) (option_copied right.entry) }
{
    match (left, right) {
        (None, None) => false,
        (Some(f), Some(g)) => {
            !(same_text(&f.name, &g.name)
                && same_params(f.params.as_slice(), g.params.as_slice())
                && same_body(job, &f.body, &g.body))
        }
        _ => true,
    }
}

/// The first number at which the programs' functions are not the same.
pub(crate) fn first_differing(job: &Job, program: &Program) -> Option<usize>
    ensures { IsFirst (λ n. n ∷ []) (λ n. spec.differ job.now.source job.now.target (slice_get job.now.program.functions n) (slice_get program.now.functions n)) result }
{
    let old = &job.program.functions;
    let new = &program.functions;
    for n in 0..old.len().max(new.len()) {
        if differ(job, old.get(n), new.get(n)) {
            return Some(n);
        }
    }
    None
}
