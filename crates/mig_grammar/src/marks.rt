// The limits that kinds, scalars, labels and weights pass.
ghost use Rattle.std.specs.Prelude.{◌≡◌};
ghost use Rattle.mig_schema.specs.Columns.{same_kind};
ghost use Rattle.mig_schema.specs.declared.tables.Kind.TheVariants.{Key};
ghost use Rattle.mig_grammar.specs.Spelling as spell;

use crate::tree::ScalarTree;
use mig_schema::{Kind, Limit};
use mig_tokens::{first_of, full, int_limit, is_label, name_limit, text_limit, weight_of};

/// Whether this is the kind of keys.
pub(crate) fn is_key_kind(kind: Kind) -> bool
    ensures { result ≡ same_kind kind Key }
{
    match kind {
        Kind::Key => true,
        _ => false,
    }
}

/// The limit that a column of this kind passes, where there is room for so many keys.
pub(crate) fn kind_limit(room: usize, kind: Kind) -> Option<Limit>
    ensures { result ≡ spell.kind_mark room kind }
{
    if is_key_kind(kind) {
        full(Limit::Keys, room)
    } else {
        None
    }
}

/// The limit that a scalar passes.
pub(crate) fn scalar_limit(scalar: &ScalarTree) -> Option<Limit>
    ensures { result ≡ spell.scalar_mark scalar.now }
{
    match scalar {
        ScalarTree::Name(name) => name_limit(name.as_slice()),
        ScalarTree::Int(int) => int_limit(int.as_slice()),
        ScalarTree::Text(text) => text_limit(text.as_slice()),
    }
}

/// The limit that the label of a fresh key passes: that of all ints comes first.
pub(crate) fn label_limit(label: &[u8]) -> Option<Limit>
    ensures { result ≡ spell.label_mark label.now }
{
    let own = if is_label(label) {
        None
    } else {
        Some(Limit::Label)
    };
    first_of(int_limit(label), own)
}

/// The limit that a weight passes: that of all ints comes first.
pub(crate) fn weight_limit(weight: &[u8]) -> Option<Limit>
    ensures { result ≡ spell.weight_mark weight.now }
{
    let own = if weight_of(weight) == 0 {
        Some(Limit::Hint)
    } else {
        None
    };
    first_of(int_limit(weight), own)
}
