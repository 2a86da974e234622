// What the certificate of an answer says, with its names as they are written.
use mig_base::Seq;
use mig_certificate::PairProof;
use mig_grammar::{ColName, JoinTree};
use mig_schema::Side;

/// The columns `outs` of the rows of a join.
#[derive(Debug, Drop)]
pub struct ViewTree {
    pub join: JoinTree,
    pub outs: Seq<ColName>,
}

/// What may hold of two columns of one side.
#[derive(Clone, Copy, Debug, PartialEq, Eq)]
pub enum Relation {
    /// No value stands in both.
    Apart,
    /// Each value of the left one stands in the right one.
    Within,
}

/// An invariant.
#[derive(Debug, Drop)]
pub enum FactTree {
    /// An old and a new view have the same rows.
    Views {
        source: ViewTree,
        target: ViewTree,
    },
    /// No two rows have the same value in the column.
    Unique {
        side: Side,
        column: ColName,
    },
    /// Two columns of one side are related.
    Columns {
        relation: Relation,
        side: Side,
        left: ColName,
        right: ColName,
    },
}

/// Invariants, and what is shown of each pair of functions.
#[derive(Debug, Drop)]
pub struct CertificateTree {
    pub invariants: Seq<FactTree>,
    pub pairs: Seq<PairProof>,
}

/// The grammar of certificates, whose items stand in lists.
pub(crate) enum Certificates {}

/// The grammar of paths.
pub(crate) enum Paths {}
