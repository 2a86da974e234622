// What a check of a certificate answers.

/// Why a certificate is not valid at a place.
#[derive(Clone, Copy, Debug, PartialEq, Eq)]
pub enum Why {
    /// The programs have not the same functions, or an invariant is not shaped.
    Shape,
    /// A pair of functions or an obligation has nothing that shows it.
    Missing,
    /// Something stands behind the last pair or the last obligation.
    Extra,
    /// A step doesn't follow.
    NoFollow,
    /// The steps of the two sides come to different ends.
    EndsDiffer,
}

/// The verdict on a certificate.
#[derive(Clone, Copy, Debug, PartialEq, Eq)]
pub enum Verdict {
    /// It is valid.
    Accepted,
    /// It is not valid, and this is the first place at which it is broken. Numbers count from 0; the steps of both sides
    /// of an obligation are numbered on, the old side's first.
    Rejected {
        pair: u32,
        obligation: u32,
        step: u32,
        why: Why,
    },
}
