// Where a proof of a pair of functions can be broken.

/// A place in an entry.
#[derive(Clone, Copy, Debug, PartialEq, Eq)]
pub(crate) enum InEntry {
    /// The entry is not there, or makes another claim.
    Missing,
    /// This step of both blocks doesn't follow.
    Step(usize),
    /// The ends differ.
    Ends,
}

/// A place in the proof of a pair.
#[derive(Clone, Copy, Debug, PartialEq, Eq)]
pub(crate) enum InPair {
    /// The proof is not there, or has another name.
    Missing,
    /// A place in the entry of this number.
    Entry(usize, InEntry),
    /// An entry stands behind the last obligation.
    Extra,
}
