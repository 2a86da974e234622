// Picks of options, and blocks of picks.
use mig_base::Seq;

/// An option of a hole, both by their numbers from 0.
#[derive(Clone, Copy, Debug, PartialEq, Eq)]
pub struct Pick {
    pub hole: u32,
    pub option: u32,
}

/// Covers each choice that has all of its picks, and so each choice where it has none.
#[derive(Debug, Drop)]
pub struct Block {
    pub picks: Seq<Pick>,
}
