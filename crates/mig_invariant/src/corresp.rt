// Correspondences: which column of the old schema goes to which of the new one.
ghost use Rattle.std.specs.Prelude.{◌≡◌, IfOk};
ghost use Rattle.mig_invariant.specs.Images as spec;

use mig_base::{Exact, Seq};
use mig_schema::{ColId, same_col};
use std::alloc::{AllocError, Global};

/// A column of the old schema, `source`, and one of the new, `target`.
#[derive(Clone, Copy, Debug, PartialEq, Eq)]
pub struct ColPair {
    pub source: ColId,
    pub target: ColId,
}

/// Pairs of an old and a new column. The new columns of an old one are its images.
#[derive(Debug, Drop)]
pub struct Corr {
    pub pairs: Seq<ColPair>,
}

impl Corr {
    /// Whether the new column `target` is an image of the old column `source`. Any numbers may be asked for.
    pub fn has(&self, source: ColId, target: ColId) -> bool
        ensures { result ≡ spec.is_pair self.now source target }
    {
        self.pairs.as_slice().iter().any(|pair| same_col(pair.source, source)
            && same_col(pair.target, target))
    }

    /// The images of the old column `source` among these new ones, in their order: of all columns of the new schema, its images in
    /// schema order. The only error is want of memory.
    pub fn images(
        &self,
        alloc: Global,
        columns: &[ColId],
        source: ColId,
    ) -> Result<Seq<ColId>, AllocError>
        ensures { IfOk result (λ list. list ≡ spec.images_among columns.now self.now source) }
    {
        let mut list = Seq::new(alloc);
        for target in columns {
            if self.has(source, *target) {
                list.push(*target)?;
            }
        }
        Ok(list)
    }
}

impl Exact for ColPair {
    fn same(&self, other: &ColPair) -> bool {
        *self == *other
    }

    fn twin(&self, _alloc: Global) -> Result<ColPair, AllocError> {
        Ok(*self)
    }
}

impl Exact for Corr {
    fn same(&self, other: &Corr) -> bool {
        self.pairs.same(&other.pairs)
    }

    fn twin(&self, alloc: Global) -> Result<Corr, AllocError> {
        let pairs = self.pairs.twin(alloc)?;
        Ok(Corr { pairs })
    }
}
