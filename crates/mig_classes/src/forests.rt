// Numbers grouped into classes, each of which is found by its least number.
ghost use Rattle.std.specs.Prelude.{◌≡◌, ℕ, ◌<◌, ◌≤◌, length, IfOk};
ghost use Rattle.mig_algebra.specs.declared.atoms.Atom.{Atom};
ghost use Rattle.mig_classes.specs.Classes.{merged};
ghost use Rattle.mig_classes.specs.Forests.{IsForest, LeadsTo, RisesTo, parent};

use std::alloc::{AllocError, Global};

/// So many numbers, from 0 on, each a class of its own.
pub(crate) fn singles(alloc: Global, count: usize) -> Result<Vec<usize>, AllocError>
    ensures count { IfOk result (λ v. length v.items ≡ count) }
    ensures own { IfOk result (λ v. (i : ℕ) → i < count → parent v.items i ≡ i) }
{
    let mut parents = Vec::with_capacity(alloc, count)?;
    for i in 0..count {
        parents.push(i)?;
    }
    Ok(parents)
}

/// The least number of a number's class. The numbers on the way lead there faster from then on.
pub(crate) fn root(parents: &mut Vec<usize>, number: usize) -> usize
    requires forest { IsForest parents.old.items }
    requires within { number < length parents.old.items }
    ensures least { result ≤ number }
    ensures count { length parents.new.items ≡ length parents.old.items }
    ensures forest { IsForest parents.new.items }
    ensures leads { (own least : ℕ → Atom) → LeadsTo own least parents.old.items → LeadsTo own least parents.new.items }
    ensures same { (own least : ℕ → Atom) → LeadsTo own least parents.old.items → least result ≡ least number }
    ensures own { (own least : ℕ → Atom) → LeadsTo own least parents.old.items → own result ≡ least number }
{
    let mut at = number;
    while parents[at] != at {
        let above = parents[parents[at]];
        parents[at] = above;
        at = above;
    }
    at
}

/// Makes the classes of two numbers one.
pub(crate) fn unite(parents: &mut Vec<usize>, left: usize, right: usize)
    requires forest { IsForest parents.old.items }
    requires left { left < length parents.old.items }
    requires right { right < length parents.old.items }
    ensures count { length parents.new.items ≡ length parents.old.items }
    ensures forest { IsForest parents.new.items }
    ensures leads { (own least : ℕ → Atom) → RisesTo (length parents.old.items) own → LeadsTo own least parents.old.items → LeadsTo own (λ k. merged (least left) (least right) (least k)) parents.new.items }
{
    let left = root(parents, left);
    let right = root(parents, right);
    if left < right {
        parents[right] = left;
    } else {
        parents[left] = right;
    }
}
