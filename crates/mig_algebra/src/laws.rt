// What holds of the orders.
ghost use Rattle.std.specs.Prelude.{◌≡◌, ◌↔◌};
ghost use Rattle.std.specs.Cmp.{IsTotalOrder};
ghost use Rattle.std.specs.declared.cmp.Ordering.TheVariants.{Equal};
ghost use Rattle.mig_algebra.specs.declared.atoms.Var.{Var};
ghost use Rattle.mig_algebra.specs.declared.atoms.Atom.{Atom};
ghost use Rattle.mig_algebra.specs.declared.literals.Lit.{Lit};
ghost use Rattle.mig_algebra.specs.declared.terms.Term.{Term};
ghost use Rattle.mig_algebra.specs.Atoms.{atom_order};
ghost use Rattle.mig_algebra.specs.Orders.{var_order, lit_order, term_order};

/// The orders of atoms, variables, literals and terms are total.
pub fn orders_are_total()
    ensures atoms { IsTotalOrder atom_order }
    ensures vars { IsTotalOrder var_order }
    ensures lits { IsTotalOrder lit_order }
    ensures terms { IsTotalOrder term_order }
{}

/// Two values tie exactly where they are the same.
pub fn equal_values_tie()
    ensures atoms { (a b : Atom) → (atom_order a b ≡ Equal) ↔ (a ≡ b) }
    ensures vars { (a b : Var) → (var_order a b ≡ Equal) ↔ (a ≡ b) }
    ensures lits { (a b : Lit) → (lit_order a b ≡ Equal) ↔ (a ≡ b) }
    ensures terms { (a b : Term) → (term_order a b ≡ Equal) ↔ (a ≡ b) }
{}
