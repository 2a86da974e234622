// The first model of clauses.
ghost use Rattle.std.specs.Prelude.{IfOk, IfSome, IfNone};
ghost use Rattle.mig_sat.specs.Models.{IsInRange, IsFirstModel, HasNoModel};

use crate::advancing::advance;
use crate::agenda::Agenda;
use crate::clauses::{Cnf, Model};
use crate::looking::look;
use crate::steps::Found;
use crate::trail::Trail;
use std::alloc::{AllocError, Global};

/// The first model, where models are ordered by variable and true comes before false; `None` exactly where there is none.
///
/// The variable of each literal must be below `vars`. The only error is want of memory. Without clauses all is true.
pub fn solve(alloc: Global, cnf: &Cnf) -> Result<Option<Model>, AllocError>
    requires { IsInRange cnf.now }
    ensures first { IfOk result (λ o. IfSome o (λ m. IsFirstModel cnf.now m.values)) }
    ensures none { IfOk result (λ o. IfNone o (HasNoModel cnf.now)) }
{
    let mut trail = Trail::new(alloc, cnf.vars)?;
    let mut agenda = Agenda::new(alloc, cnf)?;
    loop {
        let found = look(cnf, &mut agenda, &trail);
        if let Found::Full = found {
            return Ok(Some(trail.to_model(alloc)?));
        }
        if !advance(found, &mut trail)? {
            return Ok(None);
        }
        agenda.shorten(trail.len());
    }
}
