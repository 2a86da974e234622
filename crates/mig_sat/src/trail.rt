// The steps of a search, with the value that they give each variable.
ghost use Rattle.std.specs.Prelude.{◌≡◌, ℕ, ◌<◌, ◌∷◌, [], Some, length, OnOk, OnErr, IfOk, IfSome, IfNone, MatchOption, MatchBool, ◌≤◌, None};
ghost use Rattle.mig_sat.specs.Models.{value_of};
ghost use Rattle.mig_sat.specs.Steps.{value_at, HasValuesBelow, turned_back, lit_at};

use crate::clauses::{Model, SatLit};
use crate::steps::Step;
use mig_base::Seq;
use std::alloc::{AllocError, Global};
use std::marker;

/// Literals that were made true, one for a variable. Contracts see the number of variables, and the steps from the newest on.
#[derive(Drop)]
pub struct Trail {
    size: u32,
    values: Vec<Option<bool>>,
    steps: Vec<Step>,
}

impl marker::Model for Trail {
    ghost use Rattle.mig_sat.specs.Steps.{Path};
    ghost use Rattle.mig_sat.specs.TrailInside.{path_of, IsKept};

    ghost Value = { Path };

    ghost view = { path_of };

    ghost invariant = { IsKept };
}

impl Trail {
    /// No step, over so many variables.
    pub fn new(alloc: Global, size: u32) -> Result<Self, AllocError>
        ensures { IfOk result (λ t. (t.size ≡ size) × (t.steps ≡ [])) }
    {
        let values = vec![in alloc; None; size as usize]?;
        Ok(Trail {
            size,
            values,
            steps: Vec::new(alloc),
        })
    }

    /// How many steps there are.
    pub fn len(&self) -> usize
        ensures is { result ≡ length self.now.steps }
        ensures most { result ≤ self.now.size }
    {
        self.steps.len()
    }

    /// The literal of a step, counted from the oldest, 0; `None` where there is no such step.
    pub(crate) fn lit(&self, at: usize) -> Option<SatLit>
        ensures { result ≡ lit_at self.now.steps at }
    {
        let step = self.steps.get(at)?;
        Some(step.lit)
    }

    /// What the steps give a variable.
    pub fn value(&self, var: u32) -> Option<bool>
        requires { var < self.now.size }
        ensures { result ≡ value_at var self.now.steps }
    {
        self.values[var as usize]
    }

    /// Makes one more literal true, of a variable without a value. On want of memory nothing changes.
    pub fn push(&mut self, step: Step) -> Result<(), AllocError>
        requires var { step.lit.var < self.old.size }
        requires fresh { value_at step.lit.var self.old.steps ≡ None }
        ensures size { self.new.size ≡ self.old.size }
        ensures ok { OnOk result (self.new.steps ≡ step ∷ self.old.steps) }
        ensures err { OnErr result (self.new.steps ≡ self.old.steps) }
        ensures room { length self.old.steps < self.old.size }
    {
        self.steps.push(step)?;
        self.values[step.lit.var as usize] = Some(step.lit.positive);
        Ok(())
    }

    /// Takes the newest step back; `None` where there is none.
    pub fn pop(&mut self) -> Option<Step>
        ensures size { self.new.size ≡ self.old.size }
        ensures newest { MatchOption result (self.old.steps ≡ []) (λ s. self.old.steps ≡ s ∷ self.new.steps) }
        ensures room { length self.old.steps ≤ self.old.size }
        ensures free { IfSome result (λ s. (s.lit.var < self.old.size) × (value_at s.lit.var self.new.steps ≡ None)) }
    {
        let step = self.steps.pop()?;
        self.values[step.lit.var as usize] = None;
        Some(step)
    }

    /// The least variable without a value; `None` where each has one.
    pub fn next_free(&self) -> Option<u32>
        ensures free { IfSome result (λ v. (v < self.now.size) × (value_at v self.now.steps ≡ None)) }
        ensures least { IfSome result (λ v. HasValuesBelow self.now.steps v) }
        ensures none { IfNone result (HasValuesBelow self.now.steps self.now.size) }
    {
        for var in 0..self.size {
            if self.values[var as usize].is_none() {
                return Some(var);
            }
        }
        None
    }

    /// The values as a model, where each variable has one.
    pub fn to_model(&self, alloc: Global) -> Result<Model, AllocError>
        requires { HasValuesBelow self.now.steps self.now.size }
        ensures size { IfOk result (λ m. length m.values ≡ self.now.size) }
        ensures values { IfOk result (λ m. (v : ℕ) → v < self.now.size → value_at v self.now.steps ≡ Some (value_of m.values v)) }
    {
        let values = self
            .values
            .iter()
            .map(|value| value.unwrap_or(false))
            .collect(alloc)?;
        Ok(Model {
            values: Seq::from_vec(values),
        })
    }

    /// Takes back the steps after the newest choice, and puts the opposite of the choice in its place as a literal that
    /// follows. False where there is no choice; on want of memory the choice is gone too.
    pub fn turn_back(&mut self) -> Result<bool, AllocError>
        ensures size { self.new.size ≡ self.old.size }
        ensures turned { IfOk result (λ turned. MatchBool turned (turned_back self.old.steps ≡ Some self.new.steps) (turned_back self.old.steps ≡ None)) }
    {
        while let Some(step) = self.pop() {
            if step.chosen {
                let lit = SatLit {
                    var: step.lit.var,
                    positive: !step.lit.positive,
                };
                self.push(Step { lit, chosen: false })?;
                return Ok(true);
            }
        }
        Ok(false)
    }
}
