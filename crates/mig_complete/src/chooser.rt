// A chooser: the holes' sizes, the blocks put so far, and the clauses that say both.
ghost use Rattle.std.specs.Prelude.{◌≡◌, ◌<◌, ◌^◌, ◌++◌, ◌∷◌, [], All, IfOk, IfSome, IfNone, OnOk, OnErr};
ghost use Rattle.mig_sketch.specs.Choices.{total, sizes_of as counts};
ghost use Rattle.mig_complete.specs.Covering.{IsFirstChoice, HasNoChoice, IsInSizes};

use crate::blocks::Block;
use crate::coding::{add_holes, block_clause, count};
use crate::decoding::decode;
use mig_base::Seq;
use mig_sat::{Cnf, SatLit, solve};
use mig_sketch::{Choice, Hole, Plan};
use std::alloc::{AllocError, Global};
use std::marker::Model;

/// Gives choices of one option for each hole, and takes blocks of those that are not to be given again. Contracts see how many options each hole has, and the blocks in the order in which they were put.
#[derive(Drop)]
pub struct Chooser {
    alloc: Global,
    sizes: Seq<u32>,
    blocks: Vec<Block>,
    cnf: Cnf,
}

impl Model for Chooser {
    ghost use Rattle.mig_complete.specs.Covering.{Choices};
    ghost use Rattle.mig_complete.specs.ChooserInside.{choices_of, IsCoded};

    ghost Value = { Choices };

    ghost view = { choices_of };

    ghost invariant = { IsCoded };
}

/// How many options each hole has.
fn sizes_of(alloc: Global, holes: &[Hole]) -> Result<Seq<u32>, AllocError>
    requires { total (counts holes.now) < 2 ^ 31 }
    ensures { IfOk result (λ s. s ≡ counts holes.now) }
{
    let mut sizes = Vec::new(alloc);
    for hole in holes {
        let size = hole.options.len();
        sizes.push(size as u32)?;
    }
    Ok(Seq::from_vec(sizes))
}

/// Puts a clause and a block at the ends of their lists, or neither.
fn add(
    clauses: &mut Seq<Seq<SatLit>>,
    clause: Seq<SatLit>,
    blocks: &mut Vec<Block>,
    block: Block,
) -> Result<(), AllocError>
    ensures ok { OnOk result ((clauses.new ≡ clauses.old ++ clause ∷ []) × (blocks.new.items ≡ blocks.old.items ++ block ∷ [])) }
    ensures err { OnErr result ((clauses.new ≡ clauses.old) × (blocks.new.items ≡ blocks.old.items)) }
{
    blocks.push(block)?;
    if clauses.push(clause).is_err() {
        blocks.pop();
        return Err(AllocError);
    }
    Ok(())
}

impl Chooser {
    /// A chooser for the holes of the plan, without a block. It asks for fewer than 2^31 options over all holes. `AllocError` comes only where memory is wanting.
    pub fn new(alloc: Global, plan: &Plan) -> Result<Chooser, AllocError>
        requires { total (counts plan.now.holes) < 2 ^ 31 }
        ensures { IfOk result (λ c. c ≡ record { sizes = counts plan.now.holes; blocks = [] }) }
    {
        let sizes = sizes_of(alloc, plan.holes.as_slice())?;
        let mut clauses = Seq::new(alloc);
        add_holes(alloc, sizes.as_slice(), &mut clauses)?;
        let options = count(sizes.as_slice());
        Ok(Chooser {
            alloc,
            sizes,
            blocks: Vec::new(alloc),
            cnf: Cnf {
                vars: options + options,
                clauses,
            },
        })
    }

    /// The first choice that no block covers, by its picks, the first hole's first; `None` exactly where each choice is covered. It has one pick for each hole. `AllocError` comes only where memory is wanting.
    pub fn next(&self, alloc: Global) -> Result<Option<Choice>, AllocError>
        ensures first { IfOk result (λ o. IfSome o (λ c. IsFirstChoice self.now.sizes self.now.blocks c.picks)) }
        ensures none { IfOk result (λ o. IfNone o (HasNoChoice self.now.sizes self.now.blocks)) }
    {
        match solve(alloc, &self.cnf)? {
            None => Ok(None),
            Some(model) => {
                let picks = decode(alloc, self.sizes.as_slice(), model.values.as_slice())?;
                Ok(Some(Choice { picks }))
            }
        }
    }

    /// Blocks the choices that have all picks of the block, each of which is an option that its hole has. `AllocError` comes only where memory is wanting, and then nothing changes.
    pub fn block(&mut self, block: Block) -> Result<(), AllocError>
        requires { All (IsInSizes self.old.sizes) block.picks }
        ensures ok { OnOk result (self.new ≡ record { sizes = self.old.sizes; blocks = self.old.blocks ++ block ∷ [] }) }
        ensures err { OnErr result (self.new ≡ self.old) }
    {
        let clause = block_clause(self.alloc, self.sizes.as_slice(), &block)?;
        add(&mut self.cnf.clauses, clause, &mut self.blocks, block)
    }
}
