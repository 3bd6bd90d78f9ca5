// The neighbour lists of every node: which nodes its stored entries name, by number or by strength.
#![tactic(auto)]

mod blocks; // blocks.rt: the matrix in blocks
mod build; // build.rt: the lists built by policy
mod checks; // checks.rt: the checks after 1 to 8
mod entries; // entries.rt: the entries of one node
mod graph; // graph.rt: the lists of all nodes
mod links; // links.rt: the nodes that a node's entries name
mod node; // node.rt: one node's list
mod norms; // norms.rt: the diagonal norms
mod order; // order.rt: merge sort by strength
mod strengths; // strengths.rt: the strengths of a node's links
mod sums; // sums.rt: sums of squares towards nodes

ghost use Rattle.std.specs.Prelude.{◌≡◌, length};
ghost use Rattle.definitions.specs.Answers.{answer_of};
ghost use Rattle.definitions.specs.Numbers.{zeroᶠ};
ghost use Rattle.definitions.specs.Refusal.{result_left, work_left};
ghost use Rattle.csr32.specs.Seen.{lent};
ghost use Rattle.adjacency.specs.Within.{read_of, neighbours_within};

use blocks::Blocks;
use build::build;
use checks::fits;
use csr32::Csr;
use definitions::{Refusal, TwoLevelAggregation};
use links::reciprocal_of;

// The causes 1 to 7, and 8 where strengths are compared: the other policies look at no value.
#[tactic(auto, unfolding(crate::specs::Within::read_of))]
pub fn readable(a: &Csr<'_>, aggregation: TwoLevelAggregation) -> Result<(), Refusal>
    ensures { result ≡ answer_of (read_of aggregation (lent a.now)) }
{
    match aggregation {
        TwoLevelAggregation::Contiguous | TwoLevelAggregation::Graph => a.structure(),
        TwoLevelAggregation::StrongGraph => a.validate(),
    }
}

// Puts the offsets of the lists, nodes + 1 many, at work_ints[base..], and behind them the lists end to end.
pub fn neighbours(
    a: &Csr<'_>,
    block_size: usize,
    aggregation: TwoLevelAggregation,
    base: usize,
    work_ints: &mut [u32],
    work_floats: &mut [f64],
) -> Result<(), Refusal>
    ensures { let call = neighbours_within aggregation (lent a.now) block_size base (length work_ints.old) (length work_floats.old) in
        (result ≡ answer_of call)
        × ((work_ints.new ≡ result_left 0 call work_ints.old) × (work_floats.new ≡ work_left zeroᶠ call work_floats.old)) }
{
    readable(a, aggregation)?;
    fits(a, block_size, base, work_ints.len(), work_floats.len())?;
    let size = block_size as u32;
    let blocks = Blocks {
        strong: matches!(aggregation, TwoLevelAggregation::StrongGraph),
        size,
        reciprocal: reciprocal_of(size),
        nodes: a.rows / block_size,
        row_ptr: a.row_ptr,
        col_idx: a.col_idx,
        values: a.values,
    };
    build(aggregation, &blocks, base, work_ints, work_floats);
    Ok(())
}
