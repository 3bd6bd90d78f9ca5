// The strengths of a node's links.
ghost use Rattle.std.specs.Prelude.{◌≡◌, ◌<◌, ◌≤◌, length};
ghost use Rattle.laws.specs.Bounds.{Below};
ghost use Rattle.adjacency.specs.Blocks.{entries_at};
ghost use Rattle.adjacency.specs.Strengths.{cleared, weighed, strong_of, measured};

use super::norms::NormedBlocks;
use super::sums::{clear, weigh};
use root::{StartTable, root_by};

// From the sum of squares towards a node, and both nodes' diagonal norms: undivided where the divisor is zero or not finite.
#[tactic(auto, unfolding(crate::specs::Strengths::strong_of, definitions::specs::Neighbours::divides))]
fn strength(sum: f64, p: f64, q: f64, table: &StartTable) -> f64
    ensures { result ≡ strong_of sum p q }
{
    let norm = root_by(table, sum);
    let d = root_by(table, p * q);
    if numbers::finite(d) && 0.0 < d {
        norm / d
    } else {
        norm
    }
}

// The strengths of node v towards the listed nodes.
pub(crate) fn measure(
    a: &NormedBlocks<'_>,
    v: usize,
    list: &[u32],
    sums: &mut [f64],
    strengths: &mut [f64],
)
    requires lengths { (length sums.old ≡ a.now.blocks.nodes) × (length strengths.old ≡ a.now.blocks.nodes) }
    requires below { (v < a.now.blocks.nodes) × Below a.now.blocks.nodes list.now }
    ensures sums_after { let b = a.now.blocks in sums.new ≡ weighed b.size (entries_at b v) (cleared list.now sums.old) }
    ensures strengths_after { strengths.new ≡ measured v list.now sums.new a.now.norms.now strengths.old }
{
    let NormedBlocks {
        blocks,
        norms,
        table,
    } = *a;
    clear(list, sums);
    weigh(&blocks.entries(v), sums);
    for w in list {
        let w = *w as usize;
        strengths[w] = strength(sums[w], norms[v], norms[w], table);
    }
}
