// The work lists made ready, the lists built, and the rest cleared.
ghost use Rattle.std.specs.Prelude.{◌≡◌, ◌++◌, ◌+◌, ◌*◌, ◌≤◌, length, replicate};
ghost use Rattle.definitions.specs.Numbers.{zeroᶠ};
ghost use Rattle.definitions.specs.Lists.{padded};
ghost use Rattle.definitions.specs.Neighbours.{flat_neighbours};
ghost use Rattle.adjacency.specs.Blocks.{matrix, lists_of};
ghost use Rattle.adjacency.specs.Flat.{flat_of};
ghost use Rattle.adjacency.specs.Within.{compares};

use super::blocks::Blocks;
use super::graph::all_lists;
use super::norms::{NormedBlocks, fill_norms};
use definitions::TwoLevelAggregation;

// The lists, by strength if that is wanted, from the start of `lists` on, and zeros behind them.
fn linked(
    a: &Blocks<'_>,
    stamps: &mut [u32],
    room: &mut [u32],
    lists: &mut [u32],
    floats: &mut [f64],
)
    requires ints_bound { (length stamps.old ≡ a.now.nodes) × (a.now.nodes ≤ length room.old) × (a.now.nodes + 1 + length a.now.col_idx.now ≤ length lists.old) }
    requires floats_bound { length floats.old ≡ 3 * a.now.nodes }
    ensures { lists.new ≡ padded 0 (length lists.old) (flat_of (lists_of a.now) a.now.nodes) }
{
    stamps.fill(0);
    floats.fill(0.0);
    let (offsets, names) = lists.split_at_mut(a.nodes + 1);
    let (sums, rest) = floats.split_at_mut(a.nodes);
    let (norms, strengths) = rest.split_at_mut(a.nodes);
    let table = root::table();
    if a.strong {
        fill_norms(a, norms, &table);
    }
    let normed = NormedBlocks {
        blocks: *a,
        norms,
        table: &table,
    };
    let end = all_lists(&normed, stamps, room, offsets, names, sums, strengths);
    names[end..].fill(0);
}

// Fills the work list by policy. What stands before base serves as stamps and as room for sorting, and is cleared after, like the floats.
pub(crate) fn build(
    aggregation: TwoLevelAggregation,
    a: &Blocks<'_>,
    base: usize,
    work_ints: &mut [u32],
    work_floats: &mut [f64],
)
    requires strong { a.now.strong ≡ compares aggregation }
    requires nodes_bound { (2 * a.now.nodes ≤ base) × (base + a.now.nodes + 1 + length a.now.col_idx.now ≤ length work_ints.old) × (3 * a.now.nodes ≤ length work_floats.old) }
    ensures work_ints_after { work_ints.new ≡ padded 0 (length work_ints.old) (replicate base 0 ++ flat_neighbours aggregation (matrix a.now) a.now.size a.now.nodes) }
    ensures work_floats_after { work_floats.new ≡ replicate (length work_floats.old) zeroᶠ }
{
    match aggregation {
        TwoLevelAggregation::Contiguous => work_ints.fill(0),
        TwoLevelAggregation::Graph | TwoLevelAggregation::StrongGraph => {
            let (front, lists) = work_ints.split_at_mut(base);
            let (stamps, room) = front.split_at_mut(a.nodes);
            linked(a, stamps, room, lists, &mut work_floats[..3 * a.nodes]);
            front.fill(0);
        }
    }
    work_floats.fill(0.0);
}
