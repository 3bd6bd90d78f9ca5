// The lists of all nodes, end to end.
ghost use Rattle.std.specs.Prelude.{◌≡◌, ◌+◌, ◌<◌, ◌≤◌, length};
ghost use Rattle.adjacency.specs.Blocks.{matrix, lists_of};
ghost use Rattle.adjacency.specs.Lined.{Lined};
ghost use Rattle.adjacency.specs.Lists.{Between};

use super::node::node_list;
use super::norms::NormedBlocks;

// Puts the lists at names, and where each starts at offsets, and returns their end. The work lists come one by one: a struct of them would be taken apart at each step.
pub(crate) fn all_lists(
    a: &NormedBlocks<'_>,
    stamps: &mut [u32],
    room: &mut [u32],
    offsets: &mut [u32],
    names: &mut [u32],
    sums: &mut [f64],
    strengths: &mut [f64],
) -> usize
    requires between { let b = a.now.blocks in Between b.strong b.nodes 0 stamps.old sums.old strengths.old }
    requires lengths { let b = a.now.blocks in (b.nodes ≤ length room.old) × (length offsets.old ≡ b.nodes + 1) × (length b.col_idx.now ≤ length names.old) }
    ensures { let b = a.now.blocks in Lined (lists_of b) b.nodes result offsets.new names.new }
{
    offsets[0] = 0;
    let mut end = 0;
    for v in 0..a.blocks.nodes {
        end += node_list(a, v, stamps, room, &mut names[end..], sums, strengths);
        offsets[v + 1] = end as u32;
    }
    end
}
