// The nodes that a node's entries name.
ghost use Rattle.std.specs.Prelude.{◌≡◌, ◌^◌, ◌<◌, ◌≤◌, length, take};
ghost use Rattle.adjacency.specs.Collect.{gather, marked, nodes_in, reciprocal_of};

use super::entries::Entries;

// 2^32 / size, rounded up: a product with it tells a column's node without a division.
pub(crate) fn reciprocal_of(size: u32) -> usize
    requires { 0 < size }
    ensures { result ≡ reciprocal_of size }
{
    (0xffff_ffff / size) as usize + 1
}

// Puts the nodes that the entries name and that don't bear the stamp at the front of names, each once, stamps them, and returns how many.
pub(crate) fn collect(e: &Entries<'_>, stamp: u32, stamps: &mut [u32], names: &mut [u32]) -> usize
    requires { (length stamps.old ≡ e.now.nodes) × (e.now.nodes < 2 ^ 32) × (length e.now.col_idx.now ≤ length names.old) }
    ensures value { result ≡ length (gather stamp stamps.old (nodes_in e.now.size e.now.col_idx.now)) }
    ensures names_after { take result names.new ≡ gather stamp stamps.old (nodes_in e.now.size e.now.col_idx.now) }
    ensures stamps_after { stamps.new ≡ marked stamp stamps.old (nodes_in e.now.size e.now.col_idx.now) }
{
    // A copy: behind the reference its numbers would be read anew after every store.
    let e = *e;
    let mut count = 0;
    for column in e.col_idx {
        let w = e.node_of(*column);
        if stamps[w] != stamp {
            stamps[w] = stamp;
            names[count] = w as u32;
            count += 1;
        }
    }
    count
}
