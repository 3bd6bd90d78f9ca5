// One node's list.
ghost use Rattle.std.specs.Prelude.{◌≡◌, ◌+◌, ◌*◌, ◌^◌, ◌<◌, ◌≤◌, length, get_or, set, take};
ghost use Rattle.adjacency.specs.Blocks.{matrix};
ghost use Rattle.adjacency.specs.Collect.{gather, marked, nodes_in};
ghost use Rattle.adjacency.specs.Lists.{Between, Listed};

use super::entries::Entries;
use super::links::collect;
use super::norms::NormedBlocks;
use super::order::sort;
use super::strengths::measure;

// Puts the nodes other than v that the entries name at the front of names, each once, and returns how many.
fn find(e: &Entries<'_>, v: usize, stamps: &mut [u32], names: &mut [u32]) -> usize
    requires v_lt_nodes { (v < e.now.nodes) × (e.now.nodes < 2 ^ 31) }
    requires lengths { (length stamps.old ≡ e.now.nodes) × (length e.now.col_idx.now ≤ length names.old) }
    ensures value { result ≡ length (gather (v + 1) (set stamps.old v (v + 1)) (nodes_in e.now.size e.now.col_idx.now)) }
    ensures names_after { take result names.new ≡ gather (v + 1) (set stamps.old v (v + 1)) (nodes_in e.now.size e.now.col_idx.now) }
    ensures stamps_after { stamps.new ≡ marked (v + 1) (set stamps.old v (v + 1)) (nodes_in e.now.size e.now.col_idx.now) }
{
    let stamp = v as u32 + 1;
    stamps[v] = stamp;
    collect(e, stamp, stamps, names)
}

// Puts node v's list at the front of names, by strength if that is wanted, and returns how many nodes it has.
pub(crate) fn node_list(
    a: &NormedBlocks<'_>,
    v: usize,
    stamps: &mut [u32],
    room: &mut [u32],
    names: &mut [u32],
    sums: &mut [f64],
    strengths: &mut [f64],
) -> usize
    requires between { let b = a.now.blocks in Between b.strong b.nodes v stamps.old sums.old strengths.old }
    requires v_lt_nodes { (v < a.now.blocks.nodes) × (a.now.blocks.nodes ≤ length room.old) }
    requires room_left { let b = a.now.blocks in get_or b.row_ptr.now ((v + 1) * b.size) 0 ≤ get_or b.row_ptr.now (v * b.size) 0 + length names.old }
    ensures { let b = a.now.blocks in Listed b.strong (matrix b) b.size b.nodes v result names.new stamps.new sums.new strengths.new }
{
    let found = find(&a.blocks.entries(v), v, stamps, names);
    let list = &mut names[..found];
    if a.blocks.strong {
        measure(a, v, list, sums, strengths);
    }
    sort(strengths, list, room);
    found
}
