// The printed answer of a call that was read whole.
ghost use Rattle.std.specs.Prelude.{◌≡◌, ◌+◌, ◌*◌, ◌≤◌, length, ◌++◌};
ghost use Rattle.definitions.specs.Groups.{grouping_call};
ghost use Rattle.definitions.specs.Text.{printed, line, decimal, groups_word, max_text_nodes, max_text_neighbours};
ghost use Rattle.grouping_text.specs.Puts.{Puts, lines_from};

use crate::printing::{put_head, put_ids};
use definitions::{MAX_TEXT_NEIGHBOURS, MAX_TEXT_NODES};

// What grouping works in, at the largest text.
const WORK: usize = 8 * MAX_TEXT_NODES + 4 * MAX_TEXT_NEIGHBOURS + 16;

// Prints the group count, then node and id.
fn put_groups(out: &mut [u8], count: u64, ids: &[u32]) -> usize
    ensures { Puts out.old 0 (line groups_word (decimal count) ++ lines_from 0 ids.now) out.new result }
{
    let at = put_head(out, b"groups", count);
    put_ids(out, at, ids)
}

// Groups into `ids` and prints.
fn run(
    nodes: usize,
    size: usize,
    offsets: &[u32],
    neighbours: &[u32],
    ids: &mut [u32],
    work: &mut [u32],
    out: &mut [u8],
) -> usize
    requires { (length ids.old ≡ nodes) × (length work.old ≡ 8 * nodes + 4 * length neighbours.now + 16) }
    ensures { let g = grouping_call nodes size offsets.now neighbours.now nodes (8 * nodes + 4 * length neighbours.now + 16) in
        Puts out.old 0 (printed g) out.new result }
{
    let found = aggregates::group(nodes, size, offsets, neighbours, ids, work);
    match found {
        Err(cause) => put_head(out, b"refused", causes::number_of(cause)),
        Ok(count) => put_groups(out, count, ids),
    }
}

// Groups and prints, with lists of its own.
pub(crate) fn answer(
    nodes: usize,
    size: usize,
    offsets: &[u32],
    neighbours: &[u32],
    out: &mut [u8],
) -> usize
    requires { (nodes ≤ max_text_nodes) × (length neighbours.now ≤ max_text_neighbours) }
    ensures { let g = grouping_call nodes size offsets.now neighbours.now nodes (8 * nodes + 4 * length neighbours.now + 16) in
        Puts out.old 0 (printed g) out.new result }
{
    let mut ids = [0u32; MAX_TEXT_NODES];
    let mut work = [0u32; WORK];
    let room = 8 * nodes + 4 * neighbours.len() + 16;
    run(
        nodes,
        size,
        offsets,
        neighbours,
        &mut ids[..nodes],
        &mut work[..room],
        out,
    )
}
