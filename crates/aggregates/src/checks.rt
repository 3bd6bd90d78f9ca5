// The checks of a grouping call, in their order. An accepted call has its neighbour lists handed out.
ghost use Rattle.std.specs.Prelude.{◌≡◌, ◌&&◌, not, ◌+◌, ◌*◌, ◌≤◌, eqb, length, get_or, MatchResult};
ghost use Rattle.definitions.specs.Lists.{falls};
ghost use Rattle.definitions.specs.Refusal.{refused, done};
ghost use Rattle.definitions.specs.Groups.{grouping_call, graph_grouping, listed, no_anchor};
ghost use Rattle.definitions.specs.Matrix.{max_rows};
ghost use Rattle.aggregates.specs.Stored.{offsets_in, neighbours_in, room_for};
ghost use Rattle.aggregates.specs.Within.{lists_call, stored_checks};
ghost use Rattle.aggregates.specs.Checked.{IsLent, IsGroupSize};

use super::lists::Lists;
use definitions::{MAX_ENTRIES, MAX_GROUP, MAX_ROWS, Refusal};

// Are there nodes + 1 offsets, from 0 up to the neighbour count, that do not fall?
fn offsets_fit(nodes: usize, offsets: &[u32], count: usize) -> bool
    requires { nodes ≤ max_rows }
    ensures { let o = offsets.now in result ≡ (eqb (length o) (nodes + 1) && eqb (get_or o 0 1) 0 && not (falls o) && eqb (get_or o nodes 0) count) }
{
    offsets.len() == nodes + 1
        && offsets[0] == 0
        && !numbers::falls(offsets)
        && offsets[nodes] as usize == count
}

// The neighbour lists: causes 1, 11, 27, 16 and 28, in this order.
fn check_lists<'a>(
    nodes: usize,
    size: usize,
    offsets: &'a [u32],
    neighbours: &'a [u32],
) -> Result<Lists<'a>, Refusal>
    ensures { let checked = lists_call nodes size offsets.now neighbours.now in
        MatchResult result
        (λ l. (checked ≡ done tt) × IsLent nodes offsets.now neighbours.now l × IsGroupSize size)
        (λ cause. checked ≡ refused cause) }
{
    if MAX_ROWS < nodes || MAX_ENTRIES < neighbours.len() {
        return Err(Refusal::TooLarge);
    }
    if size == 0 || MAX_GROUP < size {
        return Err(Refusal::GroupSize);
    }
    if !offsets_fit(nodes, offsets, neighbours.len()) {
        return Err(Refusal::NeighbourOffsets);
    }
    if nodes == 0 {
        return Err(Refusal::NoNode);
    }
    if numbers::reaches(neighbours, nodes) {
        return Err(Refusal::NeighbourOutside);
    }
    Ok(Lists {
        nodes,
        offsets,
        neighbours,
    })
}

// Causes 1, 11, 27, 16, 28 and 13, in this order.
pub(crate) fn check<'a>(
    nodes: usize,
    size: usize,
    offsets: &'a [u32],
    neighbours: &'a [u32],
    room: usize,
    work: usize,
) -> Result<Lists<'a>, Refusal>
    ensures { let call = grouping_call nodes size offsets.now neighbours.now room work in
        MatchResult result
        (λ l. (call ≡ done (graph_grouping (listed offsets.now neighbours.now) no_anchor nodes size))
        × IsLent nodes offsets.now neighbours.now l × IsGroupSize size
        × (nodes ≤ room) × (8 * nodes + 4 * length neighbours.now + 16 ≤ work))
        (λ cause. call ≡ refused cause) }
{
    let lists = check_lists(nodes, size, offsets, neighbours)?;
    if room < nodes || work < 8 * nodes + 4 * neighbours.len() + 16 {
        return Err(Refusal::ListTooShort);
    }
    Ok(lists)
}

// The same for the neighbour lists at the front of `stored`, with `below` numbers of room. Where `stored` ends first, they are cut off.
pub(crate) fn check_stored<'a>(
    nodes: usize,
    size: usize,
    below: usize,
    stored: &'a [u32],
) -> Result<Lists<'a>, Refusal>
    ensures { let checked = stored_checks nodes size below stored.now in
        let offsets = offsets_in nodes stored.now in let neighbours = neighbours_in nodes stored.now in
        MatchResult result
        (λ l. (checked ≡ done tt) × IsLent nodes offsets neighbours l × IsGroupSize size × (room_for nodes (length neighbours) ≤ below))
        (λ cause. checked ≡ refused cause) }
{
    if MAX_ROWS < nodes {
        return Err(Refusal::TooLarge);
    }
    let (offsets, behind) = stored.split_at((nodes + 1).min(stored.len()));
    let count = stored.get(nodes).copied().unwrap_or(0) as usize;
    let neighbours = &behind[..count.min(behind.len())];
    let lists = check_lists(nodes, size, offsets, neighbours)?;
    if below < 6 * nodes + neighbours.len() + 16 {
        return Err(Refusal::ListTooShort);
    }
    Ok(lists)
}
