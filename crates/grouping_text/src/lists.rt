// Reading what each node lists.
ghost use Rattle.std.specs.Prelude.{◌≡◌, List, [], ◌∷◌, ◌++◌, ℕ, ◌+◌, ◌≤◌, length, take, IfOk};
ghost use Rattle.definitions.specs.Text.{max_text_neighbours};
ghost use Rattle.grouping_text.specs.Numbers.{listing, node_from, lists_from};
ghost use Rattle.grouping_text.specs.Steps.{outcome_of};

use crate::Got;
use definitions::{MAX_TEXT_NEIGHBOURS, Refusal};

// Copies what the first node of `numbers` lists into neighbours[have..].
fn node_of<'a>(numbers: &'a [u32], neighbours: &mut [u32], have: usize) -> Result<Got<'a>, Refusal>
    requires { (have ≤ max_text_neighbours) × (max_text_neighbours ≤ length neighbours.old) }
    ensures lists { (offsets : List ℕ) → outcome_of (λ g. listing (offsets ++ (g.count ∷ [])) (take g.count neighbours.new) g.rest.now) result
        ≡ node_from offsets (take have neighbours.old) numbers.now }
    ensures few { IfOk result (λ g. g.count ≤ max_text_neighbours) }
{
    let Some((&count, rest)) = numbers.split_first() else {
        return Err(Refusal::NeighbourOffsets);
    };
    let count = count as usize;
    if MAX_TEXT_NEIGHBOURS - have < count {
        return Err(Refusal::TooLarge);
    }
    let Some((named, rest)) = rest.split_at_checked(count) else {
        return Err(Refusal::NeighbourOffsets);
    };
    let end = have + count;
    neighbours[have..end].copy_from_slice(named);
    Ok(Got { count: end, rest })
}

// Reads the lists of all nodes: offsets[0..nodes + 1], and as many neighbours as the answer says.
pub(crate) fn nodes_of<'a>(
    numbers: &'a [u32],
    nodes: usize,
    offsets: &mut [u32],
    neighbours: &mut [u32],
) -> Result<Got<'a>, Refusal>
    requires { (nodes + 1 ≤ length offsets.old) × (max_text_neighbours ≤ length neighbours.old) }
    ensures lists { outcome_of (λ g. listing (take (nodes + 1) offsets.new) (take g.count neighbours.new) g.rest.now) result
        ≡ lists_from nodes (listing (0 ∷ []) [] numbers.now) }
    ensures few { IfOk result (λ g. g.count ≤ max_text_neighbours) }
{
    offsets[0] = 0;
    let mut got = Got {
        count: 0,
        rest: numbers,
    };
    for i in 0..nodes {
        got = node_of(got.rest, neighbours, got.count)?;
        offsets[i + 1] = got.count as u32;
    }
    Ok(got)
}
