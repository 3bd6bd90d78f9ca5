// What the numbers of a text ask.
ghost use Rattle.std.specs.Prelude.{◌≡◌, ◌+◌, ◌≤◌, length, take, IfOk};
ghost use Rattle.definitions.specs.Text.{max_text_nodes, max_text_neighbours};
ghost use Rattle.grouping_text.specs.Numbers.{asked_in};
ghost use Rattle.grouping_text.specs.Steps.{outcome_of, asked_of};

use crate::Asking;
use crate::lists::nodes_of;
use definitions::{MAX_TEXT_NODES, Refusal};

// Nodes, size and the lists: offsets[0..nodes + 1], and as many neighbours as the answer says. `whole` tells that no number was left out.
pub(crate) fn ask(
    numbers: &[u32],
    whole: bool,
    offsets: &mut [u32],
    neighbours: &mut [u32],
) -> Result<Asking, Refusal>
    requires { (max_text_nodes + 1 ≤ length offsets.old) × (max_text_neighbours ≤ length neighbours.old) }
    ensures asks { outcome_of (asked_of offsets.new neighbours.new) result ≡ asked_in numbers.now whole }
    ensures few { IfOk result (λ a. (a.nodes ≤ max_text_nodes) × (a.count ≤ max_text_neighbours)) }
{
    let Some((&nodes, rest)) = numbers.split_first() else {
        return Err(Refusal::NeighbourOffsets);
    };
    let nodes = nodes as usize;
    if MAX_TEXT_NODES < nodes {
        return Err(Refusal::TooLarge);
    }
    let Some((&size, rest)) = rest.split_first() else {
        return Err(Refusal::NeighbourOffsets);
    };
    let got = nodes_of(rest, nodes, offsets, neighbours)?;
    if !got.rest.is_empty() || !whole {
        return Err(Refusal::NeighbourOffsets);
    }
    Ok(Asking {
        nodes,
        size: size as usize,
        count: got.count,
    })
}
