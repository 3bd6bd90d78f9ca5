// Growth: from each ungrouped node in turn, first in first out.
ghost use Rattle.std.specs.Prelude.{◌≡◌, [], ◌∷◌, ◌+◌, ◌-◌, ◌^◌, ◌<◌, ◌≤◌, length, get_or, replicate};
ghost use Rattle.definitions.specs.Groups.{grow_group, grown, no_anchor};
ghost use Rattle.laws.specs.Every.{Each};
ghost use Rattle.aggregates.specs.Growth.{Pushed, enqueued};
ghost use Rattle.aggregates.specs.Stated.{lists_of};

use super::lists::Lists;

// The group g of `tail` nodes takes in the nodes of a list that are in no group, until it has `size`, and puts them at the queue's end. Returns the new end.
fn push_free(
    ids: &mut [u32],
    queue: &mut [u32],
    list: &[u32],
    g: u32,
    tail: usize,
    size: usize,
) -> usize
    requires nodes { Each (λ u. u < length ids.old) list.now }
    requires space { tail + length list.now ≤ length queue.old }
    requires sized { tail ≤ size }
    ensures { Pushed (enqueued g (size - tail) ids.old list.now) g tail ids.old ids.new queue.old queue.new result }
{
    // The end is counted by hand: the queue is lent, so nothing can be pushed.
    let mut end = tail;
    for &u in list {
        let x = u as usize;
        if ids[x] == 0 {
            if end == size {
                return end;
            }
            ids[x] = g;
            queue[end] = u;
            end += 1;
        }
    }
    end
}

// The group g takes in up to `size` nodes, from the seed on, each when it is queued, so that none waits twice.
fn grow_group(lists: &Lists<'_>, ids: &mut [u32], queue: &mut [u32], seed: u32, g: u32, size: usize)
    requires nodes { length ids.old ≡ lists.now.nodes }
    requires seed_in { seed < lists.now.nodes }
    requires free { get_or ids.old seed 0 ≡ 0 }
    requires some { 0 < g }
    requires sized { 0 < size }
    requires space { length lists.now.neighbours.now < length queue.old }
    ensures { ids.new ≡ grow_group (lists_of lists.now) no_anchor g size ids.old (seed ∷ []) }
{
    ids[seed as usize] = g;
    queue[0] = seed;
    let mut head = 0;
    let mut tail = 1;
    // A `while`: the queue grows while it is read.
    while head < tail && tail < size {
        let v = queue[head] as usize;
        head += 1;
        tail = push_free(ids, queue, lists.of(v), g, tail, size);
    }
}

// Grows groups from each ungrouped node in turn. Returns how many there are.
pub(crate) fn grow_all(lists: &Lists<'_>, ids: &mut [u32], queue: &mut [u32], size: usize) -> u32
    requires nodes { length ids.old ≡ lists.now.nodes }
    requires sized { 0 < size }
    requires space { length lists.now.neighbours.now < length queue.old }
    requires blank { ids.old ≡ replicate lists.now.nodes 0 }
    ensures grown { (ids.new, result) ≡ grown (lists_of lists.now) no_anchor lists.now.nodes size }
    ensures upper_bound { result ≤ lists.now.nodes }
{
    let mut g: u32 = 0;
    for v in 0..lists.nodes {
        if ids[v] == 0 {
            g += 1;
            grow_group(lists, ids, queue, v as u32, g, size);
        }
    }
    g
}
