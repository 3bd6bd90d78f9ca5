// The grouping of setup: causes 1 to 12, then the nodes' groups by the policy asked for.
#![tactic(auto)]

ghost use Rattle.std.specs.Prelude.{◌≡◌, ◌+◌, ◌-◌, ◌*◌, ◌/◌, ◌<◌, ◌≤◌, length};
ghost use Rattle.definitions.specs.Lists.{tab, padded};
ghost use Rattle.definitions.specs.Matrix.{max_entries, max_rows};
ghost use Rattle.definitions.specs.Setup.{front_of, grouping_of};
ghost use Rattle.definitions.specs.Answers.{answer_of};
ghost use Rattle.csr32.specs.Seen.{lent};
ghost use Rattle.two_level_grouping.specs.Front.{shape_of};
ghost use Rattle.definitions.specs.declared.TwoLevelAggregation.TheVariants.{Contiguous};
ghost use Rattle.definitions.specs.Groups.{max_group};
ghost use Rattle.two_level_grouping.specs.Calls.{has_room, sizes_fit, asked, aggregate_call, Grouped, Answered, Ready, no_node, numbers_of, lists_of, read_then};

use csr32::Csr;
use definitions::{
    MAX_BLOCK, MAX_ENTRIES, MAX_GROUP, MAX_ROWS, Options, Refusal, TwoLevelAggregation,
};

// Causes 9 to 12, in this order.
#[tactic(auto, using(crate::proofs::Sizes::sizes), unfolding(crate::specs::Front::shape_of))]
pub fn shape(rows: usize, cols: usize, block: u64, group: u64) -> Result<(), Refusal>
    ensures { result ≡ answer_of (shape_of rows cols block group) }
{
    if cols != rows {
        return Err(Refusal::NotSquare);
    }
    if block == 0 || (MAX_BLOCK as u64) < block {
        return Err(Refusal::BlockSize);
    }
    if group == 0 || (MAX_GROUP as u64) < group {
        return Err(Refusal::GroupSize);
    }
    if rows as u64 % block != 0 {
        return Err(Refusal::NotMultiple);
    }
    Ok(())
}

// Causes 1 to 12, in this order.
pub fn front(a: &Csr<'_>, options: Options) -> Result<(), Refusal>
    ensures { result ≡ answer_of (front_of (lent a.now) options) }
{
    a.validate()?;
    shape(a.rows, a.cols, options.block, options.group)
}

// Causes 1 to 12, in this order, of which 8 where strengths are compared.
fn ask(a: &Csr<'_>, options: Options) -> Result<(), Refusal>
    ensures { result ≡ answer_of (asked (lent a.now) options) }
{
    adjacency::readable(a, options.aggregation)?;
    shape(a.rows, a.cols, options.block, options.group)
}

// Whether the lists are long enough, for nodes and entries within their limits.
#[tactic(auto, unfolding(crate::specs::Calls::has_room))]
fn has_room(nodes: usize, entries: usize, room: usize, work_room: usize, float_room: usize) -> bool
    requires { (nodes ≤ max_rows) × (entries ≤ max_entries) }
    ensures { result ≡ has_room nodes entries room work_room float_room }
{
    nodes <= room && 8 * nodes + 4 * entries + 16 <= work_room && 3 * nodes <= float_room
}

// Whether all pass that sizes alone decide: the limits of cause 1, 9 to 12, and 13.
fn sizes_fit(
    a: &Csr<'_>,
    options: Options,
    room: usize,
    work_room: usize,
    float_room: usize,
) -> bool
    ensures { result ≡ sizes_fit a.now.rows a.now.cols (length a.now.values.now) options.block options.group room work_room float_room }
{
    let rows = a.rows;
    let cols = a.cols;
    let entries = a.values.len();
    if MAX_ROWS < rows || MAX_ROWS < cols || MAX_ENTRIES < entries {
        return false;
    }
    shape(rows, cols, options.block, options.group).is_ok()
        && has_room(
            rows / options.block as usize,
            entries,
            room,
            work_room,
            float_room,
        )
}

// Contiguous: the group of a node is its number over the group size.
fn contiguous(nodes: usize, size: usize, ids: &mut [u32]) -> u64
    requires { (0 < size) × ((nodes ≤ length ids.old) × ((nodes ≤ max_rows) × (size ≤ max_group))) }
    ensures { (result ≡ (nodes + (size - 1)) / size) × (ids.new ≡ padded 0 (length ids.old) (tab (λ v. v / size) nodes)) }
{
    let (groups, rest) = ids.split_at_mut(nodes);
    for (node, group) in groups.iter_mut().enumerate() {
        *group = (node / size) as u32;
    }
    rest.fill(0);
    nodes.div_ceil(size) as u64
}

// The groups that the neighbour lists in work[base..] give, to `ids`. Grouping leaves zeros behind the groups, so that only those are cleared.
fn by_lists(
    nodes: usize,
    size: usize,
    base: usize,
    ids: &mut [u32],
    work: &mut [u32],
) -> Result<u64, Refusal>
    requires { (nodes ≤ length ids.old) × (nodes ≤ length work.old) }
    ensures { Grouped nodes size base ids.old work.old result ids.new work.new }
{
    let answer = aggregates::group_within(nodes, size, base, work);
    numbers::copy_front(&work[..nodes], ids);
    ids[nodes..].fill(0);
    work[..nodes].fill(0);
    answer
}

// Contiguous: causes 1 to 7, then the groups by the nodes' numbers.
fn by_number(
    a: &Csr<'_>,
    options: Options,
    ids: &mut [u32],
    work_ints: &mut [u32],
    work_floats: &mut [f64],
) -> Result<u64, Refusal>
    requires { Ready (lent a.now) options (length ids.old) (length work_ints.old) (length work_floats.old) }
    ensures { let m = lent a.now in
        let call = read_then Contiguous m (numbers_of m options) in
        Answered call ids.old work_ints.old work_floats.old result ids.new work_ints.new work_floats.new }
{
    a.structure()?;
    let size = options.block as usize;
    let groups = contiguous(a.rows / size, options.group as usize, ids);
    work_ints.fill(0);
    work_floats.fill(0.0);
    Ok(groups)
}

// The causes that the policy asks of the matrix, then 16.
fn no_node(
    a: &Csr<'_>,
    aggregation: TwoLevelAggregation,
    ids: &mut [u32],
    work_ints: &mut [u32],
    work_floats: &mut [f64],
) -> Result<u64, Refusal>
    ensures { let m = lent a.now in
        let call = read_then aggregation m no_node in
        Answered call ids.old work_ints.old work_floats.old result ids.new work_ints.new work_floats.new }
{
    adjacency::readable(a, aggregation)?;
    ids.fill(0);
    work_ints.fill(0);
    work_floats.fill(0.0);
    Err(Refusal::NoNode)
}

// Graph and StrongGraph: the causes of the matrix, which the search for neighbours asks, and 16; then the groups by the nodes' lists, which stand behind the grouping's room in the work list.
// The search is lent no more of that room than it uses, since it clears what it is lent, and grouping clears all of it.
fn by_graph(
    a: &Csr<'_>,
    options: Options,
    ids: &mut [u32],
    work_ints: &mut [u32],
    work_floats: &mut [f64],
) -> Result<u64, Refusal>
    requires { Ready (lent a.now) options (length ids.old) (length work_ints.old) (length work_floats.old) }
    ensures { let m = lent a.now in
        let call = read_then options.aggregation m (lists_of options.aggregation m options) in
        Answered call ids.old work_ints.old work_floats.old result ids.new work_ints.new work_floats.new }
{
    let size = options.block as usize;
    let nodes = a.rows / size;
    if nodes == 0 {
        return no_node(a, options.aggregation, ids, work_ints, work_floats);
    }
    let first = 4 * nodes + a.values.len() + 16;
    let base = first + 2 * nodes;
    let need = base + nodes + 1 + a.values.len();
    adjacency::neighbours(
        a,
        size,
        options.aggregation,
        2 * nodes,
        &mut work_ints[first..need],
        work_floats,
    )?;
    by_lists(nodes, options.group as usize, base, ids, work_ints)
}

// The groups by the policy asked for, where the sizes fit: the causes of the matrix and 16.
fn by_policy(
    a: &Csr<'_>,
    options: Options,
    ids: &mut [u32],
    work_ints: &mut [u32],
    work_floats: &mut [f64],
) -> Result<u64, Refusal>
    requires { Ready (lent a.now) options (length ids.old) (length work_ints.old) (length work_floats.old) }
    ensures { let m = lent a.now in
        let call = read_then options.aggregation m (grouping_of options.aggregation m options) in
        Answered call ids.old work_ints.old work_floats.old result ids.new work_ints.new work_floats.new }
{
    match options.aggregation {
        TwoLevelAggregation::Contiguous => by_number(a, options, ids, work_ints, work_floats),
        TwoLevelAggregation::Graph | TwoLevelAggregation::StrongGraph => {
            by_graph(a, options, ids, work_ints, work_floats)
        }
    }
}

// The grouping of setup alone: causes 1 to 12, of which 8 where strengths are compared, 13 for the lists lent, 16; then the
// group of each node in `ids`, and work lists of zeros. Sizes are checked first, and the entries once, by the policy's own function.
pub fn aggregate(
    a: &Csr<'_>,
    options: Options,
    ids: &mut [u32],
    work_ints: &mut [u32],
    work_floats: &mut [f64],
) -> Result<u64, Refusal>
    ensures { let m = lent a.now in
        let call = aggregate_call m options (length ids.old) (length work_ints.old) (length work_floats.old) in
        Answered call ids.old work_ints.old work_floats.old result ids.new work_ints.new work_floats.new }
{
    if sizes_fit(a, options, ids.len(), work_ints.len(), work_floats.len()) {
        return by_policy(a, options, ids, work_ints, work_floats);
    }
    ask(a, options)?;
    Err(Refusal::ListTooShort)
}
