// Groups of nodes, from what each node lists: growth, joining, numbers by first appearance.
#![tactic(auto)]

ghost use Rattle.std.specs.Prelude.{◌≡◌, ◌+◌, ◌*◌, ◌^◌, ◌≤◌, ◌<◌, length, replicate};
ghost use Rattle.definitions.specs.Groups.{grouping_call, floor_of, grouping_left, grouping_work_left};
ghost use Rattle.definitions.specs.JoiningLog.{grouping_log_call, grouping_in, log_left};
ghost use Rattle.definitions.specs.Answers.{grouping_answer, grouping_log_answer};
ghost use Rattle.aggregates.specs.Within.{within_call};
ghost use Rattle.aggregates.specs.Checked.{IsGroupSize};
ghost use Rattle.aggregates.specs.JoinState.{Joins};
ghost use Rattle.aggregates.specs.Stated.{lists_of};
ghost use Rattle.aggregates.specs.Settled.{Built, LoggedInto, Settled, logged_of};

use definitions::{GroupCounts, Refusal};
use lists::Lists;

mod candidate;
mod checks;
mod growth;
mod joining;
mod joining_log;
mod lists;
mod renumber;

// A quarter of the group size, cut down, at least 1.
fn floor_of(size: usize) -> u32
    requires { size < 2 ^ 32 }
    ensures { result ≡ floor_of size }
{
    let quarter = size / 4;
    quarter.max(1) as u32
}

// Joins and renumbers `groups` grown groups: `ids` has the group of each node. Logs the joinings.
fn settle(
    lists: &Lists<'_>,
    ids: &mut [u32],
    room: &mut [u32],
    groups: u32,
    floor: u32,
    log: &mut [u32],
) -> GroupCounts
    requires joins { let l = lists.now in
        Joins l.nodes groups l.offsets.now l.neighbours.now ids.old }
    requires space { 4 * lists.now.nodes + length lists.now.neighbours.now + 3 ≤ length room.old }
    ensures { let l = lists.now in
        Settled l.offsets.now l.neighbours.now groups floor ids.old ids.new log.old log.new result.groups result.joinings }
{
    let joinings = joining::join_groups(lists, ids, room, groups, floor, log);
    let count = renumber::renumber(ids, &mut room[..groups as usize + 1]);
    GroupCounts {
        groups: u64::from(count),
        joinings: u64::from(joinings),
    }
}

// Groups the nodes into `ids`, and logs the joinings. The room is left zero.
fn build(
    lists: &Lists<'_>,
    size: usize,
    ids: &mut [u32],
    room: &mut [u32],
    log: &mut [u32],
) -> GroupCounts
    requires sized { IsGroupSize size }
    requires nodes { length ids.old ≡ lists.now.nodes }
    requires space { 4 * lists.now.nodes + length lists.now.neighbours.now + 3 ≤ length room.old }
    ensures built { let l = lists.now in
        Built (lists_of l) l.nodes size ids.new log.old log.new result.groups result.joinings }
    ensures cleared { room.new ≡ replicate (length room.old) 0 }
{
    ids.fill(0);
    let groups = growth::grow_all(lists, ids, room, size);
    let floor = floor_of(size);
    let counts = settle(lists, ids, room, groups, floor, log);
    room.fill(0);
    counts
}

// Grouping in one list: the neighbour lists stand in `work` from work[base] on; the group of each node takes the front, zeros behind.
pub fn group_within(
    nodes: usize,
    size: usize,
    base: usize,
    work: &mut [u32],
) -> Result<u64, Refusal>
    ensures value { result ≡ grouping_answer (within_call nodes size base work.old) }
    ensures work_after { work.new ≡ grouping_left (within_call nodes size base work.old) work.old }
{
    let (room, stored) = work.split_at_mut(base.min(work.len()));
    let lists = checks::check_stored(nodes, size, base, stored)?;
    let (ids, room) = room.split_at_mut(nodes);
    let counts = build(&lists, size, ids, room, &mut []);
    stored.fill(0);
    Ok(counts.groups)
}

// The group of each node goes to `ids`, zeros behind, the joinings to the log, and `work` is left zero.
fn group_into(
    lists: &Lists<'_>,
    size: usize,
    ids: &mut [u32],
    log: &mut [u32],
    work: &mut [u32],
) -> GroupCounts
    requires sized { IsGroupSize size }
    requires nodes { lists.now.nodes ≤ length ids.old }
    requires space { 4 * lists.now.nodes + length lists.now.neighbours.now + 3 ≤ length work.old }
    ensures logged { let made = logged_of (lists_of lists.now) lists.now.nodes size in
        LoggedInto made ids.old ids.new log.old log.new result.groups result.joinings }
    ensures work_after { work.new ≡ replicate (length work.old) 0 }
{
    let (ids, behind) = ids.split_at_mut(lists.nodes);
    let counts = build(lists, size, ids, work, log);
    behind.fill(0);
    counts
}

// Grouping alone: the group of each node goes to `ids`, zeros behind, and `work` is left zero.
pub fn group(
    nodes: usize,
    size: usize,
    offsets: &[u32],
    neighbours: &[u32],
    ids: &mut [u32],
    work: &mut [u32],
) -> Result<u64, Refusal>
    ensures { let call = grouping_call nodes size offsets.now neighbours.now (length ids.old) (length work.old) in
        (result ≡ grouping_answer call)
        × ((ids.new ≡ grouping_left call ids.old)
        × (work.new ≡ grouping_work_left call work.old)) }
{
    let lists = checks::check(nodes, size, offsets, neighbours, ids.len(), work.len())?;
    let counts = group_into(&lists, size, ids, &mut [], work);
    Ok(counts.groups)
}

// Grouping alone with a log: for each joining, in order, the group that moved, its taker and the rule, zeros behind.
pub fn group_log(
    nodes: usize,
    size: usize,
    offsets: &[u32],
    neighbours: &[u32],
    ids: &mut [u32],
    log: &mut [u32],
    work: &mut [u32],
) -> Result<GroupCounts, Refusal>
    ensures { let call = grouping_log_call nodes size offsets.now neighbours.now (length ids.old) (length log.old)
        (length work.old) in
        (result ≡ grouping_log_answer call)
        × ((ids.new ≡ grouping_left (grouping_in call) ids.old)
        × ((log.new ≡ log_left call log.old)
        × (work.new ≡ grouping_work_left (grouping_in call) work.old))) }
{
    let lists = checks::check(nodes, size, offsets, neighbours, ids.len(), work.len())?;
    if log.len() < 3 * nodes {
        return Err(Refusal::LogTooShort);
    }
    log.fill(0);
    Ok(group_into(&lists, size, ids, log, work))
}
