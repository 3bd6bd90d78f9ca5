// Joining: a group below the floor goes over to a group that its nodes' lists name, in rounds, until a round joins nothing.
// The groups count from 1. Beside the group of each node, `ids`, they are held as
//     next       the next member of a node's group
//     first      the first member of a group
//     counts     how many members a group has
// and a group that looks for another has
//     names      the groups that its lists name, one for each edge
//     hits       the edges to a group, zero before and after.
// They are parameters of their own: a struct of `&mut` slices would need a lifetime for each, and each function would take it apart again.
ghost use Rattle.std.specs.Prelude.{◌≡◌, ◌≢◌, [], ◌++◌, ℕ, ◌+◌, ◌-◌, ◌*◌, ◌^◌, ◌<◌, ◌≤◌, length, get_or, take};
ghost use Rattle.std.specs.Int.{from_bool};
ghost use Rattle.definitions.specs.Groups.{chosen, edges_to, groups_of, nodes_of, relabelled, size_in};
ghost use Rattle.laws.specs.Every.{Each};
ghost use Rattle.aggregates.specs.JoinChoice.{at, bump, others_by, wipe, Zeros};
ghost use Rattle.aggregates.specs.Log.{Joined, turn_log};
ghost use Rattle.aggregates.specs.Stated.{lists_of};
ghost use Rattle.aggregates.specs.JoinState.{Gathers, HasTurn, Joins, Moves, Rep, Turned, chains, hop, members_of, moved, names_in, state_of, walk};

use super::candidate::Candidate;
use super::joining_log::log_joining;
use super::lists::Lists;

// Counts how often each group is named.
pub(crate) fn tally(hits: &mut [u32], names: &[u32])
    requires few { length names.now < 2 ^ 32 }
    requires within { Each (λ a. a < length hits.old) names.now }
    requires zeros { Zeros hits.old }
    ensures { hits.new ≡ bump names.now hits.old }
{
    for &a in names {
        hits[a as usize] += 1;
    }
}

// Clears the counts that `tally` made: as many steps as there are names, not groups.
pub(crate) fn untally(hits: &mut [u32], names: &[u32])
    requires { Each (λ a. a < length hits.old) names.now }
    ensures { hits.new ≡ wipe names.now hits.old }
{
    for &a in names {
        hits[a as usize] = 0;
    }
}

// The first of the groups that are named, and 0 if there is none.
fn pick(counts: &[u32], hits: &[u32], names: &[u32]) -> u32
    requires counted { length hits.now ≤ length counts.now }
    requires within { Each (λ a. a < length hits.now) names.now }
    requires some { 0 < length hits.now }
    ensures { result ≡ chosen (at hits.now) (at counts.now) 0 names.now }
{
    let mut best = Candidate::of(counts, hits, 0);
    for &a in names {
        let next = Candidate::of(counts, hits, a);
        if best.id == 0 || next.comes_before(&best) {
            best = next;
        }
    }
    best.id
}

// The group that is named most often, then with fewer members, then with the lower id; 0 if none is named.
fn choose_group(counts: &[u32], hits: &mut [u32], names: &[u32]) -> u32
    requires few { length names.now < 2 ^ 32 }
    requires counted { length hits.old ≤ length counts.now }
    requires within { Each (λ a. a < length hits.old) names.now }
    requires some { 0 < length hits.old }
    requires zeros { Zeros hits.old }
    ensures value { result ≡ chosen (edges_to names.now) (at counts.now) 0 names.now }
    ensures unchanged { hits.new ≡ hits.old }
{
    tally(hits, names);
    let best = pick(counts, hits, names);
    untally(hits, names);
    best
}

// Puts the groups of the nodes of a list behind the names: not the group g itself, and none that is empty. Returns the new end.
fn names_of(
    list: &[u32],
    ids: &[u32],
    counts: &[u32],
    g: u32,
    names: &mut [u32],
    tail: usize,
) -> usize
    requires nodes { Each (λ v. v < length ids.now) list.now }
    requires groups { Each (λ v. get_or ids.now v 0 < length counts.now) list.now }
    requires space { tail + length list.now ≤ length names.old }
    ensures value { result ≡ tail + length (others_by g ids.now (at counts.now) list.now) }
    ensures named { take result names.new
        ≡ take tail names.old ++ others_by g ids.now (at counts.now) list.now }
{
    // The end is counted by hand: `names` is lent, so nothing can be pushed.
    let mut end = tail;
    for &u in list {
        let o = ids[u as usize];
        if o != g && counts[o as usize] != 0 {
            names[end] = o;
            end += 1;
        }
    }
    end
}

// Puts the groups that the lists of the group g name into `names`, one for each edge, and returns how many.
fn gather(
    lists: &Lists<'_>,
    ids: &[u32],
    next: &[u32],
    first: &[u32],
    counts: &[u32],
    g: u32,
    names: &mut [u32],
) -> usize
    requires nodes { length ids.now ≡ lists.now.nodes }
    requires gathers { let c = chains next.now first.now counts.now in
        Gathers lists.now.nodes lists.now.offsets.now ids.now c (length names.old) g }
    ensures value { let c = chains next.now first.now counts.now in
        result ≡ length (names_in (lists_of lists.now) ids.now c g) }
    ensures named { let c = chains next.now first.now counts.now in
        take result names.new ≡ names_in (lists_of lists.now) ids.now c g }
{
    let mut cur = first[g as usize];
    let mut end = 0;
    for _i in 0..counts[g as usize] {
        let v = cur as usize;
        end = names_of(lists.of(v), ids, counts, g, names, end);
        cur = next[v];
    }
    end
}

// The n members of a chain go to the group b. Returns the last of them.
fn relabel_chain(ids: &mut [u32], next: &[u32], first: u32, n: u32, b: u32) -> u32
    requires nodes { length next.now ≡ length ids.old }
    requires within { Each (λ v. v < length ids.old) (walk n next.now first) }
    ensures joined { ids.new ≡ relabelled b (walk n next.now first) ids.old }
    ensures last { 0 < n → result ≡ hop (n - 1) next.now first }
{
    let mut cur = first;
    let mut last = first;
    for _i in 0..n {
        let v = cur as usize;
        ids[v] = b;
        last = cur;
        cur = next[v];
    }
    last
}

// All of the group g goes to the group b: its chain is put before that of b.
fn move_group(
    ids: &mut [u32],
    next: &mut [u32],
    first: &mut [u32],
    counts: &mut [u32],
    g: u32,
    b: u32,
)
    requires { Moves (length ids.old) (chains next.old first.old counts.old) g b }
    ensures joined { let c = chains next.old first.old counts.old in
        ids.new ≡ relabelled b (members_of c g) ids.old }
    ensures linked { let c = chains next.old first.old counts.old in
        chains next.new first.new counts.new ≡ moved g b c }
{
    let (from, to) = (g as usize, b as usize);
    let last = relabel_chain(ids, next, first[from], counts[from], b) as usize;
    next[last] = first[to];
    first[to] = first[from];
    counts[to] += counts[from];
    counts[from] = 0;
}

// The turn of the group g: it joins another, if it is below the floor and names one. Returns whether it did. The log has `made` joinings so far.
fn join_one(
    lists: &Lists<'_>,
    ids: &mut [u32],
    next: &mut [u32],
    first: &mut [u32],
    counts: &mut [u32],
    hits: &mut [u32],
    names: &mut [u32],
    floor: u32,
    g: u32,
    log: &mut [u32],
    made: u32,
) -> bool
    requires turn { let l = lists.now in let c = chains next.old first.old counts.old in
        HasTurn l.nodes (length counts.old - 1) g l.offsets.now l.neighbours.now ids.old c }
    requires counted { length hits.old ≡ length counts.old }
    requires zeros { Zeros hits.old }
    requires space { length lists.now.neighbours.now ≤ length names.old }
    ensures turned { let l = lists.now in let c = chains next.old first.old counts.old in
        let c' = chains next.new first.new counts.new in
        Turned l.nodes (length counts.old - 1) l.offsets.now l.neighbours.now floor g ids.old c ids.new c' (from_bool result) }
    ensures hits_unchanged { hits.new ≡ hits.old }
    ensures log_after { let c = chains next.old first.old counts.old in
        log.new ≡ turn_log (lists_of lists.now) floor (state_of (length counts.old - 1) ids.old c) g made log.old }
{
    let size = counts[g as usize];
    if size == 0 || floor <= size {
        return false;
    }
    let end = gather(lists, ids, next, first, counts, g, names);
    let names = &names[..end];
    let b = choose_group(counts, hits, names);
    if b == 0 {
        return false;
    }
    log_joining(counts, hits, names, g, b, log, made);
    move_group(ids, next, first, counts, g, b);
    true
}

// Rounds over the groups, until one joins nothing. Returns how many joinings there were.
fn join_rounds(
    lists: &Lists<'_>,
    ids: &mut [u32],
    next: &mut [u32],
    first: &mut [u32],
    counts: &mut [u32],
    hits: &mut [u32],
    names: &mut [u32],
    groups: u32,
    floor: u32,
    log: &mut [u32],
) -> u32
    requires rep { let l = lists.now in let c = chains next.old first.old counts.old in
        Rep l.nodes groups l.offsets.now l.neighbours.now ids.old c }
    requires counted { length hits.old ≡ length counts.old }
    requires zeros { Zeros hits.old }
    requires space { length lists.now.neighbours.now ≤ length names.old }
    requires grown { let c = chains next.old first.old counts.old in
        state_of groups ids.old c ≡ groups_of ids.old groups }
    requires none { size_in (state_of groups ids.old (chains next.old first.old counts.old)) 0 ≡ 0 }
    ensures { let l = lists.now in
        Joined l.offsets.now l.neighbours.now groups floor ids.old ids.new log.old log.new result }
{
    let mut made: u32 = 0;
    // A `loop`: how many rounds there are shows only as they go. Its label names its invariant.
    'rounds: loop {
        let before = made;
        for g in 1..groups + 1 {
            let joined = join_one(
                lists, ids, next, first, counts, hits, names, floor, g, log, made,
            );
            made += u32::from(joined);
        }
        if made == before {
            return made;
        }
    }
}

// Puts each node into the chain of its group, the highest first, so that each chain goes upward.
fn link(ids: &[u32], next: &mut [u32], first: &mut [u32], counts: &mut [u32])
    requires nodes { (length next.old ≡ length ids.now) × (length ids.now < 2 ^ 31) }
    requires firsts { length first.old ≡ length counts.old }
    requires grouped { (v : ℕ) → v < length ids.now → get_or ids.now v 0 < length counts.old }
    requires zeros { Zeros counts.old }
    ensures { let c = chains next.new first.new counts.new in
        (o : ℕ) → o < length counts.old → members_of c o ≡ nodes_of o 0 ids.now }
{
    for v in (0..ids.len()).rev() {
        let o = ids[v] as usize;
        next[v] = first[o];
        first[o] = v as u32;
        counts[o] += 1;
    }
}

// Joins undersized groups until a round joins nothing: `ids` has the group of each node, from 1; the room may hold anything. Returns how many joinings there were.
pub(crate) fn join_groups(
    lists: &Lists<'_>,
    ids: &mut [u32],
    room: &mut [u32],
    groups: u32,
    floor: u32,
    log: &mut [u32],
) -> u32
    requires joins { let l = lists.now in
        Joins l.nodes groups l.offsets.now l.neighbours.now ids.old }
    requires space { 4 * lists.now.nodes + length lists.now.neighbours.now + 3 ≤ length room.old }
    ensures { let l = lists.now in
        Joined l.offsets.now l.neighbours.now groups floor ids.old ids.new log.old log.new result }
{
    let each = groups as usize + 1;
    let (next, room) = room.split_at_mut(lists.nodes);
    let (first, room) = room.split_at_mut(each);
    let (counts, room) = room.split_at_mut(each);
    let (hits, names) = room.split_at_mut(each);
    counts.fill(0);
    hits.fill(0);
    link(ids, next, first, counts);
    join_rounds(
        lists, ids, next, first, counts, hits, names, groups, floor, log,
    )
}
