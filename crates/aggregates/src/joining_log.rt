// The joining log: by which test a group's taker was chosen, and the three numbers of a joining. Written only where they lie in the log: an empty log costs nothing.
ghost use Rattle.std.specs.Prelude.{◌≡◌, [], ◌∷◌, ◌+◌, ◌-◌, ◌*◌, ◌^◌, ◌<◌, ◌≤◌, length, set};
ghost use Rattle.laws.specs.Every.{Each};
ghost use Rattle.aggregates.specs.JoinChoice.{at};
ghost use Rattle.aggregates.specs.Log.{Rules, rule_by, rule_in, noted};

use super::candidate::Candidate;
use super::joining::{tally, untally};

// By which test the group b stays against the groups that are named: the last such test.
fn last_rule(counts: &[u32], hits: &[u32], names: &[u32], b: u32) -> u32
    requires counted { length hits.now ≤ length counts.now }
    requires within { Each (λ a. a < length hits.now) names.now }
    requires taker { b < length hits.now }
    ensures { result ≡ rule_by (at hits.now) (at counts.now) b 1 names.now }
{
    let taker = Candidate::of(counts, hits, b);
    let mut rule: u32 = 1;
    for &a in names {
        rule = rule.max(taker.rule_against(&Candidate::of(counts, hits, a)));
    }
    rule
}

// The rule by which b is the taker among the groups that are named.
fn rule_of(counts: &[u32], hits: &mut [u32], names: &[u32], b: u32) -> u32
    requires { Rules counts.now hits.old names.now b }
    ensures value { result ≡ rule_in counts.now b names.now }
    ensures unchanged { hits.new ≡ hits.old }
{
    tally(hits, names);
    let rule = last_rule(counts, hits, names, b);
    untally(hits, names);
    rule
}

// Writes x at `at`, if that lies in the log.
fn put(log: &mut [u32], at: usize, x: u32)
    ensures { log.new ≡ set log.old at x }
{
    if at < log.len() {
        log[at] = x;
    }
}

// Writes a joining: the group that moved, its taker, counted from 0, and the rule.
fn note(log: &mut [u32], at: usize, g: u32, b: u32, rule: u32)
    requires { (0 < g) × ((0 < b) × (at + 2 < 2 ^ 64)) }
    ensures { log.new ≡ noted at ((g - 1) ∷ (b - 1) ∷ rule ∷ []) log.old }
{
    put(log, at, g - 1);
    put(log, at + 1, b - 1);
    put(log, at + 2, rule);
}

// Logs the joining of g to b, before g moves: it is joining number `made`.
pub(crate) fn log_joining(
    counts: &[u32],
    hits: &mut [u32],
    names: &[u32],
    g: u32,
    b: u32,
    log: &mut [u32],
    made: u32,
)
    requires rules { Rules counts.now hits.old names.now b }
    requires g_nonzero { (0 < g) × (0 < b) }
    ensures unchanged { hits.new ≡ hits.old }
    ensures log_after { log.new ≡ noted (3 * made) ((g - 1) ∷ (b - 1) ∷ rule_in counts.now b names.now ∷ []) log.old }
{
    let place = 3 * made as usize;
    if place < log.len() {
        let rule = rule_of(counts, hits, names, b);
        note(log, place, g, b, rule);
    }
}
