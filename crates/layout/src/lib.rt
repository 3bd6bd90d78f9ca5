// Where a setup's parts stand in its two lists, for every other crate: the one place where these offsets are worked out.
#![tactic(auto)]

ghost use Rattle.std.specs.Prelude.{◌≡◌, true, ◌*◌, ◌≤◌};
ghost use Rattle.definitions.specs.Coarse.{coarse_length};
ghost use Rattle.definitions.specs.Places.{used_ints, places_of};
ghost use Rattle.definitions.specs.Setup.{max_coarse};
ghost use Rattle.layout.specs.Layout.{placeable, part_length, layout_of};

use definitions::{
    MAX_BLOCK, MAX_COARSE, MAX_ENTRIES, MAX_ROWS, Places, Setup, TwoLevelBasis,
    TwoLevelCoarseApplyPolicy,
};

// Whether the record's numbers are so small that no sum overflows.
#[tactic(auto, unfolding(crate::specs::Layout::placeable))]
fn is_placeable(s: Setup) -> bool
    ensures { result ≡ placeable s }
{
    s.nodes <= MAX_ROWS as u64
        && s.rows <= MAX_ROWS as u64
        && s.block <= MAX_BLOCK as u64
        && s.transfers <= (MAX_ROWS + MAX_ENTRIES) as u64
        && s.coarse <= MAX_COARSE as u64
}

// How many numbers the coarse part has: the packed factor, or the inverse.
#[tactic(auto, unfolding(definitions::specs::Coarse::coarse_length), using(crate::proofs::Sizes::square_fits))]
fn coarse_length(policy: TwoLevelCoarseApplyPolicy, c: usize) -> usize
    requires { c ≤ max_coarse }
    ensures { (result ≡ coarse_length policy c) × (result ≤ max_coarse * max_coarse) }
{
    match policy {
        TwoLevelCoarseApplyPolicy::Auto | TwoLevelCoarseApplyPolicy::FactorSolve => c * (c + 1) / 2,
        TwoLevelCoarseApplyPolicy::ExplicitInverse => c * c,
    }
}

// The same for any coarse dimension: 0 for one that is over its limit.
#[tactic(auto, unfolding(crate::specs::Layout::part_length))]
pub fn part_length(policy: TwoLevelCoarseApplyPolicy, c: usize) -> usize
    ensures { result ≡ part_length policy c }
{
    if c <= MAX_COARSE {
        coarse_length(policy, c)
    } else {
        0
    }
}

#[tactic(auto, unfolding(definitions::specs::Places::used_ints, crate::specs::Layout::placeable))]
fn used_ints(s: Setup) -> usize
    requires { placeable s ≡ true }
    ensures { result ≡ used_ints s.basis s }
{
    match s.basis {
        TwoLevelBasis::PiecewiseConstant => s.nodes as usize,
        TwoLevelBasis::JacobiSmoothed => (s.nodes + s.rows + 1 + s.transfers) as usize,
    }
}

#[tactic(auto, unfolding(crate::specs::Layout::placeable))]
fn places_within(s: Setup) -> Places
    requires { placeable s ≡ true }
    ensures { result ≡ places_of s }
{
    let nodes = s.nodes as usize;
    let weights = (s.rows * s.block) as usize;
    let coarse = weights + s.transfers as usize;
    Places {
        pointers: nodes,
        columns: nodes + s.rows as usize + 1,
        ints: used_ints(s),
        weights,
        coarse,
        floats: coarse + coarse_length(s.policy, s.coarse as usize),
    }
}

// The places of a record's parts; zeros for a record whose numbers are over their limits, which no setup has.
#[tactic(auto, unfolding(crate::specs::Layout::layout_of))]
pub fn places(s: Setup) -> Places
    ensures { result ≡ layout_of s }
{
    if is_placeable(s) {
        places_within(s)
    } else {
        Places {
            pointers: 0,
            columns: 0,
            ints: 0,
            weights: 0,
            coarse: 0,
            floats: 0,
        }
    }
}
