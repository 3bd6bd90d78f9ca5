// Whether a setup's lists fit their record, cause 26: the record's own numbers, then the lists that it speaks of.
#![tactic(auto)]

ghost use Rattle.std.specs.Prelude.{◌≡◌, true, ◌+◌, ◌*◌, ◌≤◌, eqb, ltb, length};
ghost use Rattle.definitions.specs.Lists.{all};
ghost use Rattle.definitions.specs.Places.{used_ints, places_of};
ghost use Rattle.definitions.specs.Fits.{within_limits, is_resolved, transfers_fit, transfer_fits, setup_fits};
ghost use Rattle.definitions.specs.Matrix.{max_rows};
ghost use Rattle.setup_record.specs.Sizes.{sizes_fit, rows_fit, fitting_of};

use definitions::{
    MAX_BLOCK, MAX_COARSE, MAX_ENTRIES, MAX_GROUP, MAX_ROWS, Places, Setup, TwoLevelBasis,
    TwoLevelCoarseApplyPolicy,
};

#[tactic(auto, unfolding(definitions::specs::Fits::within_limits))]
fn within_limits(s: Setup) -> bool
    ensures { result ≡ within_limits s }
{
    s.rows <= MAX_ROWS as u64
        && s.entries <= MAX_ENTRIES as u64
        && s.block <= MAX_BLOCK as u64
        && s.group <= MAX_GROUP as u64
        && s.coarse <= MAX_COARSE as u64
}

#[tactic(auto, unfolding(definitions::specs::Fits::is_resolved))]
fn is_resolved(policy: TwoLevelCoarseApplyPolicy) -> bool
    ensures { result ≡ is_resolved policy }
{
    match policy {
        TwoLevelCoarseApplyPolicy::Auto => false,
        TwoLevelCoarseApplyPolicy::FactorSolve | TwoLevelCoarseApplyPolicy::ExplicitInverse => true,
    }
}

#[tactic(auto, unfolding(definitions::specs::Fits::transfers_fit, definitions::specs::Fits::within_limits))]
fn transfers_fit(s: Setup) -> bool
    requires { within_limits s ≡ true }
    ensures { result ≡ transfers_fit s.basis s }
{
    match s.basis {
        TwoLevelBasis::PiecewiseConstant => s.transfers == 0,
        TwoLevelBasis::JacobiSmoothed => s.transfers <= s.rows + s.entries,
    }
}

// Whether p is n times b, where the product may be too large for a number.
fn is_product(p: u64, n: u64, b: u64) -> bool
    ensures { result ≡ eqb p (n * b) }
{
    n.checked_mul(b) == Some(p)
}

#[tactic(auto, unfolding(crate::specs::Sizes::sizes_fit))]
fn sizes_fit(s: Setup) -> bool
    ensures { result ≡ sizes_fit s }
{
    within_limits(s)
        && 1 <= s.block
        && is_resolved(s.policy)
        && transfers_fit(s)
        && is_product(s.rows, s.nodes, s.block)
        && is_product(s.coarse, s.groups, s.block)
}

// Whether every number of a list is below a bound: a pass that does not leave early.
#[tactic(auto, using(laws::proofs::Scans::below_all))]
fn all_below(xs: &[u32], bound: u64) -> bool
    ensures { result ≡ all (λ k. ltb k bound) xs.now }
{
    !numbers::reaches(xs, bound as usize)
}

#[tactic(auto, unfolding(crate::specs::Sizes::rows_fit))]
fn rows_fit(ptr: &[u32], idx: &[u32], rows: usize, count: u64, c: u64) -> bool
    requires { (length ptr.now ≡ rows + 1) × (rows ≤ max_rows) }
    ensures { result ≡ rows_fit ptr.now idx.now rows count c }
{
    ptr[0] == 0 && !numbers::falls(ptr) && u64::from(ptr[rows]) == count && all_below(idx, c)
}

#[tactic(auto, unfolding(definitions::specs::Fits::transfer_fits, crate::specs::Sizes::rows_fit))]
fn transfer_fits(s: Setup, p: Places, ints: &[u32]) -> bool
    requires { (sizes_fit s ≡ true) × (p ≡ places_of s) × (used_ints s.basis s ≤ length ints.now) }
    ensures { result ≡ transfer_fits s.basis s ints.now }
{
    match s.basis {
        TwoLevelBasis::PiecewiseConstant => true,
        TwoLevelBasis::JacobiSmoothed => {
            let pointers = &ints[p.pointers..p.columns];
            let columns = &ints[p.columns..p.columns + s.transfers as usize];
            rows_fit(pointers, columns, s.rows as usize, s.transfers, s.coarse)
        }
    }
}

// Whether the lists meet what a record that meets its own part asks of them.
#[tactic(auto, unfolding(definitions::specs::Fits::setup_fits, definitions::specs::Places::used_floats, crate::specs::Sizes::sizes_fit))]
fn lists_fit(s: Setup, p: Places, ints: &[u32], floats: &[f64]) -> bool
    requires { (sizes_fit s ≡ true) × (p ≡ places_of s) }
    ensures { result ≡ setup_fits s ints.now floats.now }
{
    p.ints <= ints.len()
        && p.floats <= floats.len()
        && all_below(&ints[..p.pointers], s.groups)
        && transfer_fits(s, p, ints)
}

// Everything that a setup's record and lists must meet, and nothing else; and the places of the lists' parts, where they do.
#[tactic(auto, unfolding(crate::specs::Sizes::fitting_of), using(crate::proofs::Misfits::places_are, crate::proofs::Misfits::record_off))]
pub fn setup_fits(s: Setup, ints: &[u32], floats: &[f64]) -> Option<Places>
    ensures { result ≡ fitting_of s ints.now floats.now }
{
    if !sizes_fit(s) {
        return None;
    }
    let p = layout::places(s);
    lists_fit(s, p, ints, floats).then_some(p)
}
