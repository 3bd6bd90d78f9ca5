// The stages of setup that have no entry point of their own, exported for the benchmarks. Each answers 0, or the number of the cause that refuses it.
#![tactic(auto)]

ghost use Rattle.std.specs.Prelude.{◌≡◌, length, take, ◌*◌};
ghost use Rattle.definitions.specs.Numbers.{zeroᶠ, largest};
ghost use Rattle.definitions.specs.Refusal.{result_left, work_left};
ghost use Rattle.definitions.specs.Matrix.{csr};
ghost use Rattle.csr32.specs.Seen.{lent};
ghost use Rattle.definitions.specs.Answers.{answer_of, transfer_answer, factor_answer, answer_number};
ghost use Rattle.adjacency.specs.Within.{neighbours_within};
ghost use Rattle.transfer.specs.Call.{smoothed_transfer_call, transfer_ints, transfer_floats};
ghost use Rattle.coarse_matrix.specs.Calls.{constant_coarse_call, galerkin_coarse_call};
ghost use Rattle.coarse_factor.specs.Calls.{coarse_factor_call};
ghost use Rattle.coarse_inverse.specs.Calls.{coarse_inverse_call};
ghost use Rattle.setup_stages.specs.Policy.{lists_by};

use causes::answer_number;
use csr32::Csr;
use definitions::TwoLevelAggregation;

// The matrix of a caller's sizes and lists.
fn matrix<'a>(
    rows: u64,
    cols: u64,
    row_ptr: &'a [u32],
    col_idx: &'a [u32],
    values: &'a [f64],
) -> Csr<'a>
    ensures { lent result ≡ csr rows cols row_ptr.now col_idx.now values.now }
{
    Csr {
        rows: rows as usize,
        cols: cols as usize,
        row_ptr,
        col_idx,
        values,
    }
}

// Which lists a number asks for: 0 Graph's, else StrongGraph's.
#[tactic(auto, unfolding(crate::specs::Policy::lists_by))]
fn lists_by(strong: u64) -> TwoLevelAggregation
    ensures { result ≡ lists_by strong }
{
    match strong {
        0 => TwoLevelAggregation::Graph,
        _ => TwoLevelAggregation::StrongGraph,
    }
}

#[unsafe(no_mangle)]
pub extern "C" fn yelomawin_bench_neighbours(
    rows: u64,
    cols: u64,
    row_ptr: &[u32],
    col_idx: &[u32],
    values: &[f64],
    block_size: u64,
    strong: u64,
    base: u64,
    ints: &mut [u32],
    floats: &mut [f64],
) -> u64
    ensures { let a = csr rows cols row_ptr.now col_idx.now values.now in
        let call = neighbours_within (lists_by strong) a block_size base (length ints.old) (length floats.old) in
        (result ≡ answer_number (answer_of call)) × ((ints.new ≡ result_left 0 call ints.old) × (floats.new ≡ work_left zeroᶠ call floats.old)) }
{
    let a = matrix(rows, cols, row_ptr, col_idx, values);
    let made = adjacency::neighbours(
        &a,
        block_size as usize,
        lists_by(strong),
        base as usize,
        ints,
        floats,
    );
    answer_number(made)
}

#[unsafe(no_mangle)]
pub extern "C" fn yelomawin_bench_transfer(
    rows: u64,
    cols: u64,
    row_ptr: &[u32],
    col_idx: &[u32],
    values: &[f64],
    block_size: u64,
    ids: &[u32],
    groups: u64,
    diagonal: &[f64],
    damping: f64,
    ints: &mut [u32],
    floats: &mut [f64],
) -> u64
    ensures { let a = csr rows cols row_ptr.now col_idx.now values.now in
        let call = smoothed_transfer_call a block_size ids.now groups diagonal.now damping (length ints.old) (length floats.old) in
        (result ≡ answer_number (transfer_answer call)) × ((ints.new ≡ transfer_ints call ints.old) × (floats.new ≡ transfer_floats call floats.old)) }
{
    let a = matrix(rows, cols, row_ptr, col_idx, values);
    let count = transfer::smoothed_transfer(
        &a,
        block_size as usize,
        ids,
        groups as usize,
        diagonal,
        damping,
        ints,
        floats,
    );
    answer_number(count)
}

#[unsafe(no_mangle)]
pub extern "C" fn yelomawin_bench_constant_coarse(
    rows: u64,
    cols: u64,
    row_ptr: &[u32],
    col_idx: &[u32],
    values: &[f64],
    block_size: u64,
    ids: &[u32],
    groups: u64,
    coarse: &mut [f64],
) -> u64
    ensures { let a = csr rows cols row_ptr.now col_idx.now values.now in
        let call = constant_coarse_call a block_size ids.now groups (length coarse.old) in
        (result ≡ answer_number (answer_of call)) × (coarse.new ≡ result_left zeroᶠ call coarse.old) }
{
    let a = matrix(rows, cols, row_ptr, col_idx, values);
    let made = coarse_matrix::constant_coarse(
        &a,
        block_size as usize,
        ids,
        groups as usize,
        coarse,
    );
    answer_number(made)
}

#[unsafe(no_mangle)]
pub extern "C" fn yelomawin_bench_galerkin_coarse(
    rows: u64,
    cols: u64,
    row_ptr: &[u32],
    col_idx: &[u32],
    values: &[f64],
    c: u64,
    transfer_ptr: &[u32],
    transfer_idx: &[u32],
    weights: &[f64],
    ints: &mut [u32],
    floats: &mut [f64],
) -> u64
    ensures { let a = csr rows cols row_ptr.now col_idx.now values.now in
        let call = galerkin_coarse_call a c transfer_ptr.now transfer_idx.now weights.now (length ints.old) (length floats.old) in
        (result ≡ answer_number (answer_of call)) × ((ints.new ≡ work_left 0 call ints.old) × (floats.new ≡ result_left zeroᶠ call floats.old)) }
{
    let a = matrix(rows, cols, row_ptr, col_idx, values);
    let made = coarse_matrix::galerkin_coarse(
        &a,
        c as usize,
        transfer_ptr,
        transfer_idx,
        weights,
        ints,
        floats,
    );
    answer_number(made)
}

#[unsafe(no_mangle)]
pub extern "C" fn yelomawin_bench_coarse_factor(c: u64, m: &[f64], lower: &mut [f64]) -> u64
    ensures value { result ≡ answer_number (factor_answer (largest (take (c * c) m.now)) (coarse_factor_call c m.now (length lower.old))) }
    ensures lower_after { lower.new ≡ result_left zeroᶠ (coarse_factor_call c m.now (length lower.old)) lower.old }
{
    let scale = coarse_factor::coarse_factor(c as usize, m, lower);
    answer_number(scale)
}

#[unsafe(no_mangle)]
pub extern "C" fn yelomawin_bench_coarse_inverse(c: u64, lower: &[f64], inverse: &mut [f64]) -> u64
    ensures value { result ≡ answer_number (answer_of (coarse_inverse_call c lower.now (length inverse.old))) }
    ensures inverse_after { inverse.new ≡ result_left zeroᶠ (coarse_inverse_call c lower.now (length inverse.old)) inverse.old }
{
    let made = coarse_inverse::coarse_inverse(c as usize, lower, inverse);
    answer_number(made)
}
