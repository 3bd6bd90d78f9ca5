// The library's boundary: functions for C and Rust on the caller's own lists. Each answers 0 or the number of its refusal.
#![tactic(auto)]

ghost use Rattle.std.specs.Prelude.{◌≡◌};
ghost use Rattle.definitions.specs.Numbers.{rootᶠ};
ghost use Rattle.definitions.specs.Matrix.{csr, valid_of};
ghost use Rattle.csr32.specs.Seen.{lent};
ghost use Rattle.definitions.specs.Setup.{lent_of};
ghost use Rattle.definitions.specs.Answers.{answer_of, answer_number};
ghost use Rattle.yelomawin.specs.Calls.{handed, result_work, log_lists, exported_diagonal, exported_blocks, exported_block_apply, exported_group, exported_group_log, exported_estimate, exported_setup, exported_apply};

mod answers;
mod record;
mod told;

use answers::receive;
use csr32::Csr;
use definitions::Options;
use told::tell;

// The matrix of a caller's sizes and lists.
fn matrix<'a>(
    rows: u64,
    cols: u64,
    row_ptr: &'a [u32],
    col_idx: &'a [u32],
    values: &'a [f64],
) -> Csr<'a>
    ensures { lent result ≡ csr rows cols row_ptr.now col_idx.now values.now }
{
    Csr {
        rows: rows as usize,
        cols: cols as usize,
        row_ptr,
        col_idx,
        values,
    }
}

pub fn yelomawin_root(x: f64) -> f64
    ensures { result ≡ rootᶠ x }
{
    root::root(x)
}

pub fn yelomawin_validate(
    rows: u64,
    cols: u64,
    row_ptr: &[u32],
    col_idx: &[u32],
    values: &[f64],
) -> u64
    ensures { result ≡ answer_number (answer_of (valid_of (csr rows cols row_ptr.now col_idx.now values.now))) }
{
    let a = matrix(rows, cols, row_ptr, col_idx, values);
    let answer = a.validate();
    causes::answer_number(answer)
}

pub fn yelomawin_diagonal(
    rows: u64,
    cols: u64,
    row_ptr: &[u32],
    col_idx: &[u32],
    values: &[f64],
    diagonal: &mut [f64],
    answer: &mut [u64],
) -> u64
    ensures { handed result diagonal.new answer.new
        ≡ exported_diagonal (csr rows cols row_ptr.now col_idx.now values.now) diagonal.old answer.old }
{
    let a = matrix(rows, cols, row_ptr, col_idx, values);
    let made = a.diagonal(diagonal);
    tell(made, answer)
}

pub fn yelomawin_blocks(
    rows: u64,
    cols: u64,
    row_ptr: &[u32],
    col_idx: &[u32],
    values: &[f64],
    block_size: u64,
    factors: &mut [f64],
    answer: &mut [u64],
) -> u64
    ensures { handed result factors.new answer.new
        ≡ exported_blocks (csr rows cols row_ptr.now col_idx.now values.now) block_size factors.old answer.old }
{
    let a = matrix(rows, cols, row_ptr, col_idx, values);
    let made = block_factor::blocks(&a, block_size as usize, factors);
    tell(made, answer)
}

pub fn yelomawin_block_apply(
    rows: u64,
    block_size: u64,
    factors: &[f64],
    residual: &[f64],
    correction: &mut [f64],
    answer: &mut [u64],
) -> u64
    ensures { handed result correction.new answer.new
        ≡ exported_block_apply rows block_size factors.now residual.now correction.old answer.old }
{
    let made = block_apply::block_apply(
        rows as usize,
        block_size as usize,
        factors,
        residual,
        correction,
    );
    tell(made, answer)
}

pub fn yelomawin_group(
    nodes: u64,
    group_size: u64,
    offsets: &[u32],
    neighbours: &[u32],
    ids: &mut [u32],
    work: &mut [u32],
    answer: &mut [u64],
) -> u64
    ensures { handed result (result_work ids.new work.new) answer.new
        ≡ exported_group nodes group_size offsets.now neighbours.now ids.old work.old answer.old }
{
    let made = aggregates::group(
        nodes as usize,
        group_size as usize,
        offsets,
        neighbours,
        ids,
        work,
    );
    tell(made, answer)
}

pub fn yelomawin_group_log(
    nodes: u64,
    group_size: u64,
    offsets: &[u32],
    neighbours: &[u32],
    ids: &mut [u32],
    log: &mut [u32],
    work: &mut [u32],
    answer: &mut [u64],
) -> u64
    ensures { handed result (log_lists ids.new log.new work.new) answer.new
        ≡ exported_group_log nodes group_size offsets.now neighbours.now (log_lists ids.old log.old work.old) answer.old }
{
    let made = aggregates::group_log(
        nodes as usize,
        group_size as usize,
        offsets,
        neighbours,
        ids,
        log,
        work,
    );
    tell(made, answer)
}

pub fn yelomawin_estimate(
    rows: u64,
    cols: u64,
    row_ptr: &[u32],
    col_idx: &[u32],
    values: &[f64],
    diagonal: &[f64],
    work: &mut [f64],
    answer: &mut [u64],
) -> u64
    ensures { handed result work.new answer.new
        ≡ exported_estimate (csr rows cols row_ptr.now col_idx.now values.now) diagonal.now work.old answer.old }
{
    let a = matrix(rows, cols, row_ptr, col_idx, values);
    let made = spectral_radius::estimate(&a, diagonal, work);
    tell(made, answer)
}

// A number that is no policy answers 255, with every other list kept; the record receives zeros.
pub fn yelomawin_setup(
    rows: u64,
    cols: u64,
    row_ptr: &[u32],
    col_idx: &[u32],
    values: &[f64],
    block_size: u64,
    group_size: u64,
    aggregation: u64,
    basis: u64,
    coarse_policy: u64,
    setup_ints: &mut [u32],
    setup_floats: &mut [f64],
    work_ints: &mut [u32],
    work_floats: &mut [f64],
    record: &mut [u64],
) -> u64
    ensures { handed result (lent_of setup_ints.new setup_floats.new work_ints.new work_floats.new) «record».new
        ≡ exported_setup (csr rows cols row_ptr.now col_idx.now values.now) block_size group_size aggregation basis coarse_policy
        (lent_of setup_ints.old setup_floats.old work_ints.old work_floats.old) «record».old }
{
    if !record::are_policies(aggregation, basis, coarse_policy) {
        receive(record, &[]);
        return 255;
    }
    let options = Options {
        block: block_size,
        group: group_size,
        aggregation: record::aggregation_of(aggregation),
        basis: record::basis_of(basis),
        policy: record::policy_of(coarse_policy),
    };
    let a = matrix(rows, cols, row_ptr, col_idx, values);
    let made = two_level_setup::setup(
        &a,
        options,
        setup_ints,
        setup_floats,
        work_ints,
        work_floats,
    );
    tell(made, record)
}

// A list that is no record answers 26, with the correction and the work list kept.
pub fn yelomawin_apply(
    record: &[u64],
    setup_ints: &[u32],
    setup_floats: &[f64],
    residual: &[f64],
    correction: &mut [f64],
    work: &mut [f64],
    answer: &mut [u64],
) -> u64
    ensures { handed result (result_work correction.new work.new) answer.new
        ≡ exported_apply «record».now setup_ints.now setup_floats.now residual.now
        correction.old work.old answer.old }
{
    if !record::is_record(record) {
        receive(answer, &[]);
        return 26;
    }
    let s = record::record_of(record);
    let made = two_level_apply::apply(s, setup_ints, setup_floats, residual, correction, work);
    tell(made, answer)
}
