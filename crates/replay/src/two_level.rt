// Setup and the two-level apply: whether they answer a case as recorded.
use crate::agreement::{filled, floats_alike, one, refused, same};
use crate::lists;
use crate::reading::{Base, Differs, Lines, Matrix, Numbers, agree};
use definitions::{Options, Setup, TwoLevelAggregation, TwoLevelBasis, TwoLevelCoarseApplyPolicy};

// A table for each policy: the enums share no variant, so that one function for all would hold the same three tables.
fn aggregation_of(n: u64) -> Result<TwoLevelAggregation, Differs> {
    match n {
        0 => Ok(TwoLevelAggregation::Contiguous),
        1 => Ok(TwoLevelAggregation::Graph),
        2 => Ok(TwoLevelAggregation::StrongGraph),
        _ => Err(Differs),
    }
}

fn basis_of(n: u64) -> Result<TwoLevelBasis, Differs> {
    match n {
        0 => Ok(TwoLevelBasis::PiecewiseConstant),
        1 => Ok(TwoLevelBasis::JacobiSmoothed),
        _ => Err(Differs),
    }
}

fn policy_of(n: u64) -> Result<TwoLevelCoarseApplyPolicy, Differs> {
    match n {
        0 => Ok(TwoLevelCoarseApplyPolicy::Auto),
        1 => Ok(TwoLevelCoarseApplyPolicy::FactorSolve),
        2 => Ok(TwoLevelCoarseApplyPolicy::ExplicitInverse),
        _ => Err(Differs),
    }
}

// How many transfer pointers a basis has.
fn pointers(s: Setup) -> u64 {
    match s.basis {
        TwoLevelBasis::PiecewiseConstant => 0,
        TwoLevelBasis::JacobiSmoothed => s.rows.saturating_add(1),
    }
}

// Ids, transfer pointers and columns are ours.
fn ints_alike(lines: &mut Lines<'_>, s: Setup, ours: &[u32]) -> Result<(), Differs> {
    let mut recorded = lines.numbers(b"ids", Base::Decimal)?;
    let ptr = lines.numbers(b"transfer_ptr", Base::Decimal)?;
    let idx = lines.numbers(b"transfer_idx", Base::Decimal)?;
    agree(recorded.len() as u64 == s.nodes)?;
    agree(ptr.len() as u64 == pointers(s))?;
    agree(idx.len() as u64 == s.transfers)?;
    recorded.try_extend_from_slice(&ptr)?;
    recorded.try_extend_from_slice(&idx)?;
    same(&recorded, ours)
}

// Factors, transfer weights and the coarse part are ours.
fn floats_all_alike(lines: &mut Lines<'_>, ours: &[f64]) -> Result<(), Differs> {
    let mut recorded = lines.numbers(b"factors", Base::Hexadecimal)?;
    for word in [b"weights".as_slice(), b"coarse_part"] {
        let more = lines.numbers(word, Base::Hexadecimal)?;
        recorded.try_extend_from_slice(&more)?;
    }
    agree(recorded.len() == filled(ours))?;
    same(&recorded, ours)
}

// The record and its lists are ours.
fn setup_alike(
    lines: &mut Lines<'_>,
    s: Setup,
    ints: &[u32],
    floats: &[f64],
) -> Result<(), Differs> {
    one(lines, b"groups", Base::Decimal, s.groups)?;
    one(lines, b"coarse", Base::Decimal, s.coarse)?;
    ints_alike(lines, s, ints)?;
    floats_all_alike(lines, floats)?;
    one(
        lines,
        b"damping",
        Base::Hexadecimal,
        float_bits::bits_of(s.damping),
    )
}

// The recorded correction of this residual is ours.
fn corrected(
    lines: &mut Lines<'_>,
    s: Setup,
    ints: &[u32],
    floats: &[f64],
    residual: &Numbers<f64>,
) -> Result<(), Differs> {
    let n = residual.len();
    let mut z = lists::FLOATS;
    let z = &mut z[..n];
    let mut work = lists::FLOATS;
    two_level_apply::apply(s, ints, floats, residual, z, &mut work).map_err(|_| Differs)?;
    floats_alike(lines, b"corrected", n, z)
}

pub(crate) fn two_level(mut lines: Lines<'_>) -> Result<(), Differs> {
    let a = Matrix::read(&mut lines)?;
    let read = lines.list::<u64, 5>(b"options", Base::Decimal)?;
    let [block, group, aggregation, basis, policy] = read.as_slice() else {
        return Err(Differs);
    };
    let options = Options {
        block: *block,
        group: *group,
        aggregation: aggregation_of(*aggregation)?,
        basis: basis_of(*basis)?,
        policy: policy_of(*policy)?,
    };
    let mut residuals = lines;
    let count = lines
        .rest
        .split(|&b| b == b'\n')
        .take_while(|line| line.starts_with(b"residual"))
        .count();
    // a case without a residual would try no apply
    agree(count > 0)?;
    for _ in 0..count {
        lines.line()?;
    }
    let mut ints = lists::INTS;
    let mut floats = lists::FLOATS;
    let mut work_ints = lists::WORK_INTS;
    let mut work_floats = lists::WORK_FLOATS;
    let answer = two_level_setup::setup(
        &a.csr(),
        options,
        &mut ints,
        &mut floats,
        &mut work_ints,
        &mut work_floats,
    );
    match answer {
        Err(cause) => refused(lines, cause),
        Ok(s) => {
            setup_alike(&mut lines, s, &ints, &floats)?;
            for _ in 0..count {
                let residual = residuals.floats(b"residual")?;
                corrected(&mut lines, s, &ints, &floats, &residual)?;
            }
            lines.end()
        }
    }
}
