// The calls that stand alone: whether each answers a case as recorded.
use crate::agreement::{filled, floats_alike, one, refused, result, same};
use crate::lists;
use crate::reading::{Base, Differs, Lines, Matrix, Numbers, agree};
use definitions::Estimated;

pub(crate) fn root(mut lines: Lines<'_>) -> Result<(), Differs> {
    let argument = lines.one(b"argument", Base::Hexadecimal)?;
    result(
        lines,
        b"result",
        1,
        &[root::root(float_bits::of_bits(argument))],
    )
}

pub(crate) fn validate(mut lines: Lines<'_>) -> Result<(), Differs> {
    let a = Matrix::read(&mut lines)?;
    let answer = a.csr().validate();
    match answer {
        Err(cause) => refused(lines, cause),
        Ok(()) => {
            agree(lines.line()? == b"accepted".as_slice())?;
            lines.end()
        }
    }
}

pub(crate) fn diagonal(mut lines: Lines<'_>) -> Result<(), Differs> {
    let a = Matrix::read(&mut lines)?;
    let mut ours = lists::FLOATS;
    let answer = a.csr().diagonal(&mut ours);
    match answer {
        Err(cause) => refused(lines, cause),
        Ok(()) => result(lines, b"result", a.rows, &ours),
    }
}

pub(crate) fn estimate(mut lines: Lines<'_>) -> Result<(), Differs> {
    let a = Matrix::read(&mut lines)?;
    let diagonal = lines.floats(b"diagonal")?;
    let mut work = lists::FLOATS;
    let answer = spectral_radius::estimate(&a.csr(), &diagonal, &mut work);
    match answer {
        Err(cause) => refused(lines, cause),
        Ok(Estimated { rho, damping }) => result(lines, b"estimate", 2, &[rho, damping]),
    }
}

// The factors, and block apply with them, are the recorded ones.
fn solved(
    mut lines: Lines<'_>,
    rows: usize,
    block: usize,
    factors: &[f64],
    residual: &Numbers<f64>,
) -> Result<(), Differs> {
    floats_alike(&mut lines, b"factors", filled(factors), factors)?;
    let mut z = lists::FLOATS;
    let z = &mut z[..residual.len()];
    block_apply::block_apply(rows, block, factors, residual, z).map_err(|_| Differs)?;
    result(lines, b"corrected", rows, z)
}

pub(crate) fn blocks(mut lines: Lines<'_>) -> Result<(), Differs> {
    let a = Matrix::read(&mut lines)?;
    let block = lines.one(b"block", Base::Decimal)? as usize;
    let residual = lines.floats(b"residual")?;
    let mut factors = lists::FLOATS;
    let answer = block_factor::blocks(&a.csr(), block, &mut factors);
    match answer {
        Err(cause) => refused(lines, cause),
        Ok(()) => solved(lines, a.rows, block, &factors, &residual),
    }
}

// The groups are the recorded ones.
fn grouped(mut lines: Lines<'_>, nodes: usize, count: u64, ids: &[u32]) -> Result<(), Differs> {
    one(&mut lines, b"groups", Base::Decimal, count)?;
    let recorded = lines.numbers(b"ids", Base::Decimal)?;
    agree(recorded.len() == nodes)?;
    same(&recorded, ids)?;
    lines.end()
}

pub(crate) fn group(mut lines: Lines<'_>) -> Result<(), Differs> {
    let size = lines.one(b"size", Base::Decimal)? as usize;
    let offsets = lines.ints(b"offsets")?;
    let neighbours = lines.ints(b"neighbours")?;
    let nodes = offsets.len().checked_sub(1).ok_or(Differs)?;
    let mut ids = lists::INTS;
    let mut work = lists::WORK_INTS;
    let answer = aggregates::group(nodes, size, &offsets, &neighbours, &mut ids, &mut work);
    match answer {
        Err(cause) => refused(lines, cause),
        Ok(count) => grouped(lines, nodes, count, &ids),
    }
}
