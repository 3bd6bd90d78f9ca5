// The checks of the calls, in their order, and what they hand out.
ghost use Rattle.std.specs.Prelude.{◌≡◌, ◌+◌, ◌*◌, ◌≤◌, length, MatchResult};
ghost use Rattle.definitions.specs.Matrix.{max_rows};
ghost use Rattle.definitions.specs.Refusal.{refused, done};
ghost use Rattle.csr32.specs.Seen.{lent};
ghost use Rattle.coarse_matrix.specs.Calls.{constant_checked, transfer_fits, galerkin_checked};
ghost use Rattle.coarse_matrix.specs.Accepted.{IsGrouped, IsSmoothed};

use crate::grouped::GroupedMatrix;
use crate::smoothed::SmoothedMatrix;
use csr32::{CompressedRows, Csr, Groups, SquareCsr};
use definitions::{MAX_BLOCK, MAX_COARSE, MAX_ROWS, Refusal};
use numbers::{falls, reaches};

// A matrix and groups, if the call on them is accepted; `room` is the length of the list for the coarse matrix.
#[tactic(auto, unfolding(crate::specs::Calls::constant_checked, crate::specs::Calls::constant_checks, definitions::specs::Refusal::require), using(crate::proofs::Causes::require_then, crate::proofs::Causes::structure_then))]
pub(crate) fn grouped<'a>(
    a: &Csr<'a>,
    size: usize,
    ids: &'a [u32],
    groups: usize,
    room: usize,
) -> Result<GroupedMatrix<'a>, Refusal>
    ensures { let checked = constant_checked (lent a.now) size ids.now groups room in
        MatchResult result
        (λ m. (checked ≡ done tt) × (m.groups.coarse * m.groups.coarse ≤ room) × IsGrouped (lent a.now) size ids.now groups m)
        (λ cause. checked ≡ refused cause) }
{
    if MAX_ROWS < groups {
        return Err(Refusal::TooLarge);
    }
    a.structure()?;
    let Csr {
        rows,
        cols,
        row_ptr,
        col_idx,
        values,
    } = *a;
    if rows != cols {
        return Err(Refusal::NotSquare);
    }
    if size == 0 || MAX_BLOCK < size {
        return Err(Refusal::BlockSize);
    }
    if rows % size != 0 {
        return Err(Refusal::NotMultiple);
    }
    let coarse = groups * size;
    if MAX_COARSE < coarse {
        return Err(Refusal::CoarseTooLarge(coarse as u64));
    }
    if room < coarse * coarse {
        return Err(Refusal::CoarseListTooShort(coarse as u64));
    }
    if ids.len() != rows / size || reaches(ids, groups) {
        return Err(Refusal::SetupMisfit);
    }
    let a = SquareCsr {
        rows,
        row_ptr,
        col_idx,
        values,
    };
    let groups = Groups {
        rows,
        size,
        ids,
        coarse,
    };
    Ok(GroupedMatrix { a, groups })
}

// Are they compressed rows with columns below c? Their numbers may be any.
#[tactic(auto, unfolding(crate::specs::Calls::transfer_fits))]
fn transfer_fits(rows: usize, c: usize, row_ptr: &[u32], col_idx: &[u32], count: usize) -> bool
    requires { rows ≤ max_rows }
    ensures { result ≡ transfer_fits rows c row_ptr.now col_idx.now count }
{
    row_ptr.len() == rows + 1
        && col_idx.len() == count
        && row_ptr[0] == 0
        && row_ptr[rows] as usize == count
        && !falls(row_ptr)
        && !reaches(col_idx, c)
}

// A matrix and a transfer, if the call on them is accepted; `ints` and `floats` are the lengths of lists.
#[tactic(auto, unfolding(crate::specs::Calls::galerkin_checked, crate::specs::Calls::galerkin_checks, definitions::specs::Refusal::require), using(crate::proofs::Causes::require_then, crate::proofs::Causes::structure_then))]
pub(crate) fn smoothed<'a>(
    a: &Csr<'a>,
    c: usize,
    transfer_ptr: &'a [u32],
    transfer_idx: &'a [u32],
    weights: &'a [f64],
    ints: usize,
    floats: usize,
) -> Result<SmoothedMatrix<'a>, Refusal>
    ensures { let checked = galerkin_checked (lent a.now) c transfer_ptr.now transfer_idx.now (length weights.now) ints floats in
        MatchResult result
        (λ m. (checked ≡ done tt) × (2 * c ≤ ints) × (c * c + c ≤ floats) × IsSmoothed (lent a.now) c transfer_ptr.now transfer_idx.now weights.now m)
        (λ cause. checked ≡ refused cause) }
{
    a.structure()?;
    let Csr {
        rows,
        cols,
        row_ptr,
        col_idx,
        values,
    } = *a;
    if rows != cols {
        return Err(Refusal::NotSquare);
    }
    if MAX_COARSE < c {
        return Err(Refusal::CoarseTooLarge(c as u64));
    }
    if ints < 2 * c || floats < c * c + c {
        return Err(Refusal::CoarseListTooShort(c as u64));
    }
    if !transfer_fits(rows, c, transfer_ptr, transfer_idx, weights.len()) {
        return Err(Refusal::SetupMisfit);
    }
    let a = SquareCsr {
        rows,
        row_ptr,
        col_idx,
        values,
    };
    let transfer = CompressedRows {
        rows,
        cols: c,
        row_ptr: transfer_ptr,
        col_idx: transfer_idx,
        values: weights,
    };
    Ok(SmoothedMatrix { a, transfer })
}
