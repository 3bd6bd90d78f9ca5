// The checks of the call, in their order.
ghost use Rattle.std.specs.Prelude.{◌≡◌, ◌≤◌, length};
ghost use Rattle.definitions.specs.Block.{max_block};
ghost use Rattle.definitions.specs.Matrix.{max_rows, max_entries};
ghost use Rattle.definitions.specs.Answers.{answer_of};
ghost use Rattle.csr32.specs.Seen.{lent};
ghost use Rattle.transfer.specs.Call.{shape_checked, groups_checked, transfer_checked};

use csr32::Csr;
use definitions::{MAX_BLOCK, MAX_COARSE, MAX_ROWS, Refusal};

fn shape(a: &Csr<'_>, size: usize, ints: usize, floats: usize) -> Result<(), Refusal>
    requires { (a.now.rows ≤ max_rows) × (length a.now.values.now ≤ max_entries) }
    ensures { result ≡ answer_of (shape_checked a.now.rows a.now.cols (length a.now.values.now) size ints floats) }
{
    let (rows, entries) = (a.rows, a.values.len());
    if a.cols != rows {
        return Err(Refusal::NotSquare);
    }
    if size < 1 {
        return Err(Refusal::BlockSize);
    }
    if MAX_BLOCK < size {
        return Err(Refusal::BlockSize);
    }
    if rows % size != 0 {
        return Err(Refusal::NotMultiple);
    }
    if ints < 2 * rows + entries + 1 {
        return Err(Refusal::ListTooShort);
    }
    if floats < rows + entries {
        return Err(Refusal::ListTooShort);
    }
    Ok(())
}

fn groups(
    a: &Csr<'_>,
    size: usize,
    ids: &[u32],
    count: usize,
    diagonal: usize,
    ints: usize,
    floats: usize,
) -> Result<(), Refusal>
    requires { (a.now.rows ≤ max_rows) × (length a.now.values.now ≤ max_entries) × (1 ≤ size) × (size ≤ max_block) × (count ≤ max_rows) }
    ensures { result ≡ answer_of (groups_checked a.now.rows (length a.now.values.now) size ids.now count diagonal ints floats) }
{
    let (rows, entries) = (a.rows, a.values.len());
    let c = count * size;
    if MAX_COARSE < c {
        return Err(Refusal::CoarseTooLarge(c as u64));
    }
    if ints < 2 * rows + entries + 1 + 2 * c {
        return Err(Refusal::CoarseListTooShort(c as u64));
    }
    if floats < rows + entries + c {
        return Err(Refusal::CoarseListTooShort(c as u64));
    }
    if diagonal != rows {
        let expected = rows as u64;
        let actual = diagonal as u64;
        return Err(Refusal::WrongLength { expected, actual });
    }
    if ids.len() != rows / size {
        return Err(Refusal::SetupMisfit);
    }
    if numbers::reaches(ids, count) {
        return Err(Refusal::SetupMisfit);
    }
    Ok(())
}

// All of them: `diagonal`, `ints` and `floats` are the lengths of lists.
pub(crate) fn check(
    a: &Csr<'_>,
    size: usize,
    ids: &[u32],
    count: usize,
    diagonal: usize,
    ints: usize,
    floats: usize,
) -> Result<(), Refusal>
    ensures { result ≡ answer_of (transfer_checked (lent a.now) size ids.now count diagonal ints floats) }
{
    if MAX_ROWS < count {
        return Err(Refusal::TooLarge);
    }
    a.structure()?;
    shape(a, size, ints, floats)?;
    groups(a, size, ids, count, diagonal, ints, floats)
}
