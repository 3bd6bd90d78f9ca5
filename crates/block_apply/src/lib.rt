// The block Jacobi apply: each block's solve with its factor, from the residual into the correction.
#![tactic(auto)]

ghost use Rattle.std.specs.Prelude.{◌≡◌, ◌&&◌, ◌*◌, leb, length};
ghost use Rattle.definitions.specs.Matrix.{max_rows};
ghost use Rattle.definitions.specs.Block.{max_block, block_apply_call, block_apply_left};
ghost use Rattle.definitions.specs.Answers.{answer_of};

use definitions::{MAX_BLOCK, MAX_ROWS, Refusal};

mod blocks;
mod solve;

// Whether the factors of so many rows can be in a list so long. The product is taken of small numbers only.
fn fits(rows: usize, size: usize, room: usize) -> bool
    ensures { result ≡ (leb rows max_rows && leb 1 size && leb size max_block && leb (rows * size) room) }
{
    rows <= MAX_ROWS && 1 <= size && size <= MAX_BLOCK && rows * size <= room
}

// The correction from the residual, block after block. Refused: 25 for the residual, 25 for the correction, 26.
pub fn block_apply(
    rows: usize,
    block_size: usize,
    factors: &[f64],
    residual: &[f64],
    correction: &mut [f64],
) -> Result<(), Refusal>
    ensures value { result ≡ answer_of (block_apply_call rows block_size factors.now residual.now (length correction.old)) }
    ensures correction_after { correction.new ≡ block_apply_left rows block_size factors.now residual.now correction.old }
{
    if residual.len() != rows {
        return Err(Refusal::WrongLength {
            expected: rows as u64,
            actual: residual.len() as u64,
        });
    }
    if correction.len() != rows {
        return Err(Refusal::WrongLength {
            expected: rows as u64,
            actual: correction.len() as u64,
        });
    }
    let known = fits(rows, block_size, factors.len());
    if known {
        blocks::solve_blocks(rows, block_size, factors, residual, correction);
        return Ok(());
    }
    Err(Refusal::SetupMisfit)
}
