// Block Jacobi's factors: the blocks on the diagonal of a matrix, gathered and factored, two at a time as far as both have one.
#![tactic(auto)]

ghost use Rattle.std.specs.Prelude.{◌≡◌, length};
ghost use Rattle.definitions.specs.Block.{blocks_call, blocks_left};
ghost use Rattle.definitions.specs.Answers.{answer_of};
ghost use Rattle.csr32.specs.Seen.{lent};

mod cholesky; // cholesky.rt: one block's factor
mod dense; // dense.rt: a block's numbers
mod gather; // gather.rt: a block gathered from the matrix
mod jacobi; // jacobi.rt: the factors of all blocks
mod pair; // pair.rt: two blocks' factors side by side
mod symmetry; // symmetry.rt: a block's scale, and its symmetry

use csr32::Csr;
use definitions::{MAX_BLOCK, Refusal};
use jacobi::BlockJacobi;

// Blocks alone: causes 1 to 10 and 13 to 15, in this order. Block k's factor stands at k times block_size squared.
pub fn blocks(a: &Csr<'_>, block_size: usize, factors: &mut [f64]) -> Result<(), Refusal>
    ensures value { result ≡ answer_of (blocks_call (lent a.now) block_size (length factors.old)) }
    ensures factors_after { factors.new ≡ blocks_left (lent a.now) block_size factors.old }
{
    let a = a.square()?;
    if block_size < 1 || MAX_BLOCK < block_size {
        return Err(Refusal::BlockSize);
    }
    if factors.len() < a.rows * block_size {
        return Err(Refusal::ListTooShort);
    }
    let jacobi = BlockJacobi {
        a,
        size: block_size,
        table: root::table(),
    };
    jacobi.fill(factors)
}
