// The checks after 1 to 8.
ghost use Rattle.std.specs.Prelude.{◌≡◌, ◌≤◌, length};
ghost use Rattle.definitions.specs.Answers.{answer_of};
ghost use Rattle.definitions.specs.Matrix.{max_entries, max_rows};
ghost use Rattle.adjacency.specs.Fits.{fits_of, enough};

use csr32::Csr;
use definitions::{MAX_BLOCK, Refusal};

// Room for stamps and sorting before base, for the offsets and the neighbours behind it, and for the floats.
#[tactic(auto, unfolding(crate::specs::Fits::enough))]
fn long_enough(nodes: usize, entries: usize, base: usize, ints: usize, floats: usize) -> bool
    requires { (nodes ≤ max_rows) × (entries ≤ max_entries) }
    ensures { result ≡ enough nodes entries base ints floats }
{
    if base < 2 * nodes || ints < base {
        return false;
    }
    nodes + 1 + entries <= ints - base && 3 * nodes <= floats
}

// 9, 10, 12 and 13.
#[tactic(auto, unfolding(crate::specs::Fits::fits_of, crate::specs::Fits::four, definitions::specs::Refusal::require, definitions::specs::Answers::answer_of), using(crate::proofs::Fitting::require_then))]
pub(crate) fn fits(
    a: &Csr<'_>,
    block_size: usize,
    base: usize,
    ints: usize,
    floats: usize,
) -> Result<(), Refusal>
    requires { (a.now.rows ≤ max_rows) × (length a.now.values.now ≤ max_entries) }
    ensures { result ≡ answer_of (fits_of a.now.rows a.now.cols (length a.now.values.now) block_size base ints floats) }
{
    if a.cols != a.rows {
        return Err(Refusal::NotSquare);
    }
    if block_size < 1 || MAX_BLOCK < block_size {
        return Err(Refusal::BlockSize);
    }
    if a.rows % block_size != 0 {
        return Err(Refusal::NotMultiple);
    }
    if !long_enough(a.rows / block_size, a.values.len(), base, ints, floats) {
        return Err(Refusal::ListTooShort);
    }
    Ok(())
}
