// A block on the diagonal, gathered from the rows of the matrix: duplicates add, in stored order, from +0.
ghost use Rattle.std.specs.Prelude.{◌≡◌, ◌+◌, ◌<◌, ◌≤◌, length, replicate};
ghost use Rattle.definitions.specs.Lists.{tab};
ghost use Rattle.definitions.specs.Numbers.{zeroᶠ};
ghost use Rattle.definitions.specs.Block.{block_entry, block_of, max_block};
ghost use Rattle.csr32.specs.Seen.{square};
ghost use Rattle.block_factor.specs.Dense.{dense};

use super::dense::Block;
use csr32::SquareCsr;

// Row i of the block whose first row is `first`, of whose places as many as row has; row holds zeros before.
#[tactic(auto, using(crate::proofs::Gathering::gather_none))]
fn gather_row(a: &SquareCsr<'_>, first: usize, i: usize, row: &mut [f64])
    requires in_rows { first + i < a.now.rows }
    requires row_value { row.old ≡ replicate (length row.old) zeroᶠ }
    ensures { row.new ≡ tab (block_entry (square a.now) first i) (length row.old) }
{
    let (columns, values) = a.row(first + i);
    for (column, value) in columns.iter().zip(values) {
        let c = *column as usize;
        if first <= c && c - first < row.len() {
            row[c - first] += *value;
        }
    }
}

// The block w wide whose first row is `first`.
#[tactic(auto, unfolding(crate::specs::Dense::blank, definitions::specs::Block::block_of), using(crate::proofs::Gathering::block_none, crate::proofs::Gathering::place_zeros, crate::proofs::Gathering::block_more, crate::proofs::Gathering::block_all, crate::proofs::Shape::row_fits))]
pub(crate) fn gather(a: &SquareCsr<'_>, first: usize, w: usize) -> Block
    requires { (first + w ≤ a.now.rows) × (w ≤ max_block) }
    ensures { (dense w result.a ≡ block_of (square a.now) first w) × (result.size ≡ w) }
{
    let mut numbers = [0.0; 64];
    for i in 0..w {
        let start = i * w;
        let end = start + w;
        gather_row(a, first, i, &mut numbers[start..end]);
    }
    Block {
        a: numbers,
        size: w,
    }
}
