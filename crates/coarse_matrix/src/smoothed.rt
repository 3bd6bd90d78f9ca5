// What an accepted call on a transfer is about.
ghost use Rattle.std.specs.Prelude.{◌≡◌, ◌<◌, ◌≤◌, length};
ghost use Rattle.definitions.specs.Setup.{max_coarse};
ghost use Rattle.csr32.specs.Parts.{entries};
ghost use Rattle.laws.specs.Bounds.{Below};

use csr32::{CompressedRows, SquareCsr};

// A matrix and the transfer between its rows and coarse columns.
#[derive(Clone, Copy)]
pub(crate) struct SmoothedMatrix<'a> {
    pub a: SquareCsr<'a>,
    pub transfer: CompressedRows<'a>,
    pub ghost same_rows: { transfer.rows ≡ a.rows },
    pub ghost small: { transfer.cols ≤ max_coarse },
}

impl<'a> SmoothedMatrix<'a> {
    ghost use Rattle.coarse_matrix.specs.Galerkin.{weights_of};

    // Row i of the transfer. Its own `row`, which is public and has to ask whether the row is there, made the whole call take 1 to 13 % longer.
    pub(crate) fn weights(&self, i: usize) -> (&'a [u32], &'a [f64])
        requires { i < self.now.a.rows }
        ensures same { length result.0.now ≡ length result.1.now }
        ensures below { Below self.now.transfer.cols result.0.now }
        ensures entries { entries result.0.now result.1.now ≡ weights_of self.now.transfer i }
    {
        let CompressedRows {
            row_ptr,
            col_idx,
            values,
            ..
        } = self.transfer;
        let from = row_ptr[i] as usize;
        let to = row_ptr[i + 1] as usize;
        (&col_idx[from..to], &values[from..to])
    }
}
