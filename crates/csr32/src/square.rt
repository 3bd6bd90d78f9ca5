// A square matrix whose structure was accepted: what loops over its rows need.
ghost use Rattle.std.specs.Prelude.{◌≡◌, length};
ghost use Rattle.definitions.specs.Matrix.{csr, entries_of};
ghost use Rattle.laws.specs.Bounds.{Below};
ghost use Rattle.csr32.specs.Rows.{Rows};
ghost use Rattle.csr32.specs.Parts.{part, entries};

use super::rows::CompressedRows;

#[derive(Clone, Copy)]
pub struct SquareCsr<'a> {
    pub rows: usize,
    pub row_ptr: &'a [u32],
    pub col_idx: &'a [u32],
    pub values: &'a [f64],
    pub ghost fits: { Rows (csr rows rows row_ptr.now col_idx.now values.now) },
}

impl<'a> SquareCsr<'a> {
    // Columns and values of row i, side by side; of a row that is not there, none.
    pub fn row(&self, i: usize) -> (&'a [u32], &'a [f64])
        ensures columns { result.0.now ≡ part self.now.row_ptr.now i self.now.col_idx.now }
        ensures values { result.1.now ≡ part self.now.row_ptr.now i self.now.values.now }
        ensures same { length result.0.now ≡ length result.1.now }
        ensures below { Below self.now.rows result.0.now }
        ensures entries { entries result.0.now result.1.now ≡ entries_of (csr self.now.rows self.now.rows self.now.row_ptr.now self.now.col_idx.now self.now.values.now) i }
    {
        let rows = CompressedRows {
            rows: self.rows,
            cols: self.rows,
            row_ptr: self.row_ptr,
            col_idx: self.col_idx,
            values: self.values,
        };
        rows.row(i)
    }
}
