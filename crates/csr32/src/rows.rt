// Compressed rows that fit: of an accepted matrix, or of a transfer.
ghost use Rattle.std.specs.Prelude.{◌≡◌, length};
ghost use Rattle.definitions.specs.Matrix.{row_of};
ghost use Rattle.laws.specs.Bounds.{Below, Compressed};
ghost use Rattle.csr32.specs.Parts.{part, entries};

// The values may be any numbers.
#[derive(Clone, Copy)]
pub struct CompressedRows<'a> {
    pub rows: usize,
    pub cols: usize,
    pub row_ptr: &'a [u32],
    pub col_idx: &'a [u32],
    pub values: &'a [f64],
    pub ghost fits: { Compressed rows cols row_ptr.now col_idx.now (length values.now) },
}

impl<'a> CompressedRows<'a> {
    // Columns and values of row i, side by side; of a row that is not there, none.
    pub fn row(&self, i: usize) -> (&'a [u32], &'a [f64])
        ensures columns { result.0.now ≡ part self.now.row_ptr.now i self.now.col_idx.now }
        ensures values { result.1.now ≡ part self.now.row_ptr.now i self.now.values.now }
        ensures same { length result.0.now ≡ length result.1.now }
        ensures below { Below self.now.cols result.0.now }
        ensures entries { entries result.0.now result.1.now ≡ row_of self.now.row_ptr.now self.now.col_idx.now self.now.values.now i }
    {
        if self.rows <= i {
            return (&[], &[]);
        }
        let from = self.row_ptr[i] as usize;
        let to = self.row_ptr[i + 1] as usize;
        (&self.col_idx[from..to], &self.values[from..to])
    }
}
