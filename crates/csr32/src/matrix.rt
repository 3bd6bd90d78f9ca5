// A sparse matrix in compressed rows, as it was lent, and its checks.
ghost use Rattle.std.specs.Prelude.{◌≡◌, MatchResult, length};
ghost use Rattle.definitions.specs.Refusal.{refused, done};
ghost use Rattle.definitions.specs.Matrix.{structure_of, valid_of};
ghost use Rattle.definitions.specs.Diagonal.{diagonal_call, diagonal_left};
ghost use Rattle.definitions.specs.Answers.{answer_of};
ghost use Rattle.csr32.specs.Rows.{unreal};
ghost use Rattle.csr32.specs.Seen.{lent, square, square_call};

use super::diagonal::fill_diagonal;
use super::square::SquareCsr;
use definitions::{MAX_ENTRIES, MAX_ROWS, Refusal};

#[derive(Clone, Copy)]
pub struct Csr<'a> {
    pub rows: usize,
    pub cols: usize,
    pub row_ptr: &'a [u32],
    pub col_idx: &'a [u32],
    pub values: &'a [f64],
}

// Whether some value is a NaN or an infinity. The loop does not leave early: so the compiler takes several numbers at once.
fn value_not_finite(values: &[f64]) -> bool
    ensures { result ≡ unreal values.now }
{
    let mut found = false;
    for x in values {
        if !numbers::finite(*x) {
            found = true;
        }
    }
    found
}

impl<'a> Csr<'a> {
    // The causes 1 to 7, in this order: what loops over the entries need. The values are counted and not read.
    pub fn structure(&self) -> Result<(), Refusal>
        ensures { result ≡ answer_of (structure_of (lent self.now)) }
    {
        let Csr {
            rows,
            cols,
            row_ptr,
            col_idx,
            values,
        } = *self;
        if MAX_ROWS < rows {
            return Err(Refusal::TooLarge);
        }
        if MAX_ROWS < cols {
            return Err(Refusal::TooLarge);
        }
        if MAX_ENTRIES < values.len() {
            return Err(Refusal::TooLarge);
        }
        if row_ptr.len() != rows + 1 {
            return Err(Refusal::RowListLength);
        }
        if col_idx.len() != values.len() {
            return Err(Refusal::ColumnListLength);
        }
        if row_ptr[0] != 0 {
            return Err(Refusal::FirstPointer);
        }
        if row_ptr[rows] as usize != values.len() {
            return Err(Refusal::LastPointer);
        }
        if numbers::falls(row_ptr) {
            return Err(Refusal::PointerFalls);
        }
        if numbers::reaches(col_idx, cols) {
            return Err(Refusal::ColumnOutside);
        }
        Ok(())
    }

    // The causes 1 to 8, in this order.
    pub fn validate(&self) -> Result<(), Refusal>
        ensures { result ≡ answer_of (valid_of (lent self.now)) }
    {
        self.structure()?;
        if value_not_finite(self.values) {
            return Err(Refusal::ValueNotFinite);
        }
        Ok(())
    }

    // The causes 1 to 9, in this order: the matrix as a square one.
    pub fn square(&self) -> Result<SquareCsr<'a>, Refusal>
        ensures { MatchResult result
            (λ a. (square_call (lent self.now) ≡ done tt) × (square a ≡ lent self.now))
            (λ cause. square_call (lent self.now) ≡ refused cause) }
    {
        self.validate()?;
        let Csr {
            rows,
            cols,
            row_ptr,
            col_idx,
            values,
        } = *self;
        if cols != rows {
            return Err(Refusal::NotSquare);
        }
        Ok(SquareCsr {
            rows,
            row_ptr,
            col_idx,
            values,
        })
    }

    // The diagonal: causes 1 to 9, 13 and 19, in this order.
    pub fn diagonal(&self, diagonal: &mut [f64]) -> Result<(), Refusal>
        ensures value { result ≡ answer_of (diagonal_call (lent self.now) (length diagonal.old)) }
        ensures diagonal_after { diagonal.new ≡ diagonal_left (lent self.now) diagonal.old }
    {
        let a = self.square()?;
        if diagonal.len() < a.rows {
            return Err(Refusal::ListTooShort);
        }
        fill_diagonal(&a, diagonal)
    }
}
