// The sums of the numbers stored on the diagonal.
ghost use Rattle.std.specs.Prelude.{◌≡◌, ◌≤◌, ◌<◌, eqb, length};
ghost use Rattle.definitions.specs.Numbers.{zeroᶠ};
ghost use Rattle.definitions.specs.Refusal.{result_left};
ghost use Rattle.definitions.specs.Matrix.{max_rows, max_entries, values_where};
ghost use Rattle.definitions.specs.Diagonal.{diagonal_of};
ghost use Rattle.definitions.specs.Answers.{answer_of};
ghost use Rattle.csr32.specs.Found.{sum_found};
ghost use Rattle.csr32.specs.Parts.{entries};
ghost use Rattle.csr32.specs.Seen.{square};

use super::square::SquareCsr;
use definitions::Refusal;

// The sum of the numbers of a row that stand at one column, if there are any.
fn sum_each(columns: &[u32], values: &[f64], column: usize) -> Option<f64>
    requires { length columns.now ≡ length values.now }
    ensures { result ≡ sum_found (values_where (λ c. eqb c column) (entries columns.now values.now)) }
{
    let mut sum = None;
    for (c, value) in columns.iter().zip(values) {
        if *c as usize == column {
            sum = Some(sum.unwrap_or(0.0) + *value);
        }
    }
    sum
}

// The same, faster where a single number stands there, as on most diagonals: entries are only counted and their positions joined by
// or, so that the compiler needs no branch and takes several columns at once.
fn sum_at(columns: &[u32], values: &[f64], column: usize) -> Option<f64>
    requires same { length columns.now ≡ length values.now }
    requires few { (length values.now ≤ max_entries) × (column < max_rows) }
    ensures { result ≡ sum_found (values_where (λ c. eqb c column) (entries columns.now values.now)) }
{
    let wanted = column as u32;
    let mut count: u32 = 0;
    let mut at: u32 = 0;
    for (k, c) in columns.iter().enumerate() {
        if *c == wanted {
            count += 1;
            at |= k as u32;
        }
    }
    if count == 1 {
        Some(0.0 + values[at as usize])
    } else {
        sum_each(columns, values, column)
    }
}

// The sums of all rows, and zeros after them. Cause 19 leaves zeros alone.
pub(crate) fn fill_diagonal(a: &SquareCsr<'_>, diagonal: &mut [f64]) -> Result<(), Refusal>
    requires { a.now.rows ≤ length diagonal.old }
    ensures value { result ≡ answer_of (diagonal_of (square a.now)) }
    ensures diagonal_after { diagonal.new ≡ result_left zeroᶠ (diagonal_of (square a.now)) diagonal.old }
{
    for i in 0..a.rows {
        let (columns, values) = a.row(i);
        let Some(sum) = sum_at(columns, values, i) else {
            diagonal.fill(0.0);
            return Err(Refusal::MissingDiagonal(i as u64));
        };
        diagonal[i] = sum;
    }
    diagonal[a.rows..].fill(0.0);
    Ok(())
}
