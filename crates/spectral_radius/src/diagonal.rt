// The diagonal that the matrix is scaled by.
ghost use Rattle.std.specs.Prelude.{◌≡◌, length};
ghost use Rattle.definitions.specs.Answers.{answer_of};
ghost use Rattle.definitions.specs.Estimate.{usable_from, inverse_roots};

use definitions::Refusal;

// Causes 20 and 21, row by row.
pub(crate) fn check(d: &[f64]) -> Result<(), Refusal>
    ensures { result ≡ answer_of (usable_from 0 d.now) }
{
    for (i, v) in d.iter().enumerate() {
        if !numbers::usable(*v) {
            return Err(Refusal::ZeroDiagonal(i as u64));
        }
        if *v < 0.0 {
            return Err(Refusal::NegativeDiagonal(i as u64));
        }
    }
    Ok(())
}

// 1 over the root of each number.
pub(crate) fn inverse_roots(d: &[f64], s: &mut [f64])
    requires { length d.now ≡ length s.old }
    ensures { s.new ≡ inverse_roots d.now }
{
    let table = root::table();
    for (i, v) in s.iter_mut().enumerate() {
        *v = 1.0 / root::root_by(&table, d[i]);
    }
}
