// The spectral radius of the scaled matrix, estimated by ten rounds of the power method, and the damping factor.
#![tactic(auto)]

ghost use Rattle.std.specs.Prelude.{◌≡◌, ◌*◌, ◌≤◌, length};
ghost use Rattle.definitions.specs.Answers.{estimate_answer};
ghost use Rattle.definitions.specs.Estimate.{estimate_of, estimate_call, estimate_work_left};
ghost use Rattle.csr32.specs.Seen.{lent, square};

mod diagonal; // diagonal.rt: the diagonal's checks and inverse roots
mod power; // power.rt: the rounds with the scaled matrix
mod vectors; // vectors.rt: vectors summed and filled

use csr32::{Csr, SquareCsr};
use definitions::{Estimated, Refusal};
use power::ScaledCsr;

// The estimate after the checks: the inverse roots, the vector and its image stand one after the other in the work list.
fn run(a: &SquareCsr<'_>, d: &[f64], work: &mut [f64]) -> Result<Estimated, Refusal>
    requires { (length d.now ≡ a.now.rows) × (3 * a.now.rows ≤ length work.old) }
    ensures { result ≡ estimate_answer (estimate_of (square a.now) d.now) }
{
    diagonal::check(d)?;
    let (s, rest) = work.split_at_mut(a.rows);
    let (x, rest) = rest.split_at_mut(a.rows);
    diagonal::inverse_roots(d, s);
    let scaled = ScaledCsr { a: *a, s };
    scaled.estimate(x, &mut rest[..a.rows])
}

// The estimate rho of the largest eigenvalue and the damping factor 4/(3 rho), or the first cause of 1 to 9, 25, 13, 20 to 22.
pub fn estimate(a: &Csr<'_>, diagonal: &[f64], work: &mut [f64]) -> Result<Estimated, Refusal>
    ensures { let call = estimate_call (lent a.now) diagonal.now (length work.old) in
        (result ≡ estimate_answer call) × (work.new ≡ estimate_work_left (lent a.now) diagonal.now work.old) }
{
    let a = a.square()?;
    if diagonal.len() != a.rows {
        return Err(Refusal::WrongLength {
            expected: a.rows as u64,
            actual: diagonal.len() as u64,
        });
    }
    if work.len() < 3 * a.rows {
        return Err(Refusal::ListTooShort);
    }
    let answer = run(&a, diagonal, work);
    work.fill(0.0);
    answer
}
