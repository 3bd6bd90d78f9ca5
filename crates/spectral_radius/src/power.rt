// The power method with the scaled matrix, then rho and the damping factor.
ghost use Rattle.std.specs.Prelude.{◌≡◌, ◌<◌, length};
ghost use mathlib.Core.List.{map};
ghost use Rattle.definitions.specs.Numbers.{summed, ◌*ᶠ◌};
ghost use Rattle.definitions.specs.Estimate.{image, normalised, rounds as rounds_of};
ghost use Rattle.definitions.specs.Answers.{estimate_answer};
ghost use Rattle.csr32.specs.Seen.{square};
ghost use Rattle.spectral_radius.specs.Power.{image_at, outcome_of, finished_of, powered_of};

use super::vectors::{begin, dot, normalise};
use csr32::SquareCsr;
use definitions::{Estimated, Refusal};

const ROUNDS: usize = 10;

// The matrix, and the inverse roots of its diagonal, by which rows and columns are scaled.
#[derive(Clone, Copy)]
pub(crate) struct ScaledCsr<'a> {
    pub a: SquareCsr<'a>,
    pub s: &'a [f64],
    pub ghost long: { length s.now ≡ a.rows },
}

impl ScaledCsr<'_> {
    // Element i of the image of x: the inverse root of row i times the sum of (value * s[col]) * x[col] over the row's entries.
    fn row_image(&self, x: &[f64], i: usize) -> f64
        requires { (i < self.now.a.rows) × (length x.now ≡ self.now.a.rows) }
        ensures { result ≡ image_at (square self.now.a) self.now.s.now x.now i }
    {
        let (columns, values) = self.a.row(i);
        let mut sum = 0.0;
        for (column, value) in columns.iter().zip(values) {
            let col = *column as usize;
            sum += *value * self.s[col] * x[col];
        }
        self.s[i] * sum
    }

    // The image of x into y; returns the sum of its squares, from -0, taken in the same pass.
    fn image(&self, x: &[f64], y: &mut [f64]) -> f64
        requires { (length x.now ≡ self.now.a.rows) × (length y.old ≡ self.now.a.rows) }
        ensures image_made { y.new ≡ image (square self.now.a) self.now.s.now x.now }
        ensures squares { result ≡ summed (map (λ v. v *ᶠ v) (image (square self.now.a) self.now.s.now x.now)) }
    {
        let mut sum = -0.0;
        for (i, v) in y.iter_mut().enumerate() {
            let element = self.row_image(x, i);
            *v = element;
            sum += element * element;
        }
        sum
    }

    // One round: the image of x over its norm becomes x. Stage 2.
    fn round(&self, x: &mut [f64], y: &mut [f64]) -> Result<(), Refusal>
        requires { (length x.old ≡ self.now.a.rows) × (length y.old ≡ self.now.a.rows) }
        ensures { outcome_of result x.new ≡ normalised 2 (image (square self.now.a) self.now.s.now x.old) }
    {
        let squares = self.image(x, y);
        normalise(2, y, root::root(squares), x)
    }

    // Ten rounds.
    fn rounds(&self, x: &mut [f64], y: &mut [f64]) -> Result<(), Refusal>
        requires { (length x.old ≡ self.now.a.rows) × (length y.old ≡ self.now.a.rows) }
        ensures { outcome_of result x.new ≡ rounds_of (square self.now.a) self.now.s.now 10 x.old }
    {
        for _ in 0..ROUNDS {
            self.round(x, y)?;
        }
        Ok(())
    }

    // rho, the Rayleigh quotient of the normalised vector, and the damping factor, or the stage 3 or 4 at which they fail.
    fn finish(&self, x: &[f64], y: &mut [f64]) -> Result<Estimated, Refusal>
        requires { (length x.now ≡ self.now.a.rows) × (length y.old ≡ self.now.a.rows) }
        ensures { result ≡ estimate_answer (finished_of (square self.now.a) self.now.s.now x.now) }
    {
        self.image(x, y);
        let rho = dot(x, y);
        if !numbers::above(0.0, rho) {
            return Err(Refusal::EstimateFailed(3));
        }
        let damping = 4.0 / (3.0 * rho);
        if !numbers::above(0.0, damping) {
            return Err(Refusal::EstimateFailed(4));
        }
        Ok(Estimated { rho, damping })
    }

    // Stages 1 to 4, the vector in x and its image in y.
    pub(crate) fn estimate(&self, x: &mut [f64], y: &mut [f64]) -> Result<Estimated, Refusal>
        requires { (length x.old ≡ self.now.a.rows) × (length y.old ≡ self.now.a.rows) }
        ensures { result ≡ estimate_answer (powered_of (square self.now.a) self.now.s.now) }
    {
        begin(x, y)?;
        self.rounds(x, y)?;
        self.finish(x, y)
    }
}
