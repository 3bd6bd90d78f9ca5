// A setup whose lists fit its record: its parts, and the correction from them.
ghost use Rattle.std.specs.Prelude.{◌≡◌, ◌*◌, ◌≤◌, length, take, replicate};
ghost use Rattle.definitions.specs.Lists.{padded};
ghost use Rattle.definitions.specs.Numbers.{zeroᶠ};
ghost use Rattle.definitions.specs.Matrix.{row_of};
ghost use Rattle.definitions.specs.Block.{block_applied};
ghost use Rattle.definitions.specs.Coarse.{coarse_solve};
ghost use Rattle.definitions.specs.Places.{ids_in, factors_in, coarse_in};
ghost use Rattle.definitions.specs.Apply.{transfer_in, applied};
ghost use Rattle.definitions.specs.declared.TwoLevelBasis.TheVariants.{JacobiSmoothed};
ghost use Rattle.two_level_apply.specs.Scatter.{Grouped, Laid};

use super::prolongation::prolong;
use super::restriction::restrict;
use csr32::CompressedRows;
use definitions::{Places, Setup};

#[derive(Clone, Copy)]
pub(crate) struct Preconditioner<'a> {
    pub setup: Setup,
    pub places: Places,
    pub ints: &'a [u32],
    pub floats: &'a [f64],
    pub ghost laid: { Laid setup places ints.now floats.now },
}

impl<'a> Preconditioner<'a> {
    // The factors of the blocks, end to end.
    #[tactic(auto, using(crate::proofs::Parts::factors_long))]
    pub(crate) fn factors(&self) -> &'a [f64]
        ensures { result.now ≡ factors_in self.now.setup self.now.floats.now }
    {
        &self.floats[..self.places.weights]
    }

    // The group of each node.
    #[tactic(auto, using(crate::proofs::Parts::ids_long))]
    pub(crate) fn ids(&self) -> &'a [u32]
        ensures value { result.now ≡ ids_in self.now.setup self.now.ints.now }
        ensures grouped { Grouped self.now.setup.block result.now self.now.setup.rows self.now.setup.coarse }
    {
        &self.ints[..self.places.pointers]
    }

    // The smoothed transfer: each row's weights at their coarse columns.
    #[tactic(auto, using(crate::proofs::Parts::room, crate::proofs::Parts::transfer_room))]
    pub(crate) fn transfer(&self) -> CompressedRows<'a>
        requires { self.now.setup.basis ≡ JacobiSmoothed }
        ensures rows { result.rows ≡ self.now.setup.rows }
        ensures cols { result.cols ≡ self.now.setup.coarse }
        ensures weights { row_of result.row_ptr.now result.col_idx.now result.values.now ≡ transfer_in self.now.setup self.now.ints.now self.now.floats.now }
    {
        let places = self.places;
        CompressedRows {
            rows: self.setup.rows as usize,
            cols: self.setup.coarse as usize,
            row_ptr: &self.ints[places.pointers..places.columns],
            col_idx: &self.ints[places.columns..places.ints],
            values: &self.floats[places.weights..places.coarse],
        }
    }

    // The packed factor of the coarse matrix, or its inverse.
    #[tactic(auto, using(crate::proofs::Parts::room))]
    pub(crate) fn coarse_part(&self) -> &'a [f64]
        ensures { result.now ≡ coarse_in self.now.setup self.now.floats.now }
    {
        &self.floats[self.places.coarse..self.places.floats]
    }

    // The solves with the blocks, which refuse nothing that fits.
    fn solve_blocks(&self, residual: &[f64], correction: &mut [f64])
        requires rows { length residual.now ≡ self.now.setup.rows }
        requires room { length correction.old ≡ self.now.setup.rows }
        ensures { correction.new ≡ block_applied self.now.setup.rows self.now.setup.block (factors_in self.now.setup self.now.floats.now) residual.now }
    {
        let _ = block_apply::block_apply(
            self.setup.rows as usize,
            self.setup.block as usize,
            self.factors(),
            residual,
            correction,
        );
    }

    // The solve with the coarse part, which refuses nothing that fits: of the right-hand side in the first elements of work, with zeros after the solution.
    #[tactic(auto, using(crate::proofs::Solving::coarse_left))]
    fn solve_coarse(&self, work: &mut [f64])
        requires { 2 * self.now.setup.coarse ≤ length work.old }
        ensures { let s = self.now.setup in let w = work.old in
            work.new ≡ padded zeroᶠ (length w) (coarse_solve s.policy s.coarse (coarse_in s self.now.floats.now) (take s.coarse w)) }
    {
        let coarse = self.setup.coarse as usize;
        let _ = coarse_solve::coarse_solve(self.setup.policy, coarse, self.coarse_part(), work);
    }

    // The correction, of lists that fit; work is cleared.
    #[tactic(auto, using(crate::proofs::Solving::cleared))]
    pub(crate) fn correct(&self, residual: &[f64], correction: &mut [f64], work: &mut [f64])
        requires rows { length residual.now ≡ self.now.setup.rows }
        requires room { length correction.old ≡ self.now.setup.rows }
        requires work_room { 2 * self.now.setup.coarse ≤ length work.old }
        ensures correction_after { correction.new ≡ applied self.now.setup self.now.ints.now self.now.floats.now residual.now }
        ensures work_after { work.new ≡ replicate (length work.old) zeroᶠ }
    {
        let coarse = self.setup.coarse as usize;
        self.solve_blocks(residual, correction);
        restrict(self, residual, &mut work[..coarse]);
        self.solve_coarse(work);
        prolong(self, &work[..coarse], correction);
        work[..coarse].fill(0.0);
    }
}
