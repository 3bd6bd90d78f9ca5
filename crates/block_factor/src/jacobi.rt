// The factors of all blocks of a matrix, end to end.
ghost use Rattle.std.specs.Prelude.{◌≡◌, ◌+◌, ◌-◌, ◌*◌, ◌<◌, ◌≤◌, IfSome, length, take};
ghost use Rattle.definitions.specs.Numbers.{zeroᶠ};
ghost use Rattle.definitions.specs.Refusal.{result_left};
ghost use Rattle.definitions.specs.Block.{block_count, block_factor, factors_from, factors_of, max_block};
ghost use Rattle.definitions.specs.Answers.{answer_of};
ghost use Rattle.csr32.specs.Seen.{square};
ghost use Rattle.block_factor.specs.Held.{held, PairIn};

use super::cholesky::factor;
use super::gather::gather;
use super::pair::factor_pair;
use csr32::SquareCsr;
use definitions::Refusal;
use root::StartTable;

// What the factors are made from: the matrix, the blocks' width, and the table that all roots start from, built once.
#[derive(Drop)]
pub(crate) struct BlockJacobi<'a> {
    pub a: SquareCsr<'a>,
    pub size: usize,
    pub table: StartTable,
    pub ghost some: { 0 < size },
    pub ghost small: { size ≤ max_block },
}

impl BlockJacobi<'_> {
    // One block's factor, into its place. A refused one leaves the place as it was.
    fn block_into(&self, first: usize, w: usize, place: &mut [f64]) -> Result<(), Refusal>
        requires { (first + w ≤ self.now.a.rows) × (w ≤ max_block) × (length place.old ≡ w * w) }
        ensures value { result ≡ answer_of (block_factor (square self.now.a) first w) }
        ensures place_after { place.new ≡ held (block_factor (square self.now.a) first w) place.old }
    {
        let block = factor(gather(&self.a, first, w), first, &self.table)?;
        numbers::copy_front(&block.a, place);
        Ok(())
    }

    // The factors of two whole blocks, one after the other, into their place, if both have one.
    fn pair_into(&self, first: usize, place: &mut [f64]) -> Option<()>
        requires { (first + self.now.size + self.now.size ≤ self.now.a.rows) × (length place.old ≡ self.now.size * self.now.size + self.now.size * self.now.size) }
        ensures { IfSome result (λ _. PairIn (square self.now.a) first self.now.size place.new) }
    {
        let second = first + self.size;
        let (one, two) = factor_pair(
            gather(&self.a, first, self.size),
            gather(&self.a, second, self.size),
            &self.table,
        )?;
        let n = self.size * self.size;
        numbers::copy_front(&one.a, &mut place[..n]);
        numbers::copy_front(&two.a, &mut place[n..]);
        Some(())
    }

    // The factors of the first blocks, two at a time, as far as both have one: how many they are.
    fn fill_pairs(&self, factors: &mut [f64]) -> usize
        requires { self.now.a.rows * self.now.size ≤ length factors.old }
        ensures size_bound { result * self.now.size ≤ self.now.a.rows }
        ensures factors_after { let a = square self.now.a in let size = self.now.size in
            factors_from a size (block_count a.rows size - result) result (take (result * size * size) factors.new) ≡ factors_of a size }
    {
        let size = self.size;
        let pairs = self.a.rows / (2 * size);
        for pair in 0..pairs {
            let k = 2 * pair;
            let first = k * size;
            let used = first * size;
            let end = used + 2 * (size * size);
            let Some(()) = self.pair_into(first, &mut factors[used..end]) else {
                return k;
            };
        }
        2 * pairs
    }

    // The factors end to end, and zeros after them. Refused, the list holds zeros alone.
    // From the first pair without two factors on, one by one: so the first refused block is the one told.
    pub(crate) fn fill(&self, factors: &mut [f64]) -> Result<(), Refusal>
        requires { self.now.a.rows * self.now.size ≤ length factors.old }
        ensures value { result ≡ answer_of (factors_of (square self.now.a) self.now.size) }
        ensures factors_after { factors.new ≡ result_left zeroᶠ (factors_of (square self.now.a) self.now.size) factors.old }
    {
        let rows = self.a.rows;
        let size = self.size;
        let count = (rows + (size - 1)) / size;
        let start = self.fill_pairs(factors);
        let mut used = start * size * size;
        for k in start..count {
            let first = k * size;
            let w = size.min(rows - first);
            let end = used + w * w;
            if let Err(cause) = self.block_into(first, w, &mut factors[used..end]) {
                factors.fill(0.0);
                return Err(cause);
            }
            used = end;
        }
        factors[used..].fill(0.0);
        Ok(())
    }
}
