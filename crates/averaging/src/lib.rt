// A square matrix averaged with its transpose, in place: off the diagonal only.
#![tactic(auto)]

ghost use Rattle.std.specs.Prelude.{◌≡◌, ◌+◌, ◌*◌, ◌<◌, ◌≤◌, length};
ghost use Rattle.definitions.specs.Numbers.{zeroᶠ};
ghost use Rattle.definitions.specs.Refusal.{result_left};
ghost use Rattle.definitions.specs.Answers.{answer_of};
ghost use Rattle.definitions.specs.Setup.{max_coarse};
ghost use Rattle.averaging.specs.Averaging.{average_call, pair_averaged, Tile, Averages};

use definitions::{MAX_COARSE, Refusal};

// The dimension and the list stay two parameters: of a struct with the lent list each contract would have to say that the dimension stays.

// Both places of a pair become half of their sum, the lower entry first.
fn average_pair(m: &mut [f64], low: usize, up: usize)
    requires { (low < length m.old) × (up < length m.old) }
    ensures { m.new ≡ pair_averaged m.old low up }
{
    let v = 0.5 * (m[low] + m[up]);
    m[low] = v;
    m[up] = v;
}

// The pairs of column j in rows from .. to: their upper entries stand side by side.
fn average_column(c: usize, j: usize, from: usize, to: usize, m: &mut [f64])
    requires { (j < from) × (from ≤ to) × (to ≤ c) × (c * c ≤ length m.old) }
    ensures { Averages c (Tile from to j (j + 1)) m.old m.new }
{
    for i in from..to {
        average_pair(m, i * c + j, j * c + i);
    }
}

// The pairs of rows first .. end, column by column.
fn average_strip(c: usize, first: usize, end: usize, m: &mut [f64])
    requires { (first ≤ end) × (end ≤ c) × (c * c ≤ length m.old) }
    ensures { Averages c (Tile first end 0 end) m.old m.new }
{
    for j in 0..end {
        average_column(c, j, first.max(j + 1), end, m);
    }
}

// Eight rows at a time: so eight numbers that stand side by side, one line of the cache, are taken while they are there.
fn average_rows(c: usize, m: &mut [f64])
    requires { (c ≤ max_coarse) × (c * c ≤ length m.old) }
    ensures { Averages c (Tile 0 c 0 c) m.old m.new }
{
    for strip in 0..c.div_ceil(8) {
        let first = strip * 8;
        average_strip(c, first, c.min(first + 8), m);
    }
}

// The matrix in the first c · c elements, in place, with zeros after it.
pub fn average(c: usize, m: &mut [f64]) -> Result<(), Refusal>
    ensures { (result ≡ answer_of (average_call c m.old)) × (m.new ≡ result_left zeroᶠ (average_call c m.old) m.old) }
{
    if MAX_COARSE < c {
        m.fill(0.0);
        return Err(Refusal::CoarseTooLarge(c as u64));
    }
    let square = c * c;
    if m.len() < square {
        m.fill(0.0);
        return Err(Refusal::CoarseListTooShort(c as u64));
    }
    average_rows(c, m);
    m[square..].fill(0.0);
    Ok(())
}
