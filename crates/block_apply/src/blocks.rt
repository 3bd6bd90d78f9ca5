// The blocks, one after the other: those of the whole size, and a last one that is smaller.
ghost use Rattle.std.specs.Prelude.{◌≡◌, ◌*◌, ◌≤◌, length};
ghost use Rattle.definitions.specs.Block.{block_applied, max_block};
ghost use Rattle.definitions.specs.Matrix.{max_rows};
ghost use Rattle.block_apply.specs.Solved.{Whole, solved_to};

use crate::solve::solve;

// The first blocks, all of one size. Each size is a constant: the compiler unrolls a block's loops, and neighbouring blocks overlap.
// By places, and not by `chunks_mut`: a proof knows nothing of a list whose chunks were lent.
fn whole_blocks<const W: usize>(count: usize, factors: &[f64], r: &[f64], z: &mut [f64])
    requires { Whole count W factors.now r.now z.old }
    ensures { z.new ≡ solved_to count W factors.now r.now z.old }
{
    for k in 0..count {
        let first = k * W;
        let at = first * W;
        solve::<W>(
            &factors[at..at + W * W],
            &r[first..first + W],
            &mut z[first..first + W],
        );
    }
}

fn blocks_by_size(count: usize, size: usize, factors: &[f64], r: &[f64], z: &mut [f64])
    requires { Whole count size factors.now r.now z.old }
    ensures { z.new ≡ solved_to count size factors.now r.now z.old }
{
    match size {
        1 => whole_blocks::<1>(count, factors, r, z),
        2 => whole_blocks::<2>(count, factors, r, z),
        3 => whole_blocks::<3>(count, factors, r, z),
        4 => whole_blocks::<4>(count, factors, r, z),
        5 => whole_blocks::<5>(count, factors, r, z),
        6 => whole_blocks::<6>(count, factors, r, z),
        7 => whole_blocks::<7>(count, factors, r, z),
        _ => whole_blocks::<8>(count, factors, r, z),
    }
}

pub(crate) fn solve_blocks(rows: usize, size: usize, factors: &[f64], r: &[f64], z: &mut [f64])
    requires { (length r.now ≡ rows) × (length z.old ≡ rows) × (rows ≤ max_rows) × (1 ≤ size) × (size ≤ max_block) × (rows * size ≤ length factors.now) }
    ensures { z.new ≡ block_applied rows size factors.now r.now }
{
    let count = rows / size;
    blocks_by_size(count, size, factors, r, z);
    let first = count * size;
    if first < rows {
        let w = rows - first;
        let at = first * size;
        blocks_by_size(1, w, &factors[at..at + w * w], &r[first..], &mut z[first..]);
    }
}
