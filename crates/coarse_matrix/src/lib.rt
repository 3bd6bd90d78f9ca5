// The coarse matrix, by the basis that is constant over a group and by the smoothed one.
#![tactic(auto)]

ghost use Rattle.std.specs.Prelude.{◌≡◌, length};
ghost use Rattle.definitions.specs.Numbers.{zeroᶠ, nonzeros as nonzeros_of};
ghost use Rattle.definitions.specs.Refusal.{result_left, work_left};
ghost use Rattle.definitions.specs.Answers.{answer_of};
ghost use Rattle.csr32.specs.Seen.{lent};
ghost use Rattle.coarse_matrix.specs.Calls.{constant_coarse_call, galerkin_coarse_call};

use causes::leave;
use csr32::Csr;
use definitions::Refusal;

mod checks;
mod constant;
mod galerkin;
mod grouped; // grouped.rt: a matrix and the groups of its rows
mod smoothed; // smoothed.rt: a matrix and its transfer

// The coarse matrix of the basis that is constant over a group, averaged with its transpose, with zeros after it.
pub fn constant_coarse(
    a: &Csr<'_>,
    block_size: usize,
    ids: &[u32],
    groups: usize,
    coarse: &mut [f64],
) -> Result<(), Refusal>
    ensures { let call = constant_coarse_call (lent a.now) block_size ids.now groups (length coarse.old) in
        (result ≡ answer_of call) × (coarse.new ≡ result_left zeroᶠ call coarse.old) }
{
    match checks::grouped(a, block_size, ids, groups, coarse.len()) {
        Ok(m) => {
            constant::constant_into(&m, coarse);
            Ok(())
        }
        Err(cause) => {
            leave(cause, 0.0, coarse);
            Err(cause)
        }
    }
}

// The coarse matrix of the smoothed basis, averaged with its transpose, with zeros after it; the integers are work, left zero.
pub fn galerkin_coarse(
    a: &Csr<'_>,
    c: usize,
    transfer_ptr: &[u32],
    transfer_idx: &[u32],
    weights: &[f64],
    ints: &mut [u32],
    floats: &mut [f64],
) -> Result<(), Refusal>
    ensures { let call = galerkin_coarse_call (lent a.now) c transfer_ptr.now transfer_idx.now weights.now (length ints.old) (length floats.old) in
        (result ≡ answer_of call) × (ints.new ≡ work_left 0 call ints.old) × (floats.new ≡ result_left zeroᶠ call floats.old) }
{
    let accepted = checks::smoothed(
        a,
        c,
        transfer_ptr,
        transfer_idx,
        weights,
        ints.len(),
        floats.len(),
    );
    match accepted {
        Ok(m) => {
            galerkin::galerkin_into(&m, ints, floats);
            Ok(())
        }
        Err(cause) => {
            leave(cause, 0, ints);
            leave(cause, 0.0, floats);
            Err(cause)
        }
    }
}

// How many numbers of a list are not zero; -0 is zero.
pub fn nonzeros(m: &[f64]) -> u64
    ensures { result ≡ nonzeros_of m.now }
{
    let mut count = 0;
    for x in m {
        if *x != 0.0 {
            count += 1;
        }
    }
    count
}
