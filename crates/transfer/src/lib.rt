// The smoothed transfer: a row's own coarse column, less one damped Jacobi step, as compressed rows.
#![tactic(auto)]

mod checks;
mod rows;
mod smoothing; // smoothing.rt: what the weights are made of
mod touched;
mod weights;

ghost use Rattle.std.specs.Prelude.{◌≡◌, ◌+◌, ◌*◌, ◌≤◌, length, MatchResult};
ghost use Rattle.definitions.specs.Answers.{transfer_answer};
ghost use Rattle.definitions.specs.Refusal.{refused, done};
ghost use Rattle.definitions.specs.Transfer.{transfer_of};
ghost use Rattle.csr32.specs.Seen.{lent, square};
ghost use Rattle.transfer.specs.Weights.{Left};
ghost use Rattle.transfer.specs.Call.{transfer_checked, smoothed_transfer_call, transfer_ints, transfer_floats};
ghost use Rattle.transfer.specs.Accepted.{Accepts};

use causes::leave;
use csr32::{Csr, Groups, SquareCsr};
use definitions::Refusal;
use smoothing::Smoothing;

// What an accepted call is about, by all checks in their order; `ints` and `floats` are the lengths of the lists lent.
fn accepted<'a>(
    a: &Csr<'a>,
    size: usize,
    ids: &'a [u32],
    groups: usize,
    diagonal: &'a [f64],
    damping: f64,
    ints: usize,
    floats: usize,
) -> Result<Smoothing<'a>, Refusal>
    ensures { let checked = transfer_checked (lent a.now) size ids.now groups (length diagonal.now) ints floats in
        MatchResult result
        (λ s. (checked ≡ done tt) × Accepts (lent a.now) size ids.now groups diagonal.now damping ints floats s)
        (λ cause. checked ≡ refused cause) }
{
    checks::check(a, size, ids, groups, diagonal.len(), ints, floats)?;
    let Csr {
        rows,
        row_ptr,
        col_idx,
        values,
        ..
    } = *a;
    let a = SquareCsr {
        rows,
        row_ptr,
        col_idx,
        values,
    };
    let groups = Groups {
        rows,
        size,
        ids,
        coarse: groups * size,
    };
    Ok(Smoothing {
        a,
        groups,
        diagonal,
        damping,
    })
}

// The transfer, with zeros behind it in both lists; returns how many weights it has.
fn assemble(s: &Smoothing<'_>, ints: &mut [u32], floats: &mut [f64]) -> usize
    requires { (s.now.a.rows + 1 + (s.now.a.rows + length s.now.a.values.now) + s.now.groups.coarse ≤ length ints.old)
        × (s.now.a.rows + length s.now.a.values.now + s.now.groups.coarse ≤ length floats.old) }
    ensures { Left (transfer_of (square s.now.a) s.now.diagonal.now s.now.damping s.now.groups.size s.now.groups.ids.now s.now.groups.coarse) result ints.old ints.new floats.old floats.new }
{
    let most = s.a.rows + s.a.values.len();
    let c = s.groups.coarse;
    let (pointers, behind) = ints.split_at_mut(s.a.rows + 1);
    let (columns, touched) = behind.split_at_mut(most);
    let (weights, sums) = floats.split_at_mut(most);
    let n = rows::build(
        s,
        pointers,
        columns,
        weights,
        &mut touched[..c],
        &mut sums[..c],
    );
    ints[s.a.rows + 1 + n..].fill(0);
    floats[n..].fill(0.0);
    n
}

// The smoothed transfer: pointers, then columns, at the front of one list, the weights at the front of the other, zeros behind them.
pub fn smoothed_transfer(
    a: &Csr<'_>,
    block_size: usize,
    ids: &[u32],
    groups: usize,
    diagonal: &[f64],
    damping: f64,
    ints: &mut [u32],
    floats: &mut [f64],
) -> Result<u64, Refusal>
    ensures { let call = smoothed_transfer_call (lent a.now) block_size ids.now groups diagonal.now damping (length ints.old) (length floats.old) in
        (result ≡ transfer_answer call) × ((ints.new ≡ transfer_ints call ints.old) × (floats.new ≡ transfer_floats call floats.old)) }
{
    let accepted = accepted(
        a,
        block_size,
        ids,
        groups,
        diagonal,
        damping,
        ints.len(),
        floats.len(),
    );
    match accepted {
        Ok(s) => Ok(assemble(&s, ints, floats) as u64),
        Err(cause) => {
            leave(cause, 0, ints);
            leave(cause, 0.0, floats);
            Err(cause)
        }
    }
}
