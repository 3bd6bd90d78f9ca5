// The transfer: constant over each group, or smoothed by the diagonal and the damping factor.
ghost use Rattle.std.specs.Prelude.{◌≡◌, ◌+◌, ◌*◌, ◌^◌, ◌≤◌, length};
ghost use Rattle.definitions.specs.Lists.{tab};
ghost use Rattle.definitions.specs.declared.TwoLevelBasis.TheVariants.{JacobiSmoothed};
ghost use Rattle.definitions.specs.Block.{max_block};
ghost use Rattle.csr32.specs.Seen.{lent};
ghost use Rattle.two_level_setup.specs.Stages.{transfer_stage};
ghost use Rattle.two_level_setup.specs.Fit.{Ample, DampingFit, Placed};
ghost use Rattle.two_level_setup.specs.Memory.{lists, room, SameLists};
ghost use Rattle.two_level_setup.specs.Promises.{Listed, ColumnsPlaced, Damped, MovedInts, MovedFloats, WeightsStage, Begun, Simulates, StaysAmple};

use super::memory::Memory;
use csr32::Csr;
use definitions::{Estimated, MAX_COARSE, Places, Refusal, Setup, TwoLevelBasis};
use transfer::smoothed_transfer;

// The coarse column of each row, so that whoever reads it for every entry need not divide. An id above the limit of coarse columns, which no node has, counts as that limit.
pub(crate) fn list_columns(size: usize, ids: &[u32], columns: &mut [u32])
    requires { (1 ≤ size) × (size ≤ max_block) × (length columns.old ≡ length ids.now * size) }
    ensures { Listed size ids.now columns.old columns.new }
{
    for (node, id) in ids.iter().enumerate() {
        let row = node * size;
        let first = (*id).min(MAX_COARSE as u32) * size as u32;
        for (part, column) in columns[row..row + size].iter_mut().enumerate() {
            *column = first + part as u32;
        }
    }
}

// Pointers and columns go from the front of the work list behind the groups, and are cleared there.
fn keep_columns(nodes: usize, count: usize, ints: &mut [u32], work: &mut [u32])
    requires { (nodes ≤ length ints.old) × (count ≤ length work.old) }
    ensures { MovedInts nodes count ints.old work.old ints.new work.new }
{
    numbers::copy_front(&work[..count], &mut ints[nodes..]);
    work[..count].fill(0);
}

// The coarse columns of the rows, behind the ids: pointers and columns of the transfer will stand there. The front of the work list is cleared again.
fn place_columns(size: usize, nodes: usize, rows: usize, ints: &mut [u32], work: &mut [u32])
    requires { (1 ≤ size) × (size ≤ max_block) × (rows ≡ nodes * size) × (nodes + rows ≤ length ints.old) × (rows ≤ length work.old) }
    ensures { ColumnsPlaced size nodes rows ints.old work.old ints.new work.new }
{
    list_columns(size, &ints[..nodes], &mut work[..rows]);
    keep_columns(nodes, rows, ints, work);
}

// Weights go from the front of the work list behind the block factors, where the diagonal stood up to `end`, and are cleared there.
// Of the diagonal only what the weights leave is cleared.
fn keep_weights(used: usize, end: usize, count: usize, floats: &mut [f64], work: &mut [f64])
    requires { (used ≤ end) × ((end ≤ length floats.old) × (count ≤ length work.old)) }
    ensures { MovedFloats used end count floats.old work.old floats.new work.new }
{
    let last = used + count.min(end - used);
    floats[last..end].fill(0.0);
    numbers::copy_front(&work[..count], &mut floats[used..]);
    work[..count].fill(0.0);
}

// The diagonal, behind the block factors, and the estimate from it: causes 19 to 22. The work floats that it is lent are cleared again.
fn damping(
    a: &Csr<'_>,
    used: usize,
    floats: &mut [f64],
    work: &mut [f64],
) -> Result<Estimated, Refusal>
    requires { DampingFit (lent a.now) used (length floats.old) (length work.old) }
    ensures { Damped (lent a.now) used floats.old work.old result floats.new work.new }
{
    let end = used + a.rows;
    a.diagonal(&mut floats[used..end])?;
    let need = 3 * a.rows;
    spectral_radius::estimate(a, &floats[used..end], &mut work[..need])
}

// The weights for a damping factor, in the fronts of the work lists, and from there to their places; how many they are.
fn weights(a: &Csr<'_>, setup: Setup, p: Places, damping: f64, memory: &mut Memory<'_>) -> usize
    requires ample { Ample (lent a.now) setup (room memory.old) }
    requires basis_value { (setup.basis ≡ JacobiSmoothed) × Placed a.now.rows setup p }
    ensures kept { SameLists memory.old memory.new }
    ensures placed { WeightsStage (lent a.now) setup damping (lists memory.old) result (lists memory.new) }
{
    let rows = a.rows;
    let size = setup.block as usize;
    let nodes = p.pointers;
    let listed = nodes + rows;
    let used = p.weights;
    let end = used + rows;
    let c = setup.coarse as usize;
    let most = rows + a.values.len();
    let few = rows + most + 1 + 2 * c;
    let part = most + c;
    // Each list on its own: the check refuses slices of two lists at once where both are taken through `memory`.
    let ints = &mut *memory.ints;
    let floats = &mut *memory.floats;
    let work_ints = &mut *memory.work_ints;
    let work_floats = &mut *memory.work_floats;
    place_columns(size, nodes, rows, ints, work_ints);
    let answer = smoothed_transfer(
        a,
        1,
        &ints[nodes..listed],
        c,
        &floats[used..end],
        damping,
        &mut work_ints[..few],
        &mut work_floats[..part],
    );
    match answer {
        Err(_) => 0,
        Ok(count) => {
            let transfers = (count as usize).min(most);
            keep_columns(nodes, rows + 1 + transfers, ints, work_ints);
            keep_weights(used, end, transfers, floats, work_floats);
            transfers
        }
    }
}

// The smoothed basis: damping factor, then weights.
fn smoothed(a: &Csr<'_>, setup: Setup, memory: &mut Memory<'_>) -> Result<Setup, Refusal>
    requires ample { Ample (lent a.now) setup (room memory.old) }
    requires basis_value { setup.basis ≡ JacobiSmoothed }
    ensures kept { SameLists memory.old memory.new }
    ensures built { let m = lent a.now in
        Simulates (Begun m) (transfer_stage m) setup (lists memory.old) result (lists memory.new) }
    ensures ample { StaysAmple (lent a.now) (room memory.old) result }
{
    let p = layout::places(setup);
    let found = damping(a, p.weights, memory.floats, memory.work_floats)?;
    let count = weights(a, setup, p, found.damping, memory);
    Ok(Setup {
        transfers: count as u64,
        damping: found.damping,
        ..setup
    })
}

// The transfer by the basis asked for.
pub(crate) fn transfer(a: &Csr<'_>, setup: Setup, memory: &mut Memory<'_>) -> Result<Setup, Refusal>
    requires { Ample (lent a.now) setup (room memory.old) }
    ensures kept { SameLists memory.old memory.new }
    ensures built { let m = lent a.now in
        Simulates (Begun m) (transfer_stage m) setup (lists memory.old) result (lists memory.new) }
    ensures ample { StaysAmple (lent a.now) (room memory.old) result }
{
    match setup.basis {
        TwoLevelBasis::PiecewiseConstant => Ok(setup),
        TwoLevelBasis::JacobiSmoothed => smoothed(a, setup, memory),
    }
}
