// The coarse part: the coarse matrix by the basis asked for, and its factor or inverse.
ghost use Rattle.std.specs.Prelude.{◌≡◌, ◌+◌, ◌*◌, ◌≤◌, length, take};
ghost use Rattle.definitions.specs.Matrix.{max_entries};
ghost use Rattle.definitions.specs.Setup.{lent_of, max_coarse};
ghost use Rattle.csr32.specs.Seen.{lent};
ghost use Rattle.two_level_setup.specs.Stages.{measured, coarse_stage};
ghost use Rattle.two_level_setup.specs.Fit.{Ample, MatrixFit, Placed};
ghost use Rattle.two_level_setup.specs.Memory.{lists, room, SameLists};
ghost use Rattle.two_level_setup.specs.Promises.{room_in, MatrixStage, Inverted, Stored, Factored, Weighed, Simulates};

use crate::basis::list_columns;
use crate::memory::Memory;
use coarse_matrix::{constant_coarse, galerkin_coarse, nonzeros};
use csr32::Csr;
use definitions::{Places, Refusal, Setup, TwoLevelBasis, TwoLevelCoarseApplyPolicy};

// The coarse matrix, to the front of the work floats; the work integers are cleared again.
fn matrix(
    a: &Csr<'_>,
    setup: Setup,
    p: Places,
    ints: &[u32],
    floats: &[f64],
    work_ints: &mut [u32],
    work_floats: &mut [f64],
)
    requires placed { Placed a.now.rows setup p }
    requires matrix_fit { MatrixFit (lent a.now) setup (room_in (lent_of ints.now floats.now work_ints.old work_floats.old)) }
    ensures { MatrixStage (lent a.now) setup ints.now floats.now work_ints.old work_floats.old work_ints.new work_floats.new }
{
    let rows = a.rows;
    let size = setup.block as usize;
    let nodes = p.pointers;
    match setup.basis {
        TwoLevelBasis::PiecewiseConstant => {
            list_columns(size, &ints[..nodes], &mut work_ints[..rows]);
            let _ = constant_coarse(a, 1, &work_ints[..rows], setup.coarse as usize, work_floats);
            work_ints[..rows].fill(0);
        }
        TwoLevelBasis::JacobiSmoothed => {
            let first = p.columns;
            let end = first + setup.transfers as usize;
            let used = p.weights;
            let stop = p.coarse;
            let _ = galerkin_coarse(
                a,
                setup.coarse as usize,
                &ints[nodes..first],
                &ints[first..end],
                &floats[used..stop],
                work_ints,
                work_floats,
            );
        }
    }
}

// The inverse in place of the packed factor that stands from `start` on.
#[tactic(auto, using(crate::proofs::Storing::inverted))]
fn invert(c: usize, start: usize, floats: &mut [f64], work: &mut [f64])
    requires { (c ≤ max_coarse) × (start + c * c ≤ length floats.old) × (c * c ≤ length work.old) }
    ensures { Inverted c start floats.old floats.new }
{
    let _ = coarse_inverse::coarse_inverse(c, &floats[start..], work);
    numbers::copy_front(&work[..c * c], &mut floats[start..]);
}

// What the resolved policy stores of the packed factor that stands from `start` on; the work list is cleared.
fn store(
    policy: TwoLevelCoarseApplyPolicy,
    c: usize,
    start: usize,
    floats: &mut [f64],
    work: &mut [f64],
)
    requires { (c ≤ max_coarse) × (start + c * c ≤ length floats.old) × (c * c ≤ length work.old) }
    ensures { Stored policy c start floats.old work.old floats.new work.new }
{
    match policy {
        TwoLevelCoarseApplyPolicy::Auto | TwoLevelCoarseApplyPolicy::FactorSolve => {}
        TwoLevelCoarseApplyPolicy::ExplicitInverse => invert(c, start, floats, work),
    }
    work.fill(0.0);
}

// The factor of the coarse matrix at the front of the work list, from `start` on: causes 23 and 24.
fn factor(
    setup: Setup,
    start: usize,
    floats: &mut [f64],
    work: &mut [f64],
) -> Result<Setup, Refusal>
    requires { (setup.coarse ≤ max_coarse) × (start + setup.coarse * setup.coarse ≤ length floats.old) × (setup.coarse * setup.coarse ≤ length work.old) }
    ensures { Factored setup start floats.old work.old result floats.new work.new }
{
    let c = setup.coarse as usize;
    let scale = coarse_factor::coarse_factor(c, work, &mut floats[start..])?;
    store(setup.policy, c, start, floats, work);
    Ok(Setup { scale, ..setup })
}

// The record with its first count: the entries, and the numbers of the coarse matrix at the front of the work list that are not zero.
#[tactic(auto, unfolding(crate::specs::Stages::measured, crate::specs::Stages::filled))]
fn measure(entries: usize, setup: Setup, work: &[f64]) -> Setup
    requires { (entries ≤ max_entries) × (setup.coarse ≤ max_coarse) × (setup.coarse * setup.coarse ≤ length work.now) }
    ensures { result ≡ measured entries setup (take (setup.coarse * setup.coarse) work.now) }
{
    let c = setup.coarse as usize;
    let places = c * c;
    let count = nonzeros(&work[..places]);
    Setup {
        complexity: entries as u64 + count,
        ..setup
    }
}

// Coarse matrix, its count, then its factor. Each is lent only the fronts that it needs, since a stage clears what it is lent; behind them stand zeros already.
pub(crate) fn coarse(a: &Csr<'_>, setup: Setup, memory: &mut Memory<'_>) -> Result<Setup, Refusal>
    requires { Ample (lent a.now) setup (room memory.old) }
    ensures kept { SameLists memory.old memory.new }
    ensures built { let m = lent a.now in
        Simulates (Weighed m) (coarse_stage m) setup (lists memory.old) result (lists memory.new) }
{
    let p = layout::places(setup);
    let c = setup.coarse as usize;
    let few = a.rows + 2 * c;
    let part = c * c + c;
    // Each list on its own, as in `weights`.
    let ints = &mut *memory.ints;
    let floats = &mut *memory.floats;
    let work_ints = &mut *memory.work_ints;
    let work_floats = &mut *memory.work_floats;
    matrix(
        a,
        setup,
        p,
        ints,
        floats,
        &mut work_ints[..few],
        &mut work_floats[..part],
    );
    let measured = measure(a.values.len(), setup, &work_floats[..part]);
    let start = p.coarse;
    let stop = start + c * c;
    factor(
        measured,
        start,
        &mut floats[..stop],
        &mut work_floats[..part],
    )
}
