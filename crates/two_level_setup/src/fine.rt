// The fine level: block factors, groups, and the record that starts with them.
ghost use Rattle.std.specs.Prelude.{◌≡◌, ◌*◌, ◌≤◌};
ghost use Rattle.definitions.specs.Matrix.{max_entries, max_rows};
ghost use Rattle.definitions.specs.Coarse.{resolved};
ghost use Rattle.definitions.specs.Block.{max_block};
ghost use Rattle.csr32.specs.Seen.{lent};
ghost use Rattle.two_level_setup.specs.Stages.{started, fine_of};
ghost use Rattle.two_level_setup.specs.Asking.{Sized, Judged};
ghost use Rattle.two_level_setup.specs.Memory.{lists, room, SameLists};

use super::memory::Memory;
use csr32::Csr;
use definitions::{INVERSE_FROM, Options, Refusal, Setup, TwoLevelCoarseApplyPolicy};

// Auto takes the inverse from a coarse dimension of 1,024 on.
#[tactic(auto, unfolding(definitions::specs::Coarse::resolved))]
fn resolve(policy: TwoLevelCoarseApplyPolicy, c: u64) -> TwoLevelCoarseApplyPolicy
    ensures { result ≡ resolved policy c }
{
    match policy {
        TwoLevelCoarseApplyPolicy::Auto if c < INVERSE_FROM as u64 => {
            TwoLevelCoarseApplyPolicy::FactorSolve
        }
        TwoLevelCoarseApplyPolicy::Auto => TwoLevelCoarseApplyPolicy::ExplicitInverse,
        asked => asked,
    }
}

// The record once the groups are known.
#[tactic(auto, unfolding(crate::specs::Stages::started))]
fn start(rows: usize, entries: usize, options: Options, groups: u64) -> Setup
    requires { (groups * options.block ≤ max_rows * max_block) × (entries ≤ max_entries) × (1 ≤ options.block) }
    ensures { result ≡ started rows entries options groups }
{
    let c = groups * options.block;
    Setup {
        rows: rows as u64,
        entries: entries as u64,
        block: options.block,
        group: options.group,
        nodes: rows as u64 / options.block,
        groups,
        coarse: c,
        transfers: 0,
        aggregation: options.aggregation,
        basis: options.basis,
        policy: resolve(options.policy, c),
        damping: 0.0,
        scale: 0.0,
        complexity: entries as u64,
        baseline: entries as u64,
    }
}

// Block factors, then groups: causes 1 to 8, which the blocks ask, and 14 to 16.
pub(crate) fn fine(a: &Csr<'_>, options: Options, memory: &mut Memory<'_>) -> Result<Setup, Refusal>
    requires { Sized (lent a.now) options (room memory.old) }
    ensures kept { SameLists memory.old memory.new }
    ensures built { let m = lent a.now in
        Judged m (fine_of m options) (lists memory.old) result (lists memory.new) }
{
    let size = options.block as usize;
    block_factor::blocks(a, size, memory.floats)?;
    let groups = two_level_grouping::aggregate(
        a,
        options,
        memory.ints,
        memory.work_ints,
        memory.work_floats,
    )?;
    Ok(start(a.rows, a.values.len(), options, groups))
}
