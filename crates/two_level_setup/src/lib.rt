// Setup of the two-level preconditioner: the record, and the four lists that hold what it made.
#![tactic(auto)]

mod basis; // basis.rt: the transfer, constant or smoothed
mod build; // build.rt: the stages put together, and room for the coarse part
mod coarse; // coarse.rt: the coarse matrix, its factor or inverse
mod fine; // fine.rt: block factors, groups, and the record
mod memory; // memory.rt: the four lists, and whether they are long enough

ghost use Rattle.std.specs.Prelude.{◌≡◌};
ghost use Rattle.definitions.specs.Setup.{setup_of, setup_left, lengths_of, lent_of};
ghost use Rattle.definitions.specs.Answers.{setup_answer};
ghost use Rattle.csr32.specs.Seen.{lent};
ghost use Rattle.two_level_setup.specs.Asking.{Sized, judged_for};
ghost use Rattle.two_level_setup.specs.Memory.{lists, room, SameLists};

use csr32::Csr;
use definitions::{Options, Refusal, Setup};
use memory::Memory;

// Builds, and clears all four lists where that is refused from cause 14 on.
fn build_or_clear(a: &Csr<'_>, options: Options, memory: &mut Memory<'_>) -> Result<Setup, Refusal>
    requires { Sized (lent a.now) options (room memory.old) }
    ensures kept { SameLists memory.old memory.new }
    ensures built { let built = judged_for (lent a.now) options (room memory.old) in
        (result ≡ setup_answer built) × (lists memory.new ≡ setup_left built (lists memory.old)) }
{
    let built = build::build(a, options, memory);
    if let Err(cause) = built
        && !causes::keeps_all(cause)
    {
        memory.clear();
    }
    built
}

// Setup: causes 1 to 24 in their order, of which sizes alone decide some at once; accepted, the record, with what it describes in `ints` and `floats` and zeros in the work lists.
pub fn setup(
    a: &Csr<'_>,
    options: Options,
    ints: &mut [u32],
    floats: &mut [f64],
    work_ints: &mut [u32],
    work_floats: &mut [f64],
) -> Result<Setup, Refusal>
    ensures { let x = lent_of ints.old floats.old work_ints.old work_floats.old in
        let call = setup_of (lent a.now) options (lengths_of x) in
        (result ≡ setup_answer call) × (lent_of ints.new floats.new work_ints.new work_floats.new ≡ setup_left call x) }
{
    let mut memory = Memory {
        ints,
        floats,
        work_ints,
        work_floats,
    };
    if build::sizes_fit(a, options, memory.room()) {
        return build_or_clear(a, options, &mut memory);
    }
    two_level_grouping::front(a, options)?;
    Err(Refusal::ListTooShort)
}
