// Setup's stages put together: the fine level, then the coarse one.
ghost use Rattle.std.specs.Prelude.{◌≡◌};
ghost use Rattle.csr32.specs.Seen.{lent};
ghost use Rattle.two_level_setup.specs.Stages.{options_of, coarse_level_of, build_of};
ghost use Rattle.two_level_setup.specs.Fit.{Fit, Bounds, Counted};
ghost use Rattle.two_level_setup.specs.Memory.{lists, lengths, room, SameLists};
ghost use Rattle.two_level_setup.specs.Promises.{RoomAnswer, Begun, Simulates};
ghost use Rattle.two_level_setup.specs.Asking.{Sized, SizesTold, Judged};

use super::basis::transfer;
use super::coarse::coarse;
use super::fine::fine;
use super::memory::{Memory, Room};
use csr32::Csr;
use definitions::{MAX_COARSE, MAX_ENTRIES, MAX_ROWS, Options, Refusal, Setup};

// Room for the coarse part: causes 17 and 18.
#[tactic(auto, using(crate::proofs::Rooms::too_large, crate::proofs::Rooms::no_room, crate::proofs::Rooms::has_room_lem))]
fn coarse_room(rows: usize, entries: usize, setup: Setup, room: Room) -> Result<(), Refusal>
    requires { Bounds rows entries setup.block }
    ensures { RoomAnswer rows entries setup (lengths room) result }
{
    if (MAX_COARSE as u64) < setup.coarse {
        return Err(Refusal::CoarseTooLarge(setup.coarse));
    }
    if !room.holds(rows, entries, setup.block, setup.coarse as usize) {
        return Err(Refusal::CoarseListTooShort(setup.coarse));
    }
    Ok(())
}

// Whether all pass that sizes alone decide: the limits of cause 1, 9 to 12, and 13.
pub(crate) fn sizes_fit(a: &Csr<'_>, options: Options, room: Room) -> bool
    ensures { SizesTold (lent a.now) options (lengths room) result }
{
    let entries = a.values.len();
    if MAX_ROWS < a.rows || MAX_ENTRIES < entries {
        return false;
    }
    two_level_grouping::shape(a.rows, a.cols, options.block, options.group).is_ok()
        && room.holds(a.rows, entries, options.block, 0)
}

// The coarse level: room, transfer, coarse part.
fn coarse_level(a: &Csr<'_>, setup: Setup, memory: &mut Memory<'_>) -> Result<Setup, Refusal>
    requires fit { Fit (lent a.now) (options_of setup) (room memory.old) }
    requires counted { Counted (lent a.now) setup }
    ensures kept { SameLists memory.old memory.new }
    ensures built { let m = lent a.now in
        Simulates (Begun m) (coarse_level_of m (room memory.old)) setup (lists memory.old) result (lists memory.new) }
{
    coarse_room(a.rows, a.values.len(), setup, memory.room())?;
    let filled = transfer(a, setup, memory)?;
    coarse(a, filled, memory)
}

// All stages. A refusal from 14 on leaves the lists as they happen to be.
pub(crate) fn build(
    a: &Csr<'_>,
    options: Options,
    memory: &mut Memory<'_>,
) -> Result<Setup, Refusal>
    requires { Sized (lent a.now) options (room memory.old) }
    ensures kept { SameLists memory.old memory.new }
    ensures built { let m = lent a.now in
        Judged m (build_of m options (room memory.old)) (lists memory.old) result (lists memory.new) }
{
    let started = fine(a, options, memory)?;
    coarse_level(a, started, memory)
}
