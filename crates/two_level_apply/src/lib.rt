// The two-level apply: block solves, plus the coarse correction P E⁻¹ Pᵀ r.
#![tactic(auto)]

ghost use Rattle.std.specs.Prelude.{◌≡◌, length};
ghost use Rattle.definitions.specs.Answers.{answer_of};
ghost use Rattle.definitions.specs.Apply.{apply_call, apply_left, apply_work_left};

use definitions::{Refusal, Setup};
use preconditioner::Preconditioner;

mod adding; // adding.rt: one list added to another
mod preconditioner; // preconditioner.rt: a setup that fits, its parts, and the correction
mod prolongation; // prolongation.rt: the coarse solution added to the rows
mod restriction; // restriction.rt: the residual at the coarse columns

// Two-level apply: 25 for the residual, 25 for the correction, 26, 13.
pub fn apply(
    setup: Setup,
    ints: &[u32],
    floats: &[f64],
    residual: &[f64],
    correction: &mut [f64],
    work: &mut [f64],
) -> Result<(), Refusal>
    ensures { let i = ints.now in
        let f = floats.now in
        let x = residual.now in
        let z = correction.old in
        let w = work.old in
        (result ≡ answer_of (apply_call setup i f x (length z) (length w)))
        × (correction.new ≡ apply_left setup i f x z (length w))
        × (work.new ≡ apply_work_left setup i f x (length z) w) }
{
    let rows = setup.rows;
    let given = residual.len() as u64;
    if given != rows {
        return Err(Refusal::WrongLength {
            expected: rows,
            actual: given,
        });
    }
    let room = correction.len() as u64;
    if room != rows {
        return Err(Refusal::WrongLength {
            expected: rows,
            actual: room,
        });
    }
    let Some(places) = setup_record::setup_fits(setup, ints, floats) else {
        return Err(Refusal::SetupMisfit);
    };
    if (work.len() as u64) < 2 * setup.coarse {
        return Err(Refusal::ListTooShort);
    }
    let preconditioner = Preconditioner {
        setup,
        places,
        ints,
        floats,
    };
    preconditioner.correct(residual, correction, work);
    Ok(())
}
