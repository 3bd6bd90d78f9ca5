// An answer as its number; the list receives its values.
ghost use Rattle.std.specs.Prelude.{◌≡◌, ℕ, List, [], ◌∷◌};
ghost use Rattle.std.specs.Float.{binary64};
ghost use Rattle.std.specs.Float.Ieee.{to_bits};
ghost use Rattle.definitions.specs.Answers.{answer_number, values_with};
ghost use Rattle.definitions.specs.Record.{record_numbers};
ghost use Rattle.yelomawin.specs.Boundary.{received};

use crate::answers::{receive, refuse};
use crate::record::numbers_of;
use definitions::{Estimated, GroupCounts, Refusal, Setup};
use float_bits::bits_of;

// What a call hands out besides lists, as numbers.
pub(crate) trait Told {
    ghost values: { Self → List ℕ };

    fn into_list(self, list: &mut [u64])
        ensures { list.new ≡ received (values self) list.old };
}

impl Told for () {
    ghost values = { λ _. [] };

    fn into_list(self, list: &mut [u64]) {
        receive(list, &[]);
    }
}

impl Told for u64 {
    ghost values = { λ n. n ∷ [] };

    fn into_list(self, list: &mut [u64]) {
        receive(list, &[self]);
    }
}

impl Told for GroupCounts {
    ghost values = { λ g. g.groups ∷ g.joinings ∷ [] };

    fn into_list(self, list: &mut [u64]) {
        receive(list, &[self.groups, self.joinings]);
    }
}

impl Told for Estimated {
    ghost values = { λ e. to_bits binary64 e.rho ∷ to_bits binary64 e.damping ∷ [] };

    fn into_list(self, list: &mut [u64]) {
        receive(list, &[bits_of(self.rho), bits_of(self.damping)]);
    }
}

impl Told for Setup {
    ghost values = { λ s. record_numbers s };

    fn into_list(self, list: &mut [u64]) {
        receive(list, &numbers_of(self));
    }
}

#[tactic(auto, unfolding(definitions::specs::Answers::answer_number, definitions::specs::Answers::values_with))]
pub(crate) fn tell<T: Told>(answer: Result<T, Refusal>, list: &mut [u64]) -> u64
    ensures value { result ≡ answer_number answer }
    ensures list_after { list.new ≡ received (values_with T.values answer) list.old }
{
    match answer {
        Ok(x) => {
            x.into_list(list);
            0
        }
        Err(cause) => refuse(cause, list),
    }
}
