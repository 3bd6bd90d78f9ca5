// Adding into a list.
ghost use Rattle.std.specs.Prelude.{◌≡◌, length, get_or};
ghost use Rattle.std.specs.Float.{nan};
ghost use Rattle.definitions.specs.Lists.{tab};
ghost use Rattle.definitions.specs.Numbers.{◌+ᶠ◌};

// Adds the numbers of one list to those of another.
#[tactic(auto, using(laws::proofs::Growing::tab_none, laws::proofs::Growing::tab_more, laws::proofs::Growing::tab_unread))]
pub(crate) fn add_list(from: &[f64], to: &mut [f64])
    requires { length from.now ≡ length to.old }
    ensures { to.new ≡ tab (λ k. get_or to.old k nan +ᶠ get_or from.now k nan) (length to.old) }
{
    for (k, x) in to.iter_mut().enumerate() {
        *x += from[k];
    }
}
