// Numbers into a list that receives them, and refusals as numbers.
ghost use Rattle.std.specs.Prelude.{◌≡◌};
ghost use Rattle.definitions.specs.Refusal.{number_of, values_of};
ghost use Rattle.yelomawin.specs.Boundary.{received};

use definitions::Refusal;

// The list receives the values as far as it has room, and zeros after them.
pub(crate) fn receive(list: &mut [u64], values: &[u64])
    ensures { list.new ≡ received values.now list.old }
{
    list.fill(0);
    numbers::copy_front(values, list);
}

// A refusal's number; the list receives its values.
pub(crate) fn refuse(cause: Refusal, list: &mut [u64]) -> u64
    ensures value { result ≡ number_of cause }
    ensures list_after { list.new ≡ received (values_of cause) list.old }
{
    let told = causes::told(cause);
    receive(list, &[told.first, told.second]);
    told.number
}
