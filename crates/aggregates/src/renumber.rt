// Numbers by first appearance, from 0. The table has, for each number, its new number plus one, and 0 while it has none.
ghost use Rattle.std.specs.Prelude.{◌≡◌, ℕ, ◌^◌, ◌<◌, length, get_or};
ghost use Rattle.definitions.specs.Groups.{renumbered};

// Returns how many numbers there are.
pub(crate) fn renumber(ids: &mut [u32], table: &mut [u32]) -> u32
    requires upto { (v : ℕ) → v < length ids.old → get_or ids.old v 0 < length table.old }
    requires few { length ids.old < 2 ^ 31 }
    ensures ids_after { ids.new ≡ (renumbered ids.old).ids }
    ensures value { result ≡ (renumbered ids.old).count }
{
    table.fill(0);
    let mut count: u32 = 0;
    for id in ids.iter_mut() {
        let at = *id as usize;
        if table[at] == 0 {
            count += 1;
            table[at] = count;
        }
        *id = table[at] - 1;
    }
    count
}
