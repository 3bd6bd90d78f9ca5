// What setup is lent, and whether it is long enough.
ghost use Rattle.std.specs.Prelude.{◌≡◌, ◌*◌, ◌≤◌};
ghost use Rattle.definitions.specs.Places.{covers};
ghost use Rattle.definitions.specs.Setup.{max_coarse};
ghost use Rattle.two_level_setup.specs.Fit.{Bounds};
ghost use Rattle.two_level_setup.specs.Memory.{lists, lengths, room, SameLists};
ghost use Rattle.two_level_setup.specs.Promises.{RoomFor, Zeroed};

// Two lists that hold what setup makes, and two to work in.
#[derive(Drop)]
pub(crate) struct Memory<'a> {
    pub(crate) ints: &'a mut [u32],
    pub(crate) floats: &'a mut [f64],
    pub(crate) work_ints: &'a mut [u32],
    pub(crate) work_floats: &'a mut [f64],
}

impl Memory<'_> {
    pub(crate) fn room(&self) -> Room
        ensures { lengths result ≡ room self.now }
    {
        Room {
            ints: self.ints.len(),
            floats: self.floats.len(),
            work_ints: self.work_ints.len(),
            work_floats: self.work_floats.len(),
        }
    }

    pub(crate) fn clear(&mut self)
        ensures kept { SameLists self.old self.new }
        ensures zeros { Zeroed (lists self.old) (lists self.new) }
    {
        self.ints.fill(0);
        self.floats.fill(0.0);
        self.work_ints.fill(0);
        self.work_floats.fill(0.0);
    }
}

// The lengths of the four lists.
#[derive(Clone, Copy)]
pub(crate) struct Room {
    pub(crate) ints: usize,
    pub(crate) floats: usize,
    pub(crate) work_ints: usize,
    pub(crate) work_floats: usize,
}

impl Room {
    #[tactic(auto, unfolding(definitions::specs::Places::covers))]
    fn covers(self, need: Room) -> bool
        ensures { result ≡ covers (lengths self) (lengths need) }
    {
        need.ints <= self.ints
            && need.floats <= self.floats
            && need.work_ints <= self.work_ints
            && need.work_floats <= self.work_floats
    }

    // Whether the lists are as long as setup asks for a coarse dimension c: 13 before it is known, with 0, and 18.
    #[tactic(auto, unfolding(definitions::specs::Places::entry_needs, definitions::specs::Places::coarse_needs), using(layout::proofs::Sizes::whole_fits))]
    pub(crate) fn holds(self, rows: usize, entries: usize, block: u64, c: usize) -> bool
        requires { Bounds rows entries block × (c ≤ max_coarse) }
        ensures { RoomFor rows entries block c (lengths self) result }
    {
        let size = block as usize;
        let dense = c * c;
        self.covers(Room {
            ints: rows / size + 2 * rows + entries + 1,
            floats: rows * size + rows + entries + dense,
            work_ints: 8 * rows + 4 * entries + 16 + 4 * c,
            work_floats: 8 * rows + 2 * entries + (dense + 4 * c),
        })
    }
}
