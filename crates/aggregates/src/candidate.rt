// A group that another one names, as what the choice goes by: the edges to it, its members and its id, in this order.
ghost use Rattle.std.specs.Prelude.{◌≡◌, ◌<◌, length};
ghost use Rattle.aggregates.specs.JoinChoice.{before_by};
ghost use Rattle.aggregates.specs.Log.{rule_between};
ghost use Rattle.aggregates.specs.Stated.{candidate};

#[derive(Clone, Copy)]
pub(crate) struct Candidate {
    pub(crate) edges: u32,
    pub(crate) members: u32,
    pub(crate) id: u32,
}

impl Candidate {
    pub(crate) fn of(counts: &[u32], hits: &[u32], id: u32) -> Candidate
        requires counted { id < length counts.now }
        requires named { id < length hits.now }
        ensures { result ≡ candidate counts.now hits.now id }
    {
        let at = id as usize;
        Candidate {
            edges: hits[at],
            members: counts[at],
            id,
        }
    }

    // Most edges, then fewer members, then the lower id.
    pub(crate) fn comes_before(&self, other: &Candidate) -> bool
        ensures { let a = self.now in let b = other.now in
            result ≡ before_by a.edges b.edges a.members b.members a.id b.id }
    {
        if self.edges != other.edges {
            self.edges > other.edges
        } else if self.members != other.members {
            self.members < other.members
        } else {
            self.id < other.id
        }
    }

    // By which test this group stays and the other does not: 1 none, they are one; 2 edges; 3 members; 4 the id.
    // Numbers and no enum: the log has them, and of several the largest is taken.
    pub(crate) fn rule_against(&self, other: &Candidate) -> u32
        ensures { let b = self.now in let a = other.now in
            result ≡ rule_between a.edges b.edges a.members b.members a.id b.id }
    {
        if other.id == self.id {
            1
        } else if other.edges != self.edges {
            2
        } else if other.members != self.members {
            3
        } else {
            4
        }
    }
}
