// The weight of a path: its constants, its one addition and its one order.
ghost use Rattle.network.specs.Answers.{Decides};
ghost use Rattle.network.specs.Weight.{Sum, Lighter};

// Compared by time first, then by edges.
#[derive(Clone, Copy, Debug, PartialEq, Eq, PartialOrd, Ord)]
pub struct Weight {
    pub time: u64,
    pub edges: u32,
}

impl Weight {
    // The empty path's.
    pub const ZERO: Weight = Weight { time: 0, edges: 0 };

    // Above all others: no path yet. No Option: the work rooms hold it as any other weight, and the promises speak of it (`none_yet`).
    pub const NONE: Weight = Weight {
        time: 0xffff_ffff_ffff_ffff,
        edges: 0xffff_ffff,
    };

    // Two stretches, one behind the other; NONE where either number would be too large, and so of a sum with NONE.
    pub fn plus(self, other: Weight) -> Weight
        ensures { Sum self other result }
    {
        let Some(time) = self.time.checked_add(other.time) else {
            return Weight::NONE;
        };
        let Some(edges) = self.edges.checked_add(other.edges) else {
            return Weight::NONE;
        };
        Weight { time, edges }
    }

    // Whether this one is lighter: `<`, by the name that the promises have for it.
    pub fn lighter(self, other: Weight) -> bool
        ensures { Decides result (Lighter self other) }
    {
        self < other
    }
}
