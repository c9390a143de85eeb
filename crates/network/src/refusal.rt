// Why the unit refuses, and where. The numbers are those that it shows.
ghost use Rattle.std.specs.Prelude.{◌≡◌};

#[derive(Clone, Copy, Debug, PartialEq, Eq)]
pub enum Fault {
    // A size is outside the limits, or columns differ in length.
    Sizes = 1,
    // A node's mode is 0 or above 7.
    NodeMode = 2,
    // An edge breaks a rule.
    Edge = 3,
    // A transfer node is not core.
    Transfer = 4,
    // The sheet breaks a rule.
    Sheet = 5,
    // The question names no node.
    Question = 6,
    // There is no accepted path.
    NoJourney = 7,
    // The journey room is below the edge count.
    JourneyRoom = 8,
    // The shortcuts exceed the lent rows, or 4,096 rows in all.
    ShortcutSpace = 9,
    // A shortcut row is unsound.
    Shortcut = 10,
    // A work room is too small.
    WorkRoom = 11,
    // A record of the stream is unknown, misplaced or cut.
    Record = 12,
}

impl Fault {
    // This fault, at a place.
    pub fn at(self, place: usize) -> Refusal
        ensures { result ≡ record { fault = self; place = place } }
    {
        Refusal {
            fault: self,
            place: place as u64,
        }
    }
}

#[derive(Clone, Copy, Debug, PartialEq, Eq)]
pub struct Refusal {
    pub fault: Fault,
    pub place: u64,
}
