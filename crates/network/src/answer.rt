// What an entry point answers, as C gets it: the number that is shown, and what goes with it.
ghost use Rattle.std.specs.Prelude.{◌≡◌};
ghost use Rattle.network.specs.Answers.{refused, shown, verdict};

use crate::refusal::Refusal;

// Laid out as C lays it out: the exported functions hand it over by value.
#[repr(C)]
#[derive(Clone, Copy, Debug, PartialEq, Eq)]
pub struct Answer {
    pub number: u8,
    pub place: u64,
    pub time: u64,
    pub count: u32,
}

impl Answer {
    // An answer shows a number, and the promises speak of it (`PreparedInto`, `Contracted`): so whoever is handed one compares its number with this.
    pub const ANSWERED: u8 = 0;

    // A number and its place, with no time and no count. Of any number: docs/PROMISES names it so. The conversions below go through it.
    pub fn show(number: u8, place: usize) -> Answer
        ensures { result ≡ shown number place }
    {
        Answer {
            number,
            place: place as u64,
            time: 0,
            count: 0,
        }
    }
}

// A refusal's number and place.
impl From<Refusal> for Answer {
    ghost from_gives = { λ refusal answer. answer ≡ refused refusal };

    fn from(refusal: Refusal) -> Answer {
        Answer::show(refusal.fault as u8, refusal.place as usize)
    }
}

// The same of a check, with number 0 where it passed.
impl From<Result<(), Refusal>> for Answer {
    ghost from_gives = { λ checked answer. answer ≡ verdict checked };

    fn from(checked: Result<(), Refusal>) -> Answer {
        match checked {
            Ok(()) => Answer::show(Answer::ANSWERED, 0),
            Err(refusal) => refusal.into(),
        }
    }
}
