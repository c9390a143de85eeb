// A case's question to each search, and the line about it.
ghost use Rattle.std.specs.Prelude.{◌+◌, ◌<◌, ◌^◌};

use crate::rooms::Rooms;
use crate::show::answered;
use network::answer::Answer;
use network::lent::{Network, Shortcuts};
use network::sheet::Sheet;
use search::plain::search_plain;
use search::rows::search_rows;
use std::io::Print;

// A question, under its case's name.
#[derive(Clone, Copy)]
pub struct Case<'a> {
    pub name: &'a str,
    pub sheet: Sheet,
    pub from: u16,
    pub to: u16,
}

impl<'a> Case<'a> {
    pub(crate) fn new(name: &'a str, sheet: Sheet, from: u16, to: u16) -> Case<'a> {
        Case {
            name,
            sheet,
            from,
            to,
        }
    }
}

// The plain search tells no number of legs: it wrote as many as it counts, and none with a refusal.
fn legs_written(answer: Answer) -> usize {
    if answer.number == Answer::ANSWERED {
        return answer.count as usize;
    }
    0
}

// The rooms go into the search one by one and come back together: a struct of three `&mut` is given whole or in parts.
fn plain(stdout: &impl Print, case: Case, network: &Network, rooms: Rooms) {
    let Rooms {
        journey,
        wide,
        narrow,
    } = rooms;
    let answer = search_plain(
        network,
        &case.sheet,
        case.from,
        case.to,
        journey,
        wide,
        narrow,
    );
    let rooms = Rooms {
        journey,
        wide,
        narrow,
    };
    answered(
        stdout,
        case.name,
        "plain",
        answer,
        legs_written(answer),
        &rooms,
    );
}

pub(crate) fn rows(
    stdout: &impl Print,
    case: Case,
    network: &Network,
    shortcuts: &Shortcuts,
    rooms: Rooms,
) {
    let Rooms {
        journey,
        wide,
        narrow,
    } = rooms;
    let told = search_rows(
        network,
        shortcuts,
        &case.sheet,
        case.from,
        case.to,
        journey,
        wide,
        narrow,
    );
    let rooms = Rooms {
        journey,
        wide,
        narrow,
    };
    answered(stdout, case.name, "rows", told.answer, told.rows, &rooms);
}

// Both searches, in rooms of so many places. An array must fit a memory: so must those of its callers.
pub(crate) fn both<const JOURNEY: usize, const WIDE: usize, const NARROW: usize>(
    stdout: &impl Print,
    case: Case,
    network: &Network,
    shortcuts: &Shortcuts,
)
    requires { JOURNEY + WIDE + NARROW < 2 ^ 32 }
{
    let mut journey = [0; JOURNEY];
    let mut wide = [0; WIDE];
    let mut narrow = [0; NARROW];
    let rooms = Rooms::filled(&mut journey, &mut wide, &mut narrow);
    plain(stdout, case, network, rooms);
    let again = Rooms::filled(&mut journey, &mut wide, &mut narrow);
    rows(stdout, case, network, shortcuts, again);
}
