// Questions about a network and its rows.
use crate::place::Place;
use crate::rooms::Rooms;
use crate::show;
use contraction::contracted::search_contracted;
use network::lent::{Network, Shortcuts};
use network::sheet::{Sheet, State};
use search::plain::search_plain;
use std::array;
use std::io::Print;

struct Question {
    sheet: Sheet,
    from: u16,
    to: u16,
}

// How many bytes a question takes.
pub const QUESTION_BYTES: u32 = 29;

fn load_state(at: Place) -> State {
    State {
        modes: at.byte(0),
        next: at.byte(1),
        ends: at.byte(2),
    }
}

fn load_sheet(at: Place) -> Sheet {
    Sheet {
        entries: array::from_fn(|q| load_state(at.behind(3 * q as u32))),
        states: at.byte(24),
    }
}

impl Question {
    fn load(at: Place) -> Question {
        Question {
            sheet: load_sheet(at),
            from: at.behind(25).word(),
            to: at.behind(27).word(),
        }
    }
}

fn ask(
    stdout: &impl Print,
    question: Question,
    network: &Network,
    shortcuts: &Shortcuts,
    rooms: &mut Rooms,
) {
    let Question { sheet, from, to } = question;
    let plain = search_plain(
        network,
        &sheet,
        from,
        to,
        &mut rooms.journey,
        &mut rooms.wide,
        &mut rooms.narrow,
    );
    show::answer(stdout, plain);
    let contracted = search_contracted(
        network,
        shortcuts,
        &sheet,
        from,
        to,
        &mut rooms.journey,
        &mut rooms.wide,
        &mut rooms.narrow,
    );
    show::answer(stdout, contracted);
}

// The questions that stand at a place, so many of them.
pub fn ask_all(
    stdout: &impl Print,
    at: Place,
    questions: u8,
    network: &Network,
    shortcuts: &Shortcuts,
    rooms: &mut Rooms,
) {
    for i in 0..questions {
        let question = Question::load(at.behind(QUESTION_BYTES * u32::from(i)));
        ask(stdout, question, network, shortcuts, rooms);
    }
}
