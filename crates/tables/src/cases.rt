// The stored networks, in the order in which they stand.
ghost use Rattle.std.specs.Prelude.{◌<◌, length};

use crate::asking::{QUESTION_BYTES, ask_all};
use crate::loading::{Columns, SIZES_BYTES, Sizes};
use crate::place::Place;
use crate::rooms::{Rooms, Rows};
use crate::show;
use network::answer::Answer;
use std::io::Print;
use stored::cursor::Cursor;

// More than there are stored networks: a proved loop has to end.
const MANY: u32 = 1000;

// How many rows the contracted search is lent: those of the table that was made; where none was, all that were lent, as they were left.
fn rows_to_search(made: Answer, lent: usize) -> usize {
    if made.number == Answer::ANSWERED {
        return made.count as usize;
    }
    lent
}

// The network of these sizes that stands at a place, and its questions, which stand at another.
fn run_network(stdout: &impl Print, sizes: Sizes, at: Place, asks: Place) {
    let lent = sizes.lent.into();
    let columns = Columns::load(at, sizes.nodes, sizes.edges);
    let network = columns.read().front(sizes.nodes.into(), sizes.edges.into());
    let mut rows = Rows::FILLED;
    let mut rooms = Rooms::ZEROED;
    let made = rows.prepare(lent, &network, &mut rooms);
    show::prepared(stdout, made);
    let table = rows.read();
    show::table(stdout, &table, lent);
    let shortcuts = table.front(rows_to_search(made, lent));
    ask_all(
        stdout,
        asks,
        sizes.questions,
        &network,
        &shortcuts,
        &mut rooms,
    );
}

// The stored network whose name stands at a place, and the place behind its questions. That the name is in the input is asked for by the slice.
fn run_one<'a>(stdout: &impl Print, name: Place<'a>) -> Place<'a>
    requires { name.at < length name.input.now }
{
    let input = name.input;
    let mut cursor = Cursor {
        rest: &input[name.at..],
    };
    // A write that fails is passed over, as in `show`.
    let _ = stdout.write_all(cursor.name());
    let head = Place {
        input,
        at: input.len() - cursor.rest.len(),
    };
    let sizes = Sizes::load(head);
    let asks = head.behind(SIZES_BYTES + sizes.columns_bytes());
    run_network(stdout, sizes, head.behind(SIZES_BYTES), asks);
    Place {
        input,
        at: asks.at + (QUESTION_BYTES * u32::from(sizes.questions)) as usize,
    }
}

// All that the input holds.
pub fn run(stdout: &impl Print, input: &[u8]) {
    let mut name = Place { input, at: 0 };
    for _ in 0..MANY {
        if name.input.len() <= name.at {
            return;
        }
        name = run_one(stdout, name);
    }
}
