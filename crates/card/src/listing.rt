// Records that write no column: the head, a sheet and its states.
ghost use Rattle.std.specs.Prelude.{◌≡◌};
ghost use Rattle.network.specs.Answers.{Decides};
ghost use Rattle.card.specs.Reading.{HeadFits, HeadTaken, SheetTaken, listed, StateTaken};

use crate::telling::refuse;
use network::refusal::Fault;
use network::sheet::{Sheet, State, check_sheet};
use records::reader::{Reader, Stage, finish_record, word_of};

// Whether there may be so many nodes and edges, and the columns have room for them.
fn head_fits(nodes: usize, edges: usize, node_room: usize, edge_room: usize) -> bool
    ensures { Decides result (HeadFits nodes edges node_room edge_room) }
{
    1 <= nodes && nodes <= 512 && edges <= 2048 && nodes <= node_room && edges <= edge_room
}

pub(crate) fn take_head(
    reader: Reader,
    node_room: usize,
    edge_room: usize,
    line: &mut [u8],
) -> Reader
    ensures { HeadTaken reader node_room edge_room line.old result line.new }
{
    let bytes = reader.bytes;
    let nodes = word_of(bytes[1], bytes[2]) as usize;
    let edges = word_of(bytes[3], bytes[4]) as usize;
    if !head_fits(nodes, edges, node_room, edge_room) {
        return refuse(reader, Fault::Sizes.at(0), line);
    }
    Reader {
        nodes,
        edges,
        entered: 0,
        ..finish_record(reader, Stage::NodesDue, 0)
    }
}

pub(crate) fn take_sheet(reader: Reader, line: &mut [u8]) -> Reader
    ensures { SheetTaken reader line.old result line.new }
{
    let states = reader.bytes[1];
    if states == 0 || 8 < states {
        return refuse(reader, Fault::Sheet.at(0), line);
    }
    let sheet = Sheet {
        entries: [State::ABSENT; 8],
        states,
    };
    Reader {
        sheet,
        entered: 0,
        ..finish_record(reader, Stage::StatesDue, 0)
    }
}

// With the state at hand.
fn list_state(reader: Reader, stage: Stage) -> Reader
    ensures { result ≡ listed reader stage }
{
    let at = reader.entered % 8;
    let mut sheet = reader.sheet;
    sheet.entries[at] = State {
        modes: reader.bytes[1],
        next: reader.bytes[2],
        ends: reader.bytes[3],
    };
    Reader {
        sheet,
        entered: at + 1,
        ..finish_record(reader, stage, 0)
    }
}

pub(crate) fn take_state(reader: Reader, line: &mut [u8]) -> Reader
    ensures { StateTaken reader line.old result line.new }
{
    let next = list_state(reader, Stage::StatesDue);
    if next.entered < next.sheet.states as usize {
        return next;
    }
    match check_sheet(&next.sheet) {
        Ok(()) => list_state(reader, Stage::Asking),
        Err(refusal) => refuse(reader, refusal, line),
    }
}
