// The stream, byte by byte: pieces do not matter.
ghost use Rattle.card.specs.Reading.{Taken, Held, Fed, Finished};
ghost use Rattle.card.specs.Lent.{lent_of, SameLent};

use crate::asking::take_question;
use crate::building::{take_edge, take_node};
use crate::lent::Lent;
use crate::listing::{take_head, take_sheet, take_state};
use crate::telling::refuse;
use network::refusal::Fault;
use records::reader::{Kind, Reader, Stage, finish_record, hold, misplaced};

// A whole record of this kind.
fn take_record(kind: Kind, reader: Reader, lent: &mut Lent) -> Reader
    ensures taken { Taken kind reader (lent_of lent.old) result (lent_of lent.new) }
    ensures same_lent { SameLent lent.old lent.new }
{
    match kind {
        Kind::End => finish_record(reader, Stage::Ended, 0),
        Kind::Head => {
            let node_room = lent.network.nodes();
            let edge_room = lent.network.edges();
            take_head(reader, node_room, edge_room, lent.line)
        }
        Kind::Node => take_node(reader, lent),
        Kind::Edge => take_edge(reader, lent),
        Kind::State => take_state(reader, lent.line),
        Kind::Question => take_question(reader, lent),
        Kind::Sheet => take_sheet(reader, lent.line),
    }
}

// A record of which some bytes are held is taken when it is whole.
fn take_held(reader: Reader, lent: &mut Lent) -> Reader
    ensures held { Held reader (lent_of lent.old) result (lent_of lent.new) }
    ensures same_lent { SameLent lent.old lent.new }
{
    match Kind::try_from(reader.bytes[0]) {
        Ok(kind) if reader.held < kind.size() => reader,
        Ok(kind) => take_record(kind, reader, lent),
        Err(_) => refuse(reader, Fault::Record.at(reader.offset), lent.line),
    }
}

// Takes one byte. A line that is owed stands in front of the line room, and the reader tells how long it is.
pub fn feed(reader: Reader, byte: u8, lent: &mut Lent) -> Reader
    ensures fed { Fed reader byte (lent_of lent.old) result (lent_of lent.new) }
    ensures same_lent { SameLent lent.old lent.new }
{
    if reader.stage == Stage::Over {
        return finish_record(reader, Stage::Over, 0);
    }
    if misplaced(reader, byte) {
        return refuse(reader, Fault::Record.at(reader.offset), lent.line);
    }
    take_held(hold(reader, byte), lent)
}

// The end of input.
pub fn finish(reader: Reader, line: &mut [u8]) -> Reader
    ensures { Finished reader line.old result line.new }
{
    match reader.stage {
        Stage::Over | Stage::Ended => finish_record(reader, reader.stage, 0),
        _ => refuse(reader, Fault::Record.at(reader.offset), line),
    }
}
