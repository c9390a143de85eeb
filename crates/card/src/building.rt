// Records of the network: nodes and edges go to their places in the columns, and the last closes the network.
ghost use Rattle.std.specs.Prelude.{◌≡◌};
ghost use Rattle.network.specs.Answers.{Decides};
ghost use Rattle.card.specs.Reading.{entering, node_stored, node_counted, edge_stored, edge_counted, NetworkIn, readied, Closed, NetworkTaken, NodeTaken, EdgeTaken};
ghost use Rattle.card.specs.Lent.{network_in_room, lent_of, SameNetworkRoom, SameLent};

use crate::lent::{Lent, NetworkRoom};
use crate::telling::tell;
use columns::put;
use contraction::prepare::prepare;
use network::answer::Answer;
use records::reader::{Reader, Stage, finish_record, word_of};

// No network has more nodes or edges.
const MOST: usize = 65536;

// The node at hand goes to its place.
fn put_node(reader: Reader, network: &mut NetworkRoom)
    ensures stored { network_in_room network.new ≡ node_stored reader (network_in_room network.old) }
    ensures same_room { SameNetworkRoom network.old network.new }
{
    let bytes = reader.bytes;
    put(network.node_modes, reader.entered, bytes[1]);
    put(
        network.node_ranks,
        reader.entered,
        word_of(bytes[2], bytes[3]),
    );
}

// The edge at hand goes to its place.
fn put_edge(reader: Reader, network: &mut NetworkRoom)
    ensures stored { network_in_room network.new ≡ edge_stored reader (network_in_room network.old) }
    ensures same_room { SameNetworkRoom network.old network.new }
{
    let bytes = reader.bytes;
    put(network.tails, reader.entered, word_of(bytes[1], bytes[2]));
    put(network.heads, reader.entered, word_of(bytes[3], bytes[4]));
    put(network.modes, reader.entered, bytes[5]);
    put(network.lengths, reader.entered, word_of(bytes[6], bytes[7]));
}

// So many nodes or edges are in. Their counts are kept below `MOST` by the remainder: any reader may be handed in.
fn enter(reader: Reader, stage: Stage, entered: usize) -> Reader
    ensures { result ≡ entering reader stage entered }
{
    Reader {
        entered,
        ..finish_record(reader, stage, 0)
    }
}

// The node at hand is in; after the last node edges are due.
fn count_node(reader: Reader) -> Reader
    ensures { result ≡ node_counted reader }
{
    let entered = reader.entered % MOST + 1;
    if entered < reader.nodes {
        return enter(reader, Stage::NodesDue, entered);
    }
    enter(reader, Stage::EdgesDue, 0)
}

// The edge at hand is in.
fn count_edge(reader: Reader) -> Reader
    ensures { result ≡ edge_counted reader }
{
    enter(reader, Stage::EdgesDue, reader.entered % MOST + 1)
}

// Whether the last record of the network is in.
fn network_in(reader: Reader) -> bool
    ensures { Decides result (NetworkIn reader) }
{
    reader.stage == Stage::EdgesDue && reader.edges <= reader.entered
}

// The network is prepared: so many shortcuts were made.
fn accept_network(reader: Reader, shortcuts: usize) -> Reader
    ensures { result ≡ readied reader shortcuts }
{
    Reader {
        shortcuts,
        ..finish_record(reader, Stage::SheetDue, 0)
    }
}

// The network in front of the columns is tested and prepared. `prepare` promises a number (`PreparedInto`): so it is the number that is asked here.
fn close_network(reader: Reader, lent: &mut Lent) -> Reader
    ensures closed { Closed reader (lent_of lent.old) result (lent_of lent.new) }
    ensures same_lent { SameLent lent.old lent.new }
{
    let answer = prepare(
        &lent.network.front(reader.nodes, reader.edges),
        &mut lent.shortcuts,
        lent.wide,
        lent.narrow,
    );
    if answer.number != Answer::ANSWERED {
        return tell(reader, Stage::Over, answer, &[], lent.line);
    }
    accept_network(reader, answer.count as usize)
}

// A node or an edge is in its place and counted: the last closes the network.
fn go_on(reader: Reader, lent: &mut Lent) -> Reader
    ensures taken { NetworkTaken reader (lent_of lent.old) result (lent_of lent.new) }
    ensures same_lent { SameLent lent.old lent.new }
{
    if network_in(reader) {
        return close_network(reader, lent);
    }
    reader
}

pub(crate) fn take_node(reader: Reader, lent: &mut Lent) -> Reader
    ensures taken { NodeTaken reader (lent_of lent.old) result (lent_of lent.new) }
    ensures same_lent { SameLent lent.old lent.new }
{
    put_node(reader, &mut lent.network);
    go_on(count_node(reader), lent)
}

pub(crate) fn take_edge(reader: Reader, lent: &mut Lent) -> Reader
    ensures taken { EdgeTaken reader (lent_of lent.old) result (lent_of lent.new) }
    ensures same_lent { SameLent lent.old lent.new }
{
    put_edge(reader, &mut lent.network);
    go_on(count_edge(reader), lent)
}
