// Questions.
ghost use Rattle.network.specs.Lent.{network_of, columns_of};
ghost use Rattle.card.specs.Reading.{Answered, Asked};
ghost use Rattle.card.specs.Lent.{lent_of, SameLent};

use crate::lent::Lent;
use crate::telling::{next_stage, tell};
use contraction::contracted::search_contracted;
use network::lent::{Network, Shortcuts};
use records::reader::{Reader, word_of};

// The question at hand about this network and its shortcuts, answered and told.
// In parts, not as `Lent`: `tell` would read its journey while it writes its line, and four forms of that got no proof.
fn answer_question(
    reader: Reader,
    network: &Network,
    shortcuts: &Shortcuts,
    journey: &mut [u16],
    wide: &mut [u64],
    narrow: &mut [u32],
    line: &mut [u8],
) -> Reader
    ensures { Answered reader (network_of network.now) (columns_of shortcuts.now) journey.old journey.new wide.old wide.new narrow.old narrow.new line.old line.new result }
{
    let answer = search_contracted(
        network,
        shortcuts,
        &reader.sheet,
        word_of(reader.bytes[1], reader.bytes[2]),
        word_of(reader.bytes[3], reader.bytes[4]),
        journey,
        wide,
        narrow,
    );
    tell(reader, next_stage(answer.number), answer, journey, line)
}

// The same of the network and the shortcuts in front of the columns.
pub(crate) fn take_question(reader: Reader, lent: &mut Lent) -> Reader
    ensures asked { Asked reader (lent_of lent.old) result (lent_of lent.new) }
    ensures same_lent { SameLent lent.old lent.new }
{
    answer_question(
        reader,
        &lent.network.front(reader.nodes, reader.edges),
        &lent.shortcuts.front(reader.shortcuts),
        lent.journey,
        lent.wide,
        lent.narrow,
        lent.line,
    )
}
