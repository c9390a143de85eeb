// Bytes go to the reader one by one, and the line that one owes is out before the next is looked at.
ghost use Rattle.card.specs.Lent.{lent_of, SameLent};
ghost use Rattle.owed.specs.Telling.{FedEitherWay, Closed};

use card::lent::Lent;
use card::stream::{feed, finish};
use records::reader::Reader;
use std::io::Print;

// Writes the line that is owed, if there is one, with one write. Whether nobody refused it.
fn write_owed(stdout: &impl Print, reader: Reader, line: &[u8]) -> bool {
    line.get(..reader.written)
        .is_none_or(|owed| stdout.write_all(owed).is_ok())
}

// The reader behind the byte; as an error where the line that it owes could not be written.
pub fn take_byte(
    stdout: &impl Print,
    reader: Reader,
    byte: u8,
    lent: &mut Lent,
) -> Result<Reader, Reader>
    ensures fed { FedEitherWay reader byte (lent_of lent.old) result (lent_of lent.new) }
    ensures same_lent { SameLent lent.old lent.new }
{
    let next = feed(reader, byte, lent);
    // lent first, since the proof loses what stands in a line that is lent for reading alone
    let line = &mut *lent.line;
    if write_owed(stdout, next, line) {
        return Ok(next);
    }
    Err(next)
}

// The input is at its end, or cannot be read any further, which is told as a stream that is cut there.
pub fn close(stdout: &impl Print, reader: Reader, line: &mut [u8])
    ensures { Closed reader line.old line.new }
{
    let last = finish(reader, line);
    let _ = write_owed(stdout, last, line);
}
