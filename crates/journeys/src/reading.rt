// From standard input to standard output: bytes go to the reader one by one, and each line goes out before more is read.
use card::lent::Lent;
use owed::telling::{close, take_byte};
use records::reader::{Reader, Stage, begin};
use std::io::{Print, Read};

// Where nobody takes a line there is nothing left to do: the stream is over.
fn stopped(reader: Reader) -> Reader {
    Reader {
        stage: Stage::Over,
        ..reader
    }
}

// What one read brought. Bytes behind a refusal are handed over too, and owe nothing.
fn take_piece(stdout: &impl Print, reader: Reader, piece: &[u8], lent: &mut Lent) -> Reader {
    let mut reached = reader;
    for byte in piece {
        reached = take_byte(stdout, reached, *byte, lent).unwrap_or_else(stopped);
    }
    reached
}

pub fn read_stream(stdin: &mut impl Read, stdout: &impl Print, lent: &mut Lent) {
    let mut input = [0; 4096];
    let mut reader = begin();
    // A proved loop has to end, and nothing says that a stream does: the reads are counted up to a number that no run uses up.
    for _ in 0..u64::MAX {
        if reader.stage == Stage::Over {
            return;
        }
        let n = stdin.read(&mut input).unwrap_or(0);
        if n == 0 {
            close(stdout, reader, lent.line);
            return;
        }
        reader = take_piece(stdout, reader, &input[..n], lent);
    }
}
