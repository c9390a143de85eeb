// The lines about tables and answers. A write that fails is passed over: what it leaves out is missing from the output.
use columns::at;
use network::answer::Answer;
use network::lent::Shortcuts;
use std::io::Print;

// The largest prime below 2^32.
const PRIME: u64 = 4294967291;

// Tables of more lent rows are told by their checksum.
const FEW: usize = 64;

// What preparation answered.
pub fn prepared(stdout: &impl Print, answer: Answer) {
    let _ = println!(stdout; "{} {} {}", answer.number, answer.place, answer.count);
}

// What a search answered.
pub fn answer(stdout: &impl Print, answer: Answer) {
    let _ = println!(stdout;
        "{} {} {} {}",
        answer.number, answer.place, answer.time, answer.count
    );
}

// The seven fields of the row i, in the order of its line.
fn fields(table: &Shortcuts, i: usize) -> [u32; 7] {
    [
        at(table.tails, i).into(),
        at(table.heads, i).into(),
        at(table.modes, i).into(),
        at(table.lengths, i),
        at(table.counts, i).into(),
        at(table.firsts, i).into(),
        at(table.seconds, i).into(),
    ]
}

fn each_row(stdout: &impl Print, table: &Shortcuts, lent: usize) {
    for i in 0..lent {
        let [tail, head, mode, length, count, first, second] = fields(table, i);
        let _ = println!(stdout; "{tail} {head} {mode} {length} {count} {first} {second}");
    }
}

// The checksum begins at 0; each field in turn is added to 65,599 times the sum before it, modulo the prime.
fn mix(sum: u32, field: u32) -> u32 {
    ((65599 * u64::from(sum) + u64::from(field)) % PRIME) as u32
}

fn mix_row(sum: u32, row: [u32; 7]) -> u32 {
    row.into_iter().fold(sum, mix)
}

// Over all lent rows in order, and the fields of each.
fn checksum(table: &Shortcuts, lent: usize) -> u32 {
    (0..lent).fold(0, |sum, i| mix_row(sum, fields(table, i)))
}

// All lent rows, those that preparation zeroed included.
pub fn table(stdout: &impl Print, table: &Shortcuts, lent: usize) {
    if lent <= FEW {
        each_row(stdout, table, lent);
        return;
    }
    let sum = checksum(table, lent);
    let _ = println!(stdout; "{sum}");
}
