// One line a case: the answer, the legs that were written, and what became of the lent rooms.
use crate::rooms::Rooms;
use network::answer::Answer;
use std::io::Print;

// The case's name, the search, its answer's number, place, time and count, the legs, and the lent rooms.
// A write that fails is passed over: what it leaves out is missing from the output.
pub(crate) fn answered(
    stdout: &impl Print,
    name: &str,
    search: &str,
    answer: Answer,
    written: usize,
    rooms: &Rooms,
) {
    let _ = print!(stdout;
        "{name} {search} {} {} {} {}:",
        answer.number, answer.place, answer.time, answer.count
    );
    for leg in rooms.journey.iter().take(written) {
        let _ = print!(stdout; " {leg}");
    }
    let _ = println!(stdout; "; rooms {}; rest {}", rooms.work(), rooms.rest(written));
}
