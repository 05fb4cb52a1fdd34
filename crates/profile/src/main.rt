// The profiler: reads an annotated file from standard input, runs it, and prints a line "STEP CELLS REGIONS FRAMES RECORD" for the entry's frame and for each
// step that changes how many cells, regions or frames are held, then how the run ended; or "refused" and the number of document 01's table.
#![tactic(auto)]

mod accepted;
mod parts;

use accepted::{OUTPUT_BYTES, print_accepted};
use answering::print;
use checking::check;
use input::read_standard;
use language::format::MAX_BYTES;
use lines::{REFUSAL_BYTES, checker_output};
use profiling::LINE_BYTES;
use records::blank::blank_input;

// A refused file has its number alone. The run is called in two places, for the longest file with a line less of room, which changes no byte that is printed:
// what has one caller the compiler puts into it, two like calls it makes one, and the run's tables would lie on the stack below the checker's walks.
fn print_profile(rt: &HostRuntime, file: &[u8]) {
    let answer = check(file);
    if answer.is_err() {
        let mut line = [0; REFUSAL_BYTES];
        let n = checker_output(answer, &mut line);
        print(rt, &line[..n]);
        return;
    }
    if file.len() < MAX_BYTES {
        print_accepted(rt, file, OUTPUT_BYTES);
        return;
    }
    print_accepted(rt, file, OUTPUT_BYTES - LINE_BYTES);
}

fn main(rt: HostRuntime) {
    let mut file = blank_input();
    let Ok(n) = read_standard(&rt, &mut file) else {
        return;
    };
    print_profile(&rt, &file[..n]);
}
