// The annotator: reads a file from standard input and writes it with creates and removes, or prints "refused" and the number of document 01's table.
// Where the file cannot be read, it says so on standard error and prints no answer.
#![tactic(auto)]

use answering::print_annotated;
use input::read_standard;
use records::blank::blank_input;

fn main(rt: HostRuntime) {
    let mut file = blank_input();
    let Ok(n) = read_standard(&rt, &mut file) else {
        return;
    };
    print_annotated(&rt, &file[..n]);
}
