// The checker: reads an annotated file from standard input and prints "accepted", or "refused" and the number of document 01's table.
// Where the file cannot be read, it says so on standard error and prints no answer.
#![tactic(auto)]

use answering::print_checked;
use input::read_standard;
use records::blank::blank_input;

fn main(rt: HostRuntime) {
    let mut file = blank_input();
    let Ok(n) = read_standard(&rt, &mut file) else {
        return;
    };
    print_checked(&rt, &file[..n]);
}
