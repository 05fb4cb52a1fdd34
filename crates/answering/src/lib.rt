// Answers on standard output. For each program one function puts its whole answer into lent memory, equal to what the definition gives, and `print` writes
// that slice and nothing else. The programs and `vectors` write by the same functions, so that the gate sees what each writes for files of every answer.
#![tactic(auto)]

mod annotated;
mod ran;

ghost use Rattle.language.specs.Answers.{checked};
ghost use Rattle.language.specs.Output.{checker_output};
ghost use Rattle.lines.specs.Put.{Front};

pub use annotated::print_annotated;
use checking::check;
use lines::{REFUSAL_BYTES, checker_output};
pub use ran::print_run;
use std::io::Print;

// What the checker prints, at the front of `out`. Answers how many bytes that are.
fn checker_answer(file: &[u8], out: &mut [u8; REFUSAL_BYTES]) -> usize
    ensures { Front (checker_output (checked file.now)) out.old out.new result }
{
    checker_output(check(file), out)
}

// Writes bytes, all of them and nothing else; where they cannot be written, a message to standard error.
pub fn print(rt: &HostRuntime, bytes: &[u8]) {
    if rt.write_all(bytes).is_err() {
        let _ = rt.stderr().write_all(b"the answer could not be written\n");
    }
}

pub fn print_checked(rt: &HostRuntime, file: &[u8]) {
    let mut line = [0; REFUSAL_BYTES];
    let n = checker_answer(file, &mut line);
    print(rt, &line[..n]);
}
