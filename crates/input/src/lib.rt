// What a program reads.
#![tactic(auto)]

ghost use Rattle.std.specs.Prelude.{◌≤◌, ◌<◌, ◌≡◌, length, take, drop, IfOk, MatchResult};
ghost use Rattle.std.specs.Io.{ReadsAtMost};
ghost use Rattle.std.specs.Io.KnownBytes.{Consumes, Keeps, IsAtEnd};

use std::io;
use std::io::{ErrorKind, Print, Read};

// A read that a signal interrupts is tried again, so many times in all.
const TRIES: usize = 1000000;

// One read, behind the first `at` bytes, which stay as they are; where the bytes then end. At the end of the input no bytes are added.
fn read_part<R: Read>(reader: &mut R, file: &mut [u8], at: usize) -> io::Result<usize>
    requires { at ≤ length file.old }
    ensures fits { ReadsAtMost result file.new }
    ensures at_le_result { IfOk result (λ end. at ≤ end) }
    ensures file_unchanged { take at file.new ≡ take at file.old }
    ensures bytes { MatchResult result
        (λ end. Consumes (R.remaining reader.old) (R.remaining reader.new) (drop at (take end file.new)))
        (λ _. Keeps (R.remaining reader.old) (R.remaining reader.new)) }
    ensures at_end { IfOk result (λ end. end ≡ at → at < length file.new → IsAtEnd (R.remaining reader.new)) }
{
    let n = reader.read(&mut file[at..])?;
    Ok(at + n)
}

// The same, tried again where a signal came first.
fn read_on<R: Read>(reader: &mut R, file: &mut [u8], at: usize) -> io::Result<usize>
    requires { at ≤ length file.old }
    ensures fits { ReadsAtMost result file.new }
    ensures at_le_result { IfOk result (λ end. at ≤ end) }
    ensures file_unchanged { take at file.new ≡ take at file.old }
    ensures bytes { MatchResult result
        (λ end. Consumes (R.remaining reader.old) (R.remaining reader.new) (drop at (take end file.new)))
        (λ _. Keeps (R.remaining reader.old) (R.remaining reader.new)) }
    ensures at_end { IfOk result (λ end. end ≡ at → at < length file.new → IsAtEnd (R.remaining reader.new)) }
{
    for _ in 1..TRIES {
        let read = read_part(reader, file, at);
        match read {
            Err(e) if e.kind() == ErrorKind::Interrupted => {}
            _ => return read,
        }
    }
    read_part(reader, file, at)
}

// Reads to the end of the input, or until `file` is full. Answers where the bytes end that were read, which start at its front.
pub fn read_input<R: Read>(reader: &mut R, file: &mut [u8]) -> io::Result<usize>
    ensures fits { ReadsAtMost result file.new }
    ensures bytes { IfOk result (λ n. Consumes (R.remaining reader.old) (R.remaining reader.new) (take n file.new)) }
    ensures at_end { IfOk result (λ n. n < length file.new → IsAtEnd (R.remaining reader.new)) }
{
    let mut at = 0;
    // by what each read brings: no count
    while at < file.len() {
        let end = read_on(reader, file, at)?;
        if end == at {
            return Ok(at);
        }
        at = end;
    }
    Ok(at)
}

// Reads standard input; where that fails, says so on standard error.
pub fn read_standard(rt: &HostRuntime, file: &mut [u8]) -> io::Result<usize>
    ensures { ReadsAtMost result file.new }
{
    let mut reader = rt.stdin();
    let read = read_input(&mut reader, file);
    if read.is_err() {
        let _ = rt.stderr().write_all(b"standard input could not be read\n");
    }
    read
}
