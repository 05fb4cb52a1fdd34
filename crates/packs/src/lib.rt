// Packs of job files, as tools/pack-jobs and pack-runs of rust/compare write them: names and files behind their lengths, numbers low byte first.
#![tactic(auto)]

ghost use Rattle.std.specs.Prelude.{◌≤◌, ◌≡◌, length, take};
ghost use Rattle.packs.specs.Bytes.{byte_end};

use std::io::{Print, Read};

// What bytes are below.
pub const BYTE_END: usize = 256;

// More jobs than a pack has.
pub const JOBS: usize = 1000;

// More bytes than a name has.
const NAME_BYTES: usize = 4096;

// Reads until `out` is full, the pack ends or a read fails. Answers how many bytes were read. (Not `read_input`: a read that fails ends the pack here, and
// what came before it counts.)
fn read_full<R: Read>(reader: &mut R, out: &mut [u8]) -> usize
    ensures fits { result ≤ length out.new }
    ensures counted { result ≡ length (take result out.new) }
{
    let mut done = 0;
    while done < out.len() {
        let n = reader.read(&mut out[done..]).unwrap_or(0);
        if n == 0 {
            break;
        }
        done += n;
    }
    done
}

// The next byte, unless the pack has ended.
pub fn next_byte<R: Read>(reader: &mut R) -> Option<u8> {
    let mut byte = [0u8; 1];
    if read_full(reader, &mut byte) == 0 {
        return None;
    }
    Some(byte[0])
}

// The next byte as a number, or `BYTE_END` where the pack has ended.
pub fn next_digit<R: Read>(reader: &mut R) -> usize
    ensures { result ≤ byte_end }
{
    next_byte(reader).map_or(BYTE_END, |b| usize::from(b))
}

// The next number, in three bytes.
pub fn next_number<R: Read>(reader: &mut R) -> usize {
    let low = next_digit(reader);
    let middle = next_digit(reader);
    let high = next_digit(reader);
    low + BYTE_END * (middle + BYTE_END * high)
}

// The next n bytes, as far as they fit.
pub fn next_bytes<R: Read>(reader: &mut R, out: &mut [u8], n: usize) -> usize
    ensures fits { result ≤ length out.new }
    ensures counted { result ≡ length (take result out.new) }
{
    if n < out.len() {
        read_full(reader, &mut out[..n])
    } else {
        read_full(reader, out)
    }
}

// Prints the next n bytes, a name.
pub fn print_name<R: Read>(rt: &HostRuntime, reader: &mut R, n: usize) {
    let mut name = [0u8; NAME_BYTES];
    let k = next_bytes(reader, &mut name, n);
    let _ = rt.write_all(&name[..k]);
}
