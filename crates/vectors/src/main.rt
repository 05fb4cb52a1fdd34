// Puts the jobs of each pack that an argument names to the checker, the annotator and the runner, and prints the name of each, the checker's line, what the
// annotator writes, and the runner's lines; then a line where a byte behind the annotated file has changed.
//
// A pack is jobs one behind the other, as tools/pack-jobs writes them: the length of the name in one byte, the name, the length of the file in three
// bytes, low byte first, and the file.
#![tactic(auto)]

ghost use Rattle.std.specs.Prelude.{◌≡◌, length};
ghost use Rattle.language.specs.Answers.{annotator_bytes};

use annotation::annotated_front;
use answering::{print_annotated, print_checked, print_run};
use language::format::MAX_BYTES;
use packs::{JOBS, next_byte, next_bytes, next_number, print_name};
use records::blank::blank_input;
use std::env::{Env, FillError};
use std::fs::File;
use std::io::Print;

// More bytes than a path has.
const PATH_BYTES: usize = 4096;

// What stands in lent memory before.
const MARK: u8 = 251;

fn lent() -> [u8; MAX_BYTES]
    ensures { annotator_bytes ≡ length result }
{
    [MARK; MAX_BYTES]
}

// "A good annotation is handed back as the front part of the caller's output memory; bytes behind it keep their contents", all of them after a refusal. No
// contract of a function that hands back the part can say so: whether it is so here.
fn keeps_the_rest(file: &[u8]) -> bool {
    let mut out = lent();
    let front = annotated_front(file, &mut out);
    let n = front.len();
    out.iter().skip(n).all(|byte| *byte == MARK)
}

fn try_file(rt: &HostRuntime, pack: &mut File, n: usize) {
    let mut file = blank_input();
    let k = next_bytes(pack, &mut file, n);
    print_checked(rt, &file[..k]);
    print_annotated(rt, &file[..k]);
    print_run(rt, &file[..k]);
    if !keeps_the_rest(&file[..k]) {
        let _ = rt.write_all(b"a byte behind the annotated file has changed\n");
    }
}

// Whether there was a job.
fn try_job(rt: &HostRuntime, pack: &mut File) -> bool {
    let Some(n) = next_byte(pack) else {
        return false;
    };
    print_name(rt, pack, usize::from(n));
    let _ = rt.write_all(b" ");
    let length = next_number(pack);
    try_file(rt, pack, length);
    true
}

fn try_pack(rt: &HostRuntime, path: &str) {
    let mut pack = match File::open(rt, path) {
        Ok(pack) => pack,
        Err(e) => {
            let _ = eprintln!(rt; "{path}: {e}");
            return;
        }
    };
    for _ in 0..JOBS {
        if !try_job(rt, &mut pack) {
            return;
        }
    }
}

// Whether there was such an argument.
fn try_argument(rt: &HostRuntime, i: usize) -> bool {
    let mut path = [0u8; PATH_BYTES];
    match rt.arg(i, &mut path) {
        Ok(n) => match str::from_utf8(&path[..n]) {
            Ok(name) => try_pack(rt, name),
            Err(_) => {
                let _ = eprintln!(rt; "argument {i} is no text");
            }
        },
        Err(FillError::TooLong) => {
            let _ = eprintln!(rt; "argument {i} is too long");
        }
        Err(FillError::NotPresent) => return false,
    }
    true
}

fn main(rt: HostRuntime) {
    for i in 1..usize::MAX {
        if !try_argument(&rt, i) {
            return;
        }
    }
}
