// Document 01's table of hand-sized files ("Proved by hand-sized files"), about the code: each function puts a file to `annotate`, `check` or `run`, and its
// contract states the answer outright. `language`'s Table has the same of the definitions. "The table keeps its cases with the answers that now follow and
// gains the new U's" (C-14): U and A give a type of constants a region. "The last of the table cases" is a run that stops (C-15). After a refusal all lent
// memory is as it was; after a run the words for cells, regions and frames are free. A case has a function of its own though another differs only in a size: one over
// every size would not say the table's values.
#![tactic(auto)]

mod ends;
mod files;
mod tries;

ghost use Rattle.std.specs.Prelude.{◌≡◌, ◌∷◌, drop, Ok, Err};
ghost use Rattle.language.specs.declared.Refusal.TheVariants.{Header, Form, Typing, Room};
ghost use Rattle.language.specs.declared.Stop.TheVariants.{Steps, Frames, Sums};
ghost use Rattle.language.specs.declared.Ending.TheVariants.{Refused as NotRun, Finished, Stopped};
ghost use Rattle.language.specs.Answers.{refusal_number, stop_number};
ghost use Rattle.language.specs.Table.{new_u};
ghost use Rattle.running.specs.Answer.{Free, Untouched};
ghost use Rattle.hand_sized.specs.Joined.{outcome, quiet, refused_by, IfAllRefuse};

use annotation::annotate;
use checking::check;
use ends::{both_ends, over, under};
use files::{a, new_u, past_arity, removed_early, removed_twice, u, unused_word};
use language::Refusal;
use language::format::MAX_BYTES;
use machine::Outcome;
use running::lent::{CELLS, FRAMES, PRINTS, REGIONS, STEPS};
use running::run;
pub use tries::{
    run_at_the_end_in_one_place, run_comes_back, run_waits_in_one_place, run_waits_in_two_places,
};

// What the annotator, the checker and the runner answer to one file.
#[derive(Clone, Copy)]
pub struct Answers {
    pub annotated: Result<usize, Refusal>,
    pub checked: Result<(), Refusal>,
    pub ran: Outcome,
}

// U annotated with 144 bytes: 3, "old files that give such a type a region get 3".
pub fn annotate_u_in_144(out: &mut [u8; 144]) -> Result<usize, Refusal>
    ensures value { result ≡ Err Typing }
    ensures refusal_number_value { refusal_number Typing ≡ 3 }
    ensures out_unchanged { out.new ≡ out.old }
{
    annotate(&u(), out)
}

// .. with 143: 3.
pub fn annotate_u_in_143(out: &mut [u8; 143]) -> Result<usize, Refusal>
    ensures value { result ≡ Err Typing }
    ensures refusal_number_value { refusal_number Typing ≡ 3 }
    ensures out_unchanged { out.new ≡ out.old }
{
    annotate(&u(), out)
}

// A to the annotator: 3.
pub fn annotate_a(out: &mut [u8; MAX_BYTES]) -> Result<usize, Refusal>
    ensures value { result ≡ Err Typing }
    ensures refusal_number_value { refusal_number Typing ≡ 3 }
    ensures out_unchanged { out.new ≡ out.old }
{
    annotate(&a(), out)
}

// A checked: 3.
pub fn check_a() -> Result<(), Refusal>
    ensures { result ≡ Err Typing }
{
    check(&a())
}

// U checked: 3.
pub fn check_u() -> Result<(), Refusal>
    ensures { result ≡ Err Typing }
{
    check(&u())
}

// "A with create, remove, construct": 3.
pub fn check_removed_early() -> Result<(), Refusal>
    ensures { result ≡ Err Typing }
{
    check(&removed_early())
}

// "A with a second remove": 3.
pub fn check_removed_twice() -> Result<(), Refusal>
    ensures { result ≡ Err Typing }
{
    check(&removed_twice())
}

// A run: 3.
pub fn run_a(
    cells: &mut [u32; CELLS],
    regions: &mut [u32; REGIONS],
    frames: &mut [u32; FRAMES],
    prints: &mut [u32; PRINTS],
) -> Outcome
    ensures value { result ≡ quiet (NotRun Typing) 0 }
    ensures untouched { Untouched cells.old regions.old frames.old prints.old
        cells.new regions.new frames.new prints.new }
{
    run(&a(), cells, regions, frames, prints, STEPS)
}

// .. with 2 steps: 3.
pub fn run_a_two_steps(
    cells: &mut [u32; CELLS],
    regions: &mut [u32; REGIONS],
    frames: &mut [u32; FRAMES],
    prints: &mut [u32; PRINTS],
) -> Outcome
    ensures value { result ≡ quiet (NotRun Typing) 0 }
    ensures untouched { Untouched cells.old regions.old frames.old prints.old
        cells.new regions.new frames.new prints.new }
{
    run(&a(), cells, regions, frames, prints, 2)
}

// .. with no cells: 3.
pub fn run_a_no_cells(
    cells: &mut [u32; 0],
    regions: &mut [u32; REGIONS],
    frames: &mut [u32; FRAMES],
    prints: &mut [u32; PRINTS],
) -> Outcome
    ensures value { result ≡ quiet (NotRun Typing) 0 }
    ensures untouched { Untouched cells.old regions.old frames.old prints.old
        cells.new regions.new frames.new prints.new }
{
    run(&a(), cells, regions, frames, prints, STEPS)
}

// .. no frame and no steps: 3.
pub fn run_a_no_frame(
    cells: &mut [u32; CELLS],
    regions: &mut [u32; REGIONS],
    frames: &mut [u32; 0],
    prints: &mut [u32; PRINTS],
) -> Outcome
    ensures value { result ≡ quiet (NotRun Typing) 0 }
    ensures untouched { Untouched cells.old regions.old frames.old prints.old
        cells.new regions.new frames.new prints.new }
{
    run(&a(), cells, regions, frames, prints, 0)
}

// "File U then has no region record and comes back from the annotator unchanged with six records".
pub fn annotate_new_u_in_96(out: &mut [u8; 96]) -> Result<usize, Refusal>
    ensures value { result ≡ Ok 96 }
    ensures out_after { out.new ≡ new_u }
{
    annotate(&new_u(), out)
}

// .. with 95 bytes: 9.
pub fn annotate_new_u_in_95(out: &mut [u8; 95]) -> Result<usize, Refusal>
    ensures value { result ≡ Err Room }
    ensures refusal_number_value { refusal_number Room ≡ 9 }
    ensures out_unchanged { out.new ≡ out.old }
{
    annotate(&new_u(), out)
}

// .. checked: accepted.
pub fn check_new_u() -> Result<(), Refusal>
    ensures { result ≡ Ok tt }
{
    check(&new_u())
}

// ".. and it runs in one step".
pub fn run_new_u(
    cells: &mut [u32; CELLS],
    regions: &mut [u32; REGIONS],
    frames: &mut [u32; FRAMES],
    prints: &mut [u32; PRINTS],
) -> Outcome
    ensures value { result ≡ quiet Finished 1 }
    ensures prints_unchanged { prints.new ≡ prints.old }
    ensures free { Free cells.old regions.old frames.old cells.new regions.new frames.new }
{
    run(&new_u(), cells, regions, frames, prints, STEPS)
}

// .. with no steps: stop 10 after 0.
pub fn run_new_u_no_steps(
    cells: &mut [u32; CELLS],
    regions: &mut [u32; REGIONS],
    frames: &mut [u32; FRAMES],
    prints: &mut [u32; PRINTS],
) -> Outcome
    ensures value { result ≡ quiet (Stopped Steps) 0 }
    ensures stop_number_value { stop_number Steps ≡ 10 }
    ensures prints_unchanged { prints.new ≡ prints.old }
    ensures free { Free cells.old regions.old frames.old cells.new regions.new frames.new }
{
    run(&new_u(), cells, regions, frames, prints, 0)
}

// .. with no cells: finished, for a constant "stop 11 is never given".
pub fn run_new_u_no_cells(
    cells: &mut [u32; 0],
    regions: &mut [u32; REGIONS],
    frames: &mut [u32; FRAMES],
    prints: &mut [u32; PRINTS],
) -> Outcome
    ensures value { result ≡ quiet Finished 1 }
    ensures prints_unchanged { prints.new ≡ prints.old }
    ensures free { Free cells.old regions.old frames.old cells.new regions.new frames.new }
{
    run(&new_u(), cells, regions, frames, prints, STEPS)
}

// .. with no frame and no steps: stop 13 after 0.
pub fn run_new_u_no_frame(
    cells: &mut [u32; CELLS],
    regions: &mut [u32; REGIONS],
    frames: &mut [u32; 0],
    prints: &mut [u32; PRINTS],
) -> Outcome
    ensures value { result ≡ quiet (Stopped Frames) 0 }
    ensures stop_number_value { stop_number Frames ≡ 13 }
    ensures prints_unchanged { prints.new ≡ prints.old }
    ensures free { Free cells.old regions.old frames.old cells.new regions.new frames.new }
{
    run(&new_u(), cells, regions, frames, prints, 0)
}

// 2,147,483,647 + 1: stop 15 before that step, after the 21 before it; 2,147,483,647 is printed.
pub fn run_over(
    cells: &mut [u32; CELLS],
    regions: &mut [u32; REGIONS],
    frames: &mut [u32; FRAMES],
    prints: &mut [u32; PRINTS],
) -> Outcome
    ensures value { result ≡ outcome (Stopped Sums) 21 1 }
    ensures stop_number_value { stop_number Sums ≡ 15 }
    ensures prints_after { prints.new ≡ 2147483647 ∷ drop 1 prints.old }
    ensures free { Free cells.old regions.old frames.old cells.new regions.new frames.new }
{
    run(&over(), cells, regions, frames, prints, STEPS)
}

// .. with 21 steps: stop 10, which comes before 15.
pub fn run_over_in_21(
    cells: &mut [u32; CELLS],
    regions: &mut [u32; REGIONS],
    frames: &mut [u32; FRAMES],
    prints: &mut [u32; PRINTS],
) -> Outcome
    ensures value { result ≡ outcome (Stopped Steps) 21 1 }
    ensures prints_after { prints.new ≡ 2147483647 ∷ drop 1 prints.old }
    ensures free { Free cells.old regions.old frames.old cells.new regions.new frames.new }
{
    run(&over(), cells, regions, frames, prints, 21)
}

// -2,147,483,648 less 1: stop 15.
pub fn run_under(
    cells: &mut [u32; CELLS],
    regions: &mut [u32; REGIONS],
    frames: &mut [u32; FRAMES],
    prints: &mut [u32; PRINTS],
) -> Outcome
    ensures value { result ≡ outcome (Stopped Sums) 21 1 }
    ensures prints_after { prints.new ≡ 2147483647 ∷ drop 1 prints.old }
    ensures free { Free cells.old regions.old frames.old cells.new regions.new frames.new }
{
    run(&under(), cells, regions, frames, prints, STEPS)
}

// Both ends of the range, reached by sums and by differences: in range.
pub fn run_both_ends(
    cells: &mut [u32; CELLS],
    regions: &mut [u32; REGIONS],
    frames: &mut [u32; FRAMES],
    prints: &mut [u32; PRINTS],
) -> Outcome
    ensures value { result ≡ outcome Finished 25 3 }
    ensures prints_after { prints.new ≡ 2147483647 ∷ 2147483647 ∷ 2147483648 ∷ drop 3 prints.old }
    ensures free { Free cells.old regions.old frames.old cells.new regions.new frames.new }
{
    run(&both_ends(), cells, regions, frames, prints, STEPS)
}

// One file put to all three.
fn put_to_all(
    file: &[u8],
    out: &mut [u8; MAX_BYTES],
    cells: &mut [u32; CELLS],
    regions: &mut [u32; REGIONS],
    frames: &mut [u32; FRAMES],
    prints: &mut [u32; PRINTS],
) -> Answers
    ensures { IfAllRefuse file.now result out.old out.new (Untouched cells.old regions.old frames.old prints.old
        cells.new regions.new frames.new prints.new) }
{
    Answers {
        annotated: annotate(file, out),
        checked: check(file),
        ran: run(file, cells, regions, frames, prints, STEPS),
    }
}

// "Empty file: 1".
pub fn empty_file(
    out: &mut [u8; MAX_BYTES],
    cells: &mut [u32; CELLS],
    regions: &mut [u32; REGIONS],
    frames: &mut [u32; FRAMES],
    prints: &mut [u32; PRINTS],
) -> Answers
    ensures value { result ≡ refused_by Header }
    ensures refusal_number_value { refusal_number Header ≡ 1 }
    ensures out_unchanged { out.new ≡ out.old }
    ensures untouched { Untouched cells.old regions.old frames.old prints.old
        cells.new regions.new frames.new prints.new }
{
    put_to_all(&[], out, cells, regions, frames, prints)
}

// "U with w7 = 1 in record 5: 2".
pub fn unused_word_not_0(
    out: &mut [u8; MAX_BYTES],
    cells: &mut [u32; CELLS],
    regions: &mut [u32; REGIONS],
    frames: &mut [u32; FRAMES],
    prints: &mut [u32; PRINTS],
) -> Answers
    ensures value { result ≡ refused_by Form }
    ensures refusal_number_value { refusal_number Form ≡ 2 }
    ensures out_unchanged { out.new ≡ out.old }
    ensures untouched { Untouched cells.old regions.old frames.old prints.old
        cells.new regions.new frames.new prints.new }
{
    put_to_all(&unused_word(), out, cells, regions, frames, prints)
}

// ".. in record 6: 3".
pub fn word_past_arity(
    out: &mut [u8; MAX_BYTES],
    cells: &mut [u32; CELLS],
    regions: &mut [u32; REGIONS],
    frames: &mut [u32; FRAMES],
    prints: &mut [u32; PRINTS],
) -> Answers
    ensures value { result ≡ refused_by Typing }
    ensures refusal_number_value { refusal_number Typing ≡ 3 }
    ensures out_unchanged { out.new ≡ out.old }
    ensures untouched { Untouched cells.old regions.old frames.old prints.old
        cells.new regions.new frames.new prints.new }
{
    put_to_all(&past_arity(), out, cells, regions, frames, prints)
}
