// The annotator, the checker and the runner for C and Rust to link. Each answers a number: 0, a refusal's or a stop's. A slice comes as its pointer and its
// length; what else there is to say goes into lent places.
#![tactic(auto)]

ghost use Rattle.std.specs.Prelude.{◌≡◌, length};
ghost use Rattle.language.specs.Machine.{print_places};
ghost use Rattle.language.specs.Answers.{checker_number, ending_number, annotator_number, written_bytes, annotated, annotator_memory, checked, ran};
ghost use Rattle.word_machine.specs.Machine.{lent_words};
ghost use Rattle.running.specs.Answer.{LentAfter};
ghost use Rattle.gumreta.specs.Numbers.{version};

use annotation::annotate;
use checking::check;
use running::run;

// As GUMRETA_VERSION of c/gumreta.h.
const VERSION: u64 = 40200;

// Which release an archive is of.
#[unsafe(no_mangle)]
pub extern "C" fn gumreta_version() -> u64
    ensures { result ≡ version }
{
    VERSION
}

// 0, and how many bytes at the front of `out` are the annotated file; or the number of a refusal, no bytes, and `out` as it was.
#[unsafe(no_mangle)]
pub extern "C" fn gumreta_annotate(file: &[u8], out: &mut [u8], written: &mut usize) -> u64
    ensures value { result ≡ annotator_number (annotated file.now (length out.old)) }
    ensures out_after { out.new ≡ annotator_memory (annotated file.now (length out.old)) out.old }
    ensures written_after { written.new ≡ written_bytes (annotated file.now (length out.old)) }
{
    match annotate(file, &mut *out) {
        Err(r) => {
            *written = 0;
            u64::from(r)
        }
        Ok(n) => {
            *written = n;
            0
        }
    }
}

// 0 where the file is accepted, or the number of a refusal.
#[unsafe(no_mangle)]
pub extern "C" fn gumreta_check(file: &[u8]) -> u64
    ensures { result ≡ checker_number (checked file.now) }
{
    match check(file) {
        Ok(()) => 0,
        Err(r) => u64::from(r),
    }
}

// 0 where the run finished, or the number of a refusal or a stop; the steps done; and how many words at the front of `prints` are printed numbers. Words
// behind those keep their contents, and after a refusal all lent words do.
#[unsafe(no_mangle)]
pub extern "C" fn gumreta_run(
    file: &[u8],
    cells: &mut [u32],
    regions: &mut [u32],
    frames: &mut [u32],
    prints: &mut [u32],
    steps: usize,
    done: &mut usize,
    printed: &mut usize,
) -> u64
    ensures value { result ≡ ending_number (ran file.now
        (lent_words cells.old regions.old frames.old prints.old steps)).ending }
    ensures done_after { done.new ≡ (ran file.now
        (lent_words cells.old regions.old frames.old prints.old steps)).steps }
    ensures printed_after { printed.new ≡ length (ran file.now
        (lent_words cells.old regions.old frames.old prints.old steps)).printed }
    ensures prints_after { prints.new ≡ print_places (ran file.now
        (lent_words cells.old regions.old frames.old prints.old steps)) prints.old }
    ensures lent_after { LentAfter file.now cells.old regions.old frames.old prints.old
        cells.new regions.new frames.new prints.new }
{
    let r = run(
        file,
        &mut *cells,
        &mut *regions,
        &mut *frames,
        &mut *prints,
        steps,
    );
    let ending = r.ending;
    *done = r.steps;
    *printed = r.printed;
    u64::from(ending)
}
