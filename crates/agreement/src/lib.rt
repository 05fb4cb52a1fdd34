// Demand 3 about the code: the annotator, the checker and the runner as they run, joined with the theorem about the definitions.
#![tactic(auto)]

mod runs;

ghost use Rattle.std.specs.Prelude.{◌≡◌, true, length};
ghost use Rattle.language.specs.Answers.{annotated, annotator_memory};
ghost use Rattle.agreement.specs.Agreement.{LeavesSound};

use annotation::annotate;
use checking::check;
pub use runs::runs_as_plain;

// Annotates, then checks the bytes that were left, in memory that stands as the annotator leaves it. Whatever the file and the memory, the checker accepts
// them: the answer is never false. That alone says nothing of the bytes, a function that looks at none meets it; `LeavesSound` says that the checker's
// definition accepts them, and what follows of their run.
pub fn left_is_accepted(file: &[u8], out: &mut [u8]) -> bool
    ensures value { result ≡ true }
    ensures leaves_sound { LeavesSound (annotated file.now (length out.old)) out.new }
    ensures out_after { out.new ≡ annotator_memory (annotated file.now (length out.old)) out.old }
{
    let Ok(n) = annotate(file, out) else {
        return true;
    };
    check(&out[..n]).is_ok()
}
