// The annotator's answer on standard output.
ghost use Rattle.std.specs.Prelude.{◌≡◌, length};
ghost use Rattle.language.specs.Answers.{annotated, annotator_bytes};
ghost use Rattle.language.specs.Output.{annotator_output};
ghost use Rattle.lines.specs.Put.{Front};

use crate::print;
use annotation::annotate;
use language::format::MAX_BYTES;
use lines::put_refusal;

// The bytes that the annotator lends: as many as 4,096 records have.
fn lent() -> [u8; MAX_BYTES]
    ensures { annotator_bytes ≡ length result }
{
    [0; MAX_BYTES]
}

// What the annotator writes, at the front of `out`. Answers how many bytes that are.
fn annotator_answer(file: &[u8], out: &mut [u8]) -> usize
    requires { length out.old ≡ annotator_bytes }
    ensures { Front (annotator_output (annotated file.now annotator_bytes)) out.old out.new result }
{
    match annotate(file, out) {
        Err(r) => put_refusal(out, 0, r),
        Ok(n) => n,
    }
}

pub fn print_annotated(rt: &HostRuntime, file: &[u8]) {
    let mut out = lent();
    let n = annotator_answer(file, &mut out);
    print(rt, &out[..n]);
}
