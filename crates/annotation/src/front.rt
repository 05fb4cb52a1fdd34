// The written part of the lent memory itself.
ghost use Rattle.std.specs.Prelude.{◌≡◌, length};
ghost use Rattle.language.specs.Answers.{annotated};
ghost use Rattle.annotation.specs.Front.{front_of};

use crate::answer::annotate;

// "A good annotation is handed back as the front part of the caller's output memory": that part, which starts where the memory does; empty after a
// refusal, whose cause `annotate` gives.
pub fn annotated_front<'a>(file: &[u8], out: &'a mut [u8]) -> &'a mut [u8]
    ensures result_value { result.now ≡ front_of (annotated file.now (length out.old)) }
    ensures ref_ptr_value { result.ref_ptr ≡ out.entry.ref_ptr }
{
    match annotate(file, &mut *out) {
        Err(_) => &mut out[..0],
        Ok(n) => &mut out[..n],
    }
}
