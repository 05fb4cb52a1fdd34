// Numbers 1 and 2 as a stage, the lower first.
ghost use Rattle.std.specs.Prelude.{◌≡◌};
ghost use Rattle.records.specs.Verdicts.{form_verdict};

use crate::form::form_ok;
use crate::words::{header_ok, word};
use language::Refusal;
use language::format::HEADER_COUNT;

pub fn check_form(file: &[u8]) -> Result<(), Refusal>
    ensures { result ≡ form_verdict file.now }
{
    if !header_ok(file) {
        return Err(Refusal::Header);
    }
    let n = word(file, 0, HEADER_COUNT);
    if !form_ok(file, n) {
        return Err(Refusal::Form);
    }
    Ok(())
}
