// One pass over the records: whether a record stands in a condition is handed down to the records that it refers to, which stand behind it.
ghost use Rattle.std.specs.Prelude.{◌≡◌, ℕ, eqb};
ghost use Rattle.language.specs.Conditions.{conditions_ok};
ghost use Rattle.language.specs.Answers.{program};
ghost use Rattle.chains.specs.Formed.{Formed};
ghost use Rattle.conditions.specs.Inside.{inside_by};
ghost use Rattle.conditions.specs.Standing.{may_stand};
ghost use Rattle.conditions.specs.Without.{any_condition};

use chains::record_count;
use language::format;
use language::format::MAX_RECORDS;
use owners::hand_to;
use records::word_in;

// Whether every record stands where its kind may, in a condition or outside.
pub fn conditions_ok(file: &[u8]) -> bool
    requires { Formed file.now }
    ensures { result ≡ conditions_ok (program file.now) }
{
    if !any_condition(file) {
        return true;
    }
    let mut inside = [0; MAX_RECORDS];
    for i in 0..record_count(file) {
        let own = inside[i];
        let kind = word_in(file, i, format::KIND);
        if !may_stand(own, kind) {
            return false;
        }
        hand_to(file, i, &mut inside, |k| next_mark(kind, k, own));
    }
    true
}

// Whether some record is a try or a test. Where none is, there is nothing to hand down.
// The loop has no way out before its end, so that the compiler takes several records a turn.
fn any_condition(file: &[u8]) -> bool
    requires { Formed file.now }
    ensures { result ≡ any_condition file.now }
{
    let mut found = false;
    for i in 0..record_count(file) {
        found |= word_in(file, i, format::KIND) >= format::TRY;
    }
    found
}

// Whether a record of this kind, by its number as in `owners`, may stand in a condition, or outside where `inside` is 0.
fn may_stand(inside: u16, kind: usize) -> bool
    ensures { result ≡ may_stand (eqb inside 1) kind }
{
    if inside == 1 {
        match kind {
            format::IF => false,
            format::CALL => false,
            format::PRINT => false,
            format::TRY => false,
            _ => true,
        }
    } else {
        kind != format::TEST
    }
}

// What a record hands down by a word: a try's condition is one, and what else its words lead to stands where the record does.
fn next_mark(kind: usize, word: usize, own: u16) -> u16
    ensures { (i : ℕ) → result ≡ inside_by kind i word own }
{
    if kind == format::TRY && word == format::TRY_CONDITION {
        1
    } else {
        own
    }
}
