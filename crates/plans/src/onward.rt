// Where the chain of each record goes on after its end, handed down in one pass over the records.
ghost use Rattle.std.specs.Prelude.{◌≡◌, ℕ, List, ◌≤◌, length};
ghost use Rattle.language.specs.File.{word as word_of, record_count};
ghost use Rattle.language.specs.Format.{next_word};
ghost use Rattle.chains.specs.Formed.{Formed};
ghost use Rattle.owners.specs.Handed.{handed};
ghost use Rattle.word_machine.specs.Tables.{onto as ontoOf};
ghost use Rattle.word_machine.specs.Filling.{parts_onward, onward_by};

use chains::record_count;
use language::format;
use owners::hand_to;
use records::word_in;

// The first record of a chain, or where to go on if the chain is empty.
pub fn onto(first: usize, onward: usize) -> usize
    ensures { result ≡ ontoOf first onward }
{
    if first == 0 { onward } else { first }
}

// After a goal comes its next goal or, at the end of its chain, the record that the table then has for it.
pub fn fill_onward(file: &[u8], table: &mut [usize])
    requires formed { Formed file.now }
    requires file_in_bounds { record_count file.now ≤ length table.old }
    ensures { table.new ≡ handed (onward_by file.now) file.now table.old }
{
    for i in 0..record_count(file) {
        let own = table[i];
        let kind = word_in(file, i, format::KIND);
        let next = word_in(file, i, format::NEXT);
        hand_to(file, i, table, |k| next_onward(kind, next, k, own));
    }
    table[0] = 0;
}

// Where the chain goes on that a word of a record leads to, own being where its own does: a try's condition nowhere. Kinds are numbers, as in `owners`.
fn next_onward(kind: usize, next: usize, word: usize, own: usize) -> usize
    ensures { (f : List ℕ) (i : ℕ) → next ≡ word_of f i next_word → result ≡ onward_by f kind i word own }
{
    if kind == format::TRY && word == format::TRY_CONDITION {
        return 0;
    }
    if word == format::NEXT {
        return own;
    }
    parts_onward(kind, next, own)
}

// Where the chains go on that a record's words beside w1 lead to, but for a try's condition.
fn parts_onward(kind: usize, next: usize, own: usize) -> usize
    ensures { result ≡ parts_onward kind next own }
{
    match kind {
        format::PROCEDURE => 0,
        format::SWITCH => onto(next, own),
        format::IF => onto(next, own),
        format::TRY => onto(next, own),
        _ => own,
    }
}
