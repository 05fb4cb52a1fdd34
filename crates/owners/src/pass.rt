// The procedure that each record belongs to, in one pass: a record hands it down to the records that it refers to, which stand behind it.
ghost use Rattle.std.specs.Prelude.{◌≡◌, ℕ, ◌++◌, ◌+◌, ◌≤◌, ◌<◌, length, drop};
ghost use Rattle.language.specs.File.{word, record_count};
ghost use Rattle.records.specs.Sizes.{record_words, word_end};
ghost use Rattle.chains.specs.Formed.{Formed};
ghost use Rattle.owners.specs.Handed.{words_of};
ghost use Rattle.owners.specs.Gives.{Gives, hand_words};
ghost use Rattle.owners.specs.Owner.{owner_by, owners_of};

use crate::words::part_digits;
use chains::record_count;
use language::format;
use records::sizes::DIGIT_END;
use records::word_in;

// Writes, for each record of the file, the number of the procedure that it belongs to. Places behind stay as they are.
pub fn list_owners(file: &[u8], owners: &mut [u16])
    requires formed { Formed file.now }
    requires file_in_bounds { record_count file.now ≤ length owners.old }
    ensures { owners.new ≡ owners_of file.now ++ drop (record_count file.now) owners.old }
{
    let n = record_count(file);
    owners[..n].fill(0);
    for i in 0..n {
        let own = owners[i];
        let kind = word_in(file, i, format::KIND);
        hand_to(file, i, owners, |k| next_owner(kind, k, own));
    }
    owners[0] = 0;
}

// What a record hands down by a word: the next procedure has the next number. A kind stays its number in passes: `part_digits` is a table by that number, and
// `owner_by` takes it.
fn next_owner(kind: usize, word: usize, own: u16) -> u16
    requires { own + 1 < word_end }
    ensures { (i : ℕ) → result ≡ owner_by kind i word own }
{
    if kind == format::PROCEDURE && word == format::NEXT {
        own + 1
    } else {
        own
    }
}

// Gives each record that the words of record i lead to what `by` says of the word.
pub fn hand_to<T: Copy, F: Fn(usize) -> T>(file: &[u8], i: usize, table: &mut [T], by: F)
    requires formed { Formed file.now }
    requires i_bound { (i < record_count file.now) × (record_count file.now ≤ length table.old) }
    requires may_give { (k : ℕ) → k < record_words → F.pre by k }
    ensures { (g : ℕ → T) → Gives g (F.post by) → table.new ≡ hand_words g (word file.now i) (words_of file.now i) table.old }
{
    let next = word_in(file, i, format::NEXT);
    table[next] = by(format::NEXT);
    let mut left = part_digits(word_in(file, i, format::KIND));
    // digits, the lowest first: no count
    while left != 0 {
        let part = left % DIGIT_END;
        let w = word_in(file, i, part);
        table[w] = by(part);
        left /= DIGIT_END;
    }
}
