// An entry of a table, and a word of a record, each 0 where there is none.
ghost use Rattle.std.specs.Prelude.{◌≡◌, ◌<◌, get_or};
ghost use Rattle.records.specs.Sizes.{record_words};
ghost use Rattle.chains.specs.Fields.{field_of};

use records::word;

// The entry at place n of a table; 0 past its end.
pub fn entry(table: &[usize], n: usize) -> usize
    ensures { result ≡ get_or table.now n 0 }
{
    if n < table.len() { table[n] } else { 0 }
}

// Word k of record i; 0 for record 0, which stands for "none".
pub fn field(file: &[u8], i: usize, k: usize) -> usize
    requires { k < record_words }
    ensures { result ≡ field_of file.now i k }
{
    if i == 0 { 0 } else { word(file, i, k) }
}
