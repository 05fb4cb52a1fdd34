// The two tables before they are filled: zeros.
ghost use Rattle.std.specs.Prelude.{◌≡◌, replicate};
ghost use Rattle.tables.specs.TablePlaces.{file_words, row_words};

use crate::{ROWS, TABLE};

pub fn blank_file_table() -> [u64; TABLE]
    ensures { result ≡ replicate file_words 0 }
{
    [0; TABLE]
}

pub fn blank_rows() -> [u64; ROWS]
    ensures { result ≡ replicate row_words 0 }
{
    [0; ROWS]
}
