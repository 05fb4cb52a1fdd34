// The window of a procedure, found by its start. To read it, lend the file's table from there on, as body_of does.
ghost use Rattle.std.specs.Prelude.{◌≡◌, ◌≤◌, length, get_or};
ghost use Rattle.tables.specs.Window.{body_place};
ghost use Rattle.tables.specs.Starts.{start_in, window_in};

use crate::BODY;
use crate::window::word_at;

// Where the window of procedure q starts.
pub fn start_of(table: &[u64], q: usize) -> usize
    ensures value { result ≡ start_in table.now q }
    ensures upper_bound { result ≤ length table.now }
{
    if q < table.len() {
        let start = table[q] as usize;
        if start <= table.len() {
            return start;
        }
    }
    0
}

// The first goal of procedure q.
pub fn body_of(table: &[u64], q: usize) -> usize
    ensures { result ≡ get_or (window_in table.now q) body_place 0 }
{
    let start = start_of(table, q);
    word_at(&table[start..], BODY)
}
