// The log of an open condition (C-20): two words an entry, a region's place and what was done there. `undo_log` and `free_log` walk alike: one function over
// what is done to an entry would take a law of the two and both names over it, which is no plainer.
ghost use Rattle.std.specs.Prelude.{◌≡◌, List, ℕ, ◌<◌, length};
ghost use Rattle.memory.specs.Log.{kinds, entry, stored, Is, undone_of, undone, freed_of, freed};
ghost use Rattle.machine.specs.Entries.{log_words, entry_word, noted, Logs};

use language::format::MAX_RECORDS;
use memory::{ENTRY_BUILT, ENTRY_MADE, ENTRY_REMOVED, Heap, remove, take_back};

// A condition carries out each of its goals once, so it logs no more than a file has records.
pub const LOG_WORDS: usize = 2 * MAX_RECORDS;

const ENTRY_WORDS: usize = 2;

// How many words the log has.
pub fn log_length(log: &[u32; LOG_WORDS]) -> usize
    ensures { length log.now ≡ log_words }
{
    let words = &log[..];
    words.len()
}

// Entry number `count`.
pub fn note(log: &mut [u32; LOG_WORDS], count: usize, place: u32, kind: u32)
    ensures { log.new ≡ noted count place kind log.old }
{
    if MAX_RECORDS <= count {
        return;
    }
    log[ENTRY_WORDS * count] = place;
    log[ENTRY_WORDS * count + 1] = kind;
}

// Word k of entry i; 0 past the last one.
fn entry_word(log: &[u32; LOG_WORDS], i: usize, k: usize) -> u32
    requires { k < 2 }
    ensures { result ≡ entry_word log.now i k }
{
    if MAX_RECORDS <= i {
        return 0;
    }
    log[ENTRY_WORDS * i + k]
}

fn undo_entry(heap: Heap, cells: &mut [u32], regions: &mut [u32], place: u32, kind: u32) -> Heap
    ensures { Is result cells.new regions.new (undone_of kind place (stored heap cells.old regions.old)) }
{
    if kind == ENTRY_BUILT {
        return take_back(heap, &mut cells[..], &mut regions[..], place);
    }
    if kind == ENTRY_MADE {
        return remove(heap, &mut cells[..], &mut regions[..], place);
    }
    heap
}

// A failing test: the newest entry goes first.
pub fn undo_log(
    heap: Heap,
    cells: &mut [u32],
    regions: &mut [u32],
    log: &[u32; LOG_WORDS],
    count: usize,
) -> Heap
    ensures { (told : List ℕ) → Logs log.now told count
        → Is result cells.new regions.new (undone told count (stored heap cells.old regions.old)) }
{
    let mut left = heap;
    for i in (0..count).rev() {
        let place = entry_word(log, i, 0);
        let kind = entry_word(log, i, 1);
        left = undo_entry(left, &mut cells[..], &mut regions[..], place, kind);
    }
    left
}

fn free_entry(heap: Heap, cells: &mut [u32], regions: &mut [u32], place: u32, kind: u32) -> Heap
    ensures { Is result cells.new regions.new (freed_of kind place (stored heap cells.old regions.old)) }
{
    if kind == ENTRY_REMOVED {
        return remove(heap, &mut cells[..], &mut regions[..], place);
    }
    heap
}

// The then part begins: what the condition removed goes.
pub fn free_log(
    heap: Heap,
    cells: &mut [u32],
    regions: &mut [u32],
    log: &[u32; LOG_WORDS],
    count: usize,
) -> Heap
    ensures { (told : List ℕ) → Logs log.now told count
        → Is result cells.new regions.new (freed told count (stored heap cells.old regions.old)) }
{
    let mut left = heap;
    for i in (0..count).rev() {
        let place = entry_word(log, i, 0);
        let kind = entry_word(log, i, 1);
        left = free_entry(left, &mut cells[..], &mut regions[..], place, kind);
    }
    left
}
