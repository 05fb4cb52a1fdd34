// A call's frame over its caller's, and returns.
ghost use Rattle.std.specs.Prelude.{◌≡◌, List, ℕ, suc, ◌+◌, ◌*◌, ◌≤◌, ◌<◌, length, get_or};
ghost use Rattle.language.specs.File.{word};
ghost use Rattle.language.specs.Format.{record_bytes, max_records, call_procedure};
ghost use Rattle.memory.specs.declared.Heap.{Heap};
ghost use Rattle.chains.specs.Formed.{Formed};
ghost use Rattle.plans.specs.Plan.{callee_word, callee_body, callee_size, callee_born, Narrow, tables_in};
ghost use Rattle.word_machine.specs.Machine.{frame_words, call_place, callee_words, return_words, settled};
ghost use Rattle.machine.specs.Words.{FramePlaced, words_of};
ghost use Rattle.machine.specs.Calls.{marked};

use crate::State;
use crate::goals::successor;
use frames::{
    CALL_FROM, FRAME_WORDS, clear, regions_in, regions_out, store, values_in, values_out,
};
use language::format::{CALL_PROCEDURE, MAX_PROCEDURES, RECORD_BYTES};
use plans::{CALLEE_BODY, CALLEE_BORN, CALLEE_HELD, CALLEE_ROW, CALLEE_SIZE, CALLEES, PLAN, SIDES};
use records::word_in;
use sets::Set;

// Word k of what a call reads of procedure q.
fn callee_word(callees: &[u64; CALLEES], q: usize, k: usize) -> u64
    requires { k ≤ callee_born }
    ensures { result ≡ callee_word callees.now q k }
{
    callees[CALLEE_ROW * (q % MAX_PROCEDURES) + k]
}

fn number(x: u64) -> usize
    ensures { result ≡ x }
{
    x as usize
}

// How many variables procedure q has.
pub fn size_of(callees: &[u64; CALLEES], q: usize) -> usize
    ensures { result ≡ callee_word callees.now q callee_size }
{
    number(callee_word(callees, q, CALLEE_SIZE))
}

// The record of procedure q's first goal.
pub fn body_of(callees: &[u64; CALLEES], q: usize) -> usize
    ensures { result ≡ callee_word callees.now q callee_body }
{
    number(callee_word(callees, q, CALLEE_BODY))
}

fn wide(x: u32) -> usize
    ensures { result ≡ x }
{
    x as usize
}

// Where the frame at a place goes on after its call, and in the callee's frame the call's record.
fn mark(frames: &mut [u32], at: usize, next: u32, i: u32)
    requires { at + 2 * frame_words ≤ length frames.old }
    ensures { frames.new ≡ marked at next i frames.old }
{
    store(&mut frames[..], at, next);
    store(&mut frames[..], at + FRAME_WORDS + CALL_FROM, i);
}

// "A call adds the callee's frame with its in values"; "a callee's dead and kept numbers stand for what their images do". Returns the callee's first goal.
pub fn call(
    file: &[u8],
    plan: &[usize; PLAN],
    images: &[u8],
    callees: &[u64; CALLEES],
    i: usize,
    at: usize,
    frames: &mut [u32],
) -> usize
    requires i_lt_max_records { (i < max_records) × (record_bytes * i + record_bytes ≤ length file.now) }
    requires narrow { Narrow plan.now images.now × (at + 2 * frame_words ≤ length frames.old) }
    ensures value { result ≡ callee_word callees.now (word file.now i call_procedure) callee_body }
    ensures by_index { (k : ℕ) → at ≡ frame_words * k → frames.new ≡ callee_words file.now
        (tables_in plan.now images.now callees.now)
        k i (word file.now i call_procedure) frames.old }
{
    let q = word_in(file, i, CALL_PROCEDURE);
    mark(&mut frames[..], at, successor(plan, i) as u32, i as u32);
    clear(&mut frames[..], at + FRAME_WORDS + 1, size_of(callees, q));
    values_in(plan, i, at, &mut frames[..]);
    let held = Set::loaded(callee_word(callees, q, CALLEE_HELD));
    regions_in(held, images, plan[SIDES + i], at, &mut frames[..]);
    body_of(callees, q)
}

// "Its out values pass to the call's arguments"; "when its frame goes, the images of born ones stand for what those did": a return to the frame at
// a place.
fn give_back(
    file: &[u8],
    plan: &[usize; PLAN],
    images: &[u8],
    callees: &[u64; CALLEES],
    to: usize,
    frames: &mut [u32],
)
    requires formed { Formed file.now }
    requires narrow { Narrow plan.now images.now × (to + 2 * frame_words ≤ length frames.old) }
    ensures { (k : ℕ) → to ≡ frame_words * k → frames.new ≡ return_words file.now
        (tables_in plan.now images.now callees.now)
        k (get_or frames.old (call_place (suc k)) 0) frames.old }
{
    let i = wide(frames[to + FRAME_WORDS + CALL_FROM]);
    if file.len() / RECORD_BYTES <= i {
        return;
    }
    values_out(plan, i, to, &mut frames[..]);
    let q = word_in(file, i, CALL_PROCEDURE);
    let born = Set::loaded(callee_word(callees, q, CALLEE_BORN));
    regions_out(born, images, plan[SIDES + i], to, &mut frames[..]);
}

// "Whenever the newest frame has no goals left, it goes at once". The entry's frame stays.
pub fn settle(
    file: &[u8],
    plan: &[usize; PLAN],
    images: &[u8],
    callees: &[u64; CALLEES],
    state: State,
    frames: &mut [u32],
) -> State
    requires formed { Formed file.now × FramePlaced state (length frames.old) }
    requires narrow { Narrow plan.now images.now }
    ensures result_after { (h : Heap) (m rs ps : List ℕ) → words_of h m rs frames.new ps result
        ≡ settled file.now (tables_in plan.now images.now callees.now)
        (words_of h m rs frames.old ps state) }
    ensures frame_placed { FramePlaced result (length frames.new) }
{
    let printed = state.printed;
    let mut top = state.top;
    let mut at = state.at;
    let mut goal = state.goal;
    // a frame a turn, as long as it has no goals left
    while goal == 0 {
        if at == 0 {
            return State {
                top,
                at,
                goal,
                printed,
            };
        }
        top -= 1;
        at -= FRAME_WORDS;
        goal = wide(frames[at]);
        give_back(file, plan, images, callees, at, &mut frames[..]);
    }
    State {
        top,
        at,
        goal,
        printed,
    }
}
