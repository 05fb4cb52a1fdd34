// The answers that the programs share, document 01's table of refusals and stops, and its numbers.
#![tactic(auto)]

pub mod format;
mod kind;

ghost use Rattle.std.specs.Prelude.{◌≡◌};
ghost use Rattle.language.specs.Answers.{refusal_number, stop_number, ending_number};

pub use kind::{Goal, Kind, NoKind};

// The cause of a refusal, in the order in which they are looked at: numbers 1 to 5, 17 (C-18), 6 to 9. A test of a file answers `Result<(), Refusal>`: the
// lowest refusal that applies, or that none does.
#[derive(Clone, Copy, Debug, PartialEq, Eq)]
pub enum Refusal {
    Header,
    Form,
    Typing,
    Values,
    Regions,
    Unreached,
    Annotated,
    Classes,
    Rules,
    Room,
}

// The table's numbers.
impl From<Refusal> for u64 {
    ghost from_gives = { λ r n. n ≡ refusal_number r };

    #[tactic(auto, unfolding(crate::specs::Answers::refusal_number))]
    fn from(r: Refusal) -> u64 {
        match r {
            Refusal::Header => 1,
            Refusal::Form => 2,
            Refusal::Typing => 3,
            Refusal::Values => 4,
            Refusal::Regions => 5,
            Refusal::Unreached => 17,
            Refusal::Annotated => 6,
            Refusal::Classes => 7,
            Refusal::Rules => 8,
            Refusal::Room => 9,
        }
    }
}

// Why a run stops before a step that can't be done: numbers 10 to 15.
#[derive(Clone, Copy, Debug, PartialEq, Eq)]
pub enum Stop {
    Steps,
    Cells,
    Places,
    Frames,
    Prints,
    Sums,
}

impl From<Stop> for u64 {
    ghost from_gives = { λ c n. n ≡ stop_number c };

    #[tactic(auto, unfolding(crate::specs::Answers::stop_number))]
    fn from(c: Stop) -> u64 {
        match c {
            Stop::Steps => 10,
            Stop::Cells => 11,
            Stop::Places => 12,
            Stop::Frames => 13,
            Stop::Prints => 14,
            Stop::Sums => 15,
        }
    }
}

// How a run ends. No `Result`: a file that is refused, a run to its end and a run that stops are three cases, and a stopped run has printed and counted
// steps as a finished one has.
#[derive(Clone, Copy, Debug, PartialEq, Eq)]
pub enum Ending {
    Refused(Refusal),
    Finished,
    Stopped(Stop),
}

// The number of an answer: 0 where the run came to its end.
impl From<Ending> for u64 {
    ghost from_gives = { λ e n. n ≡ ending_number e };

    #[tactic(auto, unfolding(crate::specs::Answers::ending_number))]
    fn from(e: Ending) -> u64 {
        match e {
            Ending::Refused(r) => u64::from(r),
            Ending::Finished => 0,
            Ending::Stopped(c) => u64::from(c),
        }
    }
}
