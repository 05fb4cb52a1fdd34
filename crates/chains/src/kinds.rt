// What records are.
ghost use Rattle.std.specs.Prelude.{◌≡◌, ◌<◌};
ghost use Rattle.language.specs.File.{goals, word, record_count};
ghost use Rattle.language.specs.Format.{kind_word};
ghost use Rattle.language.specs.Kinds.{KindOf, goal_number};
ghost use Rattle.chains.specs.Formed.{Formed, Stands};

use crate::words::word;
use language::format::{
    ASSIGN, CALL, CONSTRUCT, CREATE, IF, KIND, LITERAL, PRINT, REMOVE, SUM, SWITCH, TRY,
};
use language::{Goal, Kind};

// What record i is; none where its number is no kind's.
pub fn kind(file: &[u8], i: usize) -> Option<Kind>
    requires formed { Formed file.now }
    requires i_bound { i < record_count file.now }
    ensures { KindOf (word file.now i kind_word) result }
{
    Kind::try_from(word(file, i, KIND)).ok()
}

// What the goal at record i is.
pub fn goal(file: &[u8], i: usize) -> Goal
    requires formed { Formed file.now }
    requires stands { Stands file.now goals i × (i ≡ 0 → ⊥) }
    ensures { word file.now i kind_word ≡ goal_number result }
{
    match word(file, i, KIND) {
        LITERAL => Goal::Literal,
        SUM => Goal::Sum,
        ASSIGN => Goal::Assign,
        CONSTRUCT => Goal::Construct,
        SWITCH => Goal::Switch,
        IF => Goal::If,
        CALL => Goal::Call,
        PRINT => Goal::Print,
        CREATE => Goal::Create,
        REMOVE => Goal::Remove,
        TRY => Goal::Try,
        _ => Goal::Test,
    }
}
