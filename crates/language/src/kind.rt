// What a record is: "w0 is the kind".
use crate::format;

// What a goal is.
#[derive(Clone, Copy, Debug, PartialEq, Eq)]
pub enum Goal {
    Literal,
    Sum,
    Assign,
    Construct,
    Switch,
    If,
    Call,
    Print,
    Create,
    Remove,
    Try,
    Test,
}

#[derive(Clone, Copy, Debug, PartialEq, Eq)]
pub enum Kind {
    Header,
    Type,
    Functor,
    Procedure,
    Variable,
    Region,
    Edge,
    Arm,
    Argument,
    Goal(Goal),
}

// A number that is no kind's.
#[derive(Clone, Copy, Debug, PartialEq, Eq)]
pub struct NoKind(pub usize);

impl TryFrom<usize> for Kind {
    ghost use Rattle.language.specs.Kinds.{IsNumbered};

    type Error = NoKind;

    ghost try_from_gives = { IsNumbered };

    fn try_from(n: usize) -> Result<Self, NoKind> {
        match n {
            format::HEADER => Ok(Kind::Header),
            format::TYPE => Ok(Kind::Type),
            format::FUNCTOR => Ok(Kind::Functor),
            format::PROCEDURE => Ok(Kind::Procedure),
            format::VARIABLE => Ok(Kind::Variable),
            format::REGION => Ok(Kind::Region),
            format::EDGE => Ok(Kind::Edge),
            format::LITERAL => Ok(Kind::Goal(Goal::Literal)),
            format::SUM => Ok(Kind::Goal(Goal::Sum)),
            format::ASSIGN => Ok(Kind::Goal(Goal::Assign)),
            format::CONSTRUCT => Ok(Kind::Goal(Goal::Construct)),
            format::SWITCH => Ok(Kind::Goal(Goal::Switch)),
            format::ARM => Ok(Kind::Arm),
            format::IF => Ok(Kind::Goal(Goal::If)),
            format::CALL => Ok(Kind::Goal(Goal::Call)),
            format::ARGUMENT => Ok(Kind::Argument),
            format::PRINT => Ok(Kind::Goal(Goal::Print)),
            format::CREATE => Ok(Kind::Goal(Goal::Create)),
            format::REMOVE => Ok(Kind::Goal(Goal::Remove)),
            format::TRY => Ok(Kind::Goal(Goal::Try)),
            format::TEST => Ok(Kind::Goal(Goal::Test)),
            _ => Err(NoKind(n)),
        }
    }
}
