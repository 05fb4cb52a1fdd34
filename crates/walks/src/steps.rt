// Which goals have no parts.
ghost use Rattle.std.specs.Prelude.{◌≡◌};
ghost use Rattle.walks.specs.Steps.{is_step};

use language::format::{ASSIGN, CALL, CONSTRUCT, CREATE, LITERAL, PRINT, REMOVE, SUM, TEST};

// Whether a goal of that kind is a step.
#[tactic(auto, using(crate::specs::Steps::step_tells))]
pub fn is_step(kind: usize) -> bool
    ensures { result ≡ is_step kind }
{
    matches!(
        kind,
        LITERAL | SUM | ASSIGN | CONSTRUCT | CALL | PRINT | CREATE | REMOVE | TEST
    )
}
