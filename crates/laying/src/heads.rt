// Records whose words lead to what was laid behind them.
ghost use Rattle.std.specs.Prelude.{◌<◌};
ghost use Rattle.language.specs.File.{record_count};
ghost use Rattle.chains.specs.Formed.{Formed};
ghost use Rattle.laying.specs.Heads.{SwitchStored, IfStored, TryStored, ArmStored, ProcedureStored};

use crate::place::{refer, span, store};
use chains::word;
use language::format::{
    ARM, GOAL_X, IF, IF_Y, IF_Z, NEXT, PROCEDURE, SWITCH, TERM_ARGUMENTS, TERM_FUNCTOR, TRY,
};

// Stores the switch of record i as record at; its arms were laid from start to end.
pub fn store_switch(file: &[u8], out: &mut [u8], i: usize, at: usize, start: usize, end: usize)
    requires formed { Formed file.now }
    requires i_bound { i < record_count file.now }
    ensures { SwitchStored file.now i out.old out.new at start end }
{
    let next = refer(word(file, i, NEXT), end);
    let x = word(file, i, GOAL_X);
    let arms = span(start, end);
    store(out, at, SWITCH, next, x, arms, 0, 0, 0, 0);
}

// The same for an if, whose parts were laid from start to middle and from there to end.
pub fn store_if(
    file: &[u8],
    out: &mut [u8],
    i: usize,
    at: usize,
    start: usize,
    middle: usize,
    end: usize,
)
    requires formed { Formed file.now }
    requires i_bound { i < record_count file.now }
    ensures { IfStored file.now i out.old out.new at start middle end }
{
    let next = refer(word(file, i, NEXT), end);
    let y = word(file, i, IF_Y);
    let z = word(file, i, IF_Z);
    let yes = span(start, middle);
    let no = span(middle, end);
    store(out, at, IF, next, y, z, yes, no, 0, 0);
}

// The same for a try, whose condition, then and else part were laid from start to yes, from there to no, from there to end.
pub fn store_try(
    file: &[u8],
    out: &mut [u8],
    i: usize,
    at: usize,
    start: usize,
    yes: usize,
    no: usize,
    end: usize,
)
    requires formed { Formed file.now }
    requires i_bound { i < record_count file.now }
    ensures { TryStored file.now i out.old out.new at start yes no end }
{
    let next = refer(word(file, i, NEXT), end);
    let w2 = span(start, yes);
    let w3 = span(yes, no);
    let w4 = span(no, end);
    store(out, at, TRY, next, w2, w3, w4, 0, 0, 0);
}

// The same for an arm, whose goals were laid from start to end.
pub fn store_arm(file: &[u8], out: &mut [u8], i: usize, at: usize, start: usize, end: usize)
    requires formed { Formed file.now }
    requires i_bound { i < record_count file.now }
    ensures { ArmStored file.now i out.old out.new at start end }
{
    let next = refer(word(file, i, NEXT), end);
    let goals = span(start, end);
    let functor = word(file, i, TERM_FUNCTOR);
    let a1 = word(file, i, TERM_ARGUMENTS);
    let a2 = word(file, i, TERM_ARGUMENTS + 1);
    let a3 = word(file, i, TERM_ARGUMENTS + 2);
    let a4 = word(file, i, TERM_ARGUMENTS + 3);
    store(out, at, ARM, next, goals, functor, a1, a2, a3, a4);
}

// The same for a procedure, whose variables, regions and goals were laid from start to regions, from there to body, from there to end.
pub fn store_procedure(
    file: &[u8],
    out: &mut [u8],
    i: usize,
    at: usize,
    start: usize,
    regions: usize,
    body: usize,
    end: usize,
)
    requires formed { Formed file.now }
    requires i_bound { i < record_count file.now }
    ensures { ProcedureStored file.now i out.old out.new at start regions body end }
{
    let next = refer(word(file, i, NEXT), end);
    let w2 = span(start, regions);
    let w3 = span(regions, body);
    let w4 = span(body, end);
    store(out, at, PROCEDURE, next, w2, w3, w4, 0, 0, 0);
}
