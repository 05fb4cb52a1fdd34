// Where each record goes on, and the links from each call to its arguments and from each argument to the next, one for each mode. They are put where
// the ends of chains and the matches stood, from the last record down to the first: a link leads to a later record, which has its own already.
ghost use Rattle.std.specs.Prelude.{◌≡◌, suc, ◌<◌};
ghost use Rattle.language.specs.File.{record_count};
ghost use Rattle.language.specs.Format.{max_records};
ghost use Rattle.chains.specs.Formed.{Formed};
ghost use Rattle.plans.specs.Plan.{links_from};
ghost use Rattle.plans.specs.Passes.{goal_of, first_in, link_of, joined_at, joining};
ghost use Rattle.plans.specs.Links.{Joinable};

use crate::arguments::{MODES, SLOTS};
use crate::onward::onto;
use crate::{GIVEN_UNIT, IN_LINKS, LINK_UNIT, OUT_LINKS, PLAN};
use language::format;
use records::word;

// An arm is entered at its first goal, after any other record comes its next one. Where there is none, its chain goes on as the plan says.
fn goal_of(file: &[u8], plan: &[usize; PLAN], i: usize) -> usize
    requires { i < max_records }
    ensures { result ≡ goal_of file.now i plan.now }
{
    if word(file, i, format::KIND) == format::ARM {
        return onto(word(file, i, format::ARM_GOALS), plan[i]);
    }
    onto(word(file, i, format::NEXT), plan[i])
}

// Where the links of a mode start.
fn links_from(mode: usize) -> usize
    ensures { result ≡ links_from mode }
{
    if mode == format::MODE_IN {
        IN_LINKS
    } else {
        OUT_LINKS
    }
}

// The first argument of the mode, from argument a on: that one if its link says what it passes.
fn first_in(plan: &[usize; PLAN], mode: usize, a: usize) -> usize
    requires { a < max_records }
    ensures { result ≡ first_in mode a plan.now }
{
    let link = plan[links_from(mode) + a];
    if link % GIVEN_UNIT == 0 {
        link / LINK_UNIT
    } else {
        a
    }
}

// The link of record i for the mode.
fn link_of(file: &[u8], plan: &[usize; PLAN], mode: usize, i: usize) -> usize
    requires formed { Formed file.now }
    requires joinable { Joinable file.now (suc i) plan.now }
    ensures { result ≡ link_of file.now mode i plan.now plan.now }
{
    let kind = word(file, i, format::KIND);
    if kind == format::CALL {
        return LINK_UNIT * first_in(plan, mode, word(file, i, format::CALL_ARGUMENTS));
    }
    if kind != format::ARGUMENT {
        return 0;
    }
    let link = LINK_UNIT * first_in(plan, mode, word(file, i, format::NEXT));
    if plan[MODES + i] != mode {
        return link;
    }
    plan[SLOTS + i] + GIVEN_UNIT * word(file, i, format::ARGUMENT_VARIABLE) + link
}

// The three words of record i.
fn join_record(file: &[u8], i: usize, plan: &mut [usize; PLAN])
    requires formed { Formed file.now }
    requires joinable { Joinable file.now (suc i) plan.old }
    ensures { plan.new ≡ joined_at file.now i plan.old }
{
    let goal = goal_of(file, &*plan, i);
    let ins = link_of(file, &*plan, format::MODE_IN, i);
    let outs = link_of(file, &*plan, format::MODE_OUT, i);
    plan[i] = goal;
    plan[IN_LINKS + i] = ins;
    plan[OUT_LINKS + i] = outs;
}

// Those of all records.
pub fn join_records(file: &[u8], plan: &mut [usize; PLAN])
    requires formed { Formed file.now }
    requires joinable { Joinable file.now (record_count file.now) plan.old }
    ensures { plan.new ≡ joining file.now plan.old }
{
    let records = word(file, 0, format::HEADER_COUNT);
    for i in (0..records).rev() {
        join_record(file, i, plan);
    }
}
