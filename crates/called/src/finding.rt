// The procedures that chains of calls from the entry reach: a worklist of them, where each one's calls are looked at once.
ghost use Rattle.std.specs.Prelude.{◌≡◌, true, length, ◌<◌};
ghost use Rattle.language.specs.CallChains.{CallChain, reached_ok};
ghost use Rattle.language.specs.Typing.{typing_ok};
ghost use Rattle.language.specs.Answers.{program};
ghost use Rattle.chains.specs.Formed.{Formed};
ghost use Rattle.called.specs.Linked.{CallsLinked};
ghost use Rattle.called.specs.Found.{Found};
ghost use Rattle.called.specs.Worklist.{Looked};

use chains::{chain_length, word};
use language::format::{
    CALL_PROCEDURE, ENTRY_PROCEDURE, HEADER_PROCEDURES, MAX_PROCEDURES, MAX_RECORDS,
};
use records::narrow;

// Marks what procedure p calls; those that had no mark go behind the n procedures found so far. How many those are then.
fn look_at(
    file: &[u8],
    links: &[u16; MAX_RECORDS],
    lasts: &[u16; MAX_PROCEDURES],
    p: usize,
    marks: &mut [u16; MAX_PROCEDURES],
    order: &mut [u16; MAX_PROCEDURES],
    n: usize,
) -> usize
    requires formed { Formed file.now }
    requires file_value { typing_ok (program file.now) ≡ true }
    requires calls_linked { CallsLinked file.now links.now lasts.now }
    requires p_in_bounds { (p < length (program file.now).procedures) × CallChain (program file.now) p }
    requires found { Found file.now marks.old order.old n }
    ensures { Looked file.now p marks.old order.old n marks.new order.new result }
{
    let mut found = n;
    let mut i = usize::from(lasts[p]);
    while i != 0 {
        let q = word(file, i, CALL_PROCEDURE);
        if marks[q] == 0 {
            marks[q] = 1;
            order[found] = narrow(q);
            found += 1;
        }
        i = usize::from(links[i]);
    }
    found
}

// Whether chains of calls from the entry reach every procedure: as many were found as there are.
pub fn reaches_all(file: &[u8], links: &[u16; MAX_RECORDS], lasts: &[u16; MAX_PROCEDURES]) -> bool
    requires formed { Formed file.now }
    requires file_value { typing_ok (program file.now) ≡ true }
    requires calls_linked { CallsLinked file.now links.now lasts.now }
    ensures { result ≡ reached_ok (program file.now) }
{
    let mut marks = [0; MAX_PROCEDURES];
    let mut order = [0; MAX_PROCEDURES];
    marks[ENTRY_PROCEDURE] = 1;
    let mut found = 1;
    let mut k = 0;
    // What this looks at adds to the procedures that are left: no range counts them beforehand.
    while k < found {
        let p = usize::from(order[k]);
        found = look_at(file, links, lasts, p, &mut marks, &mut order, found);
        k += 1;
    }
    found == chain_length(file, word(file, 0, HEADER_PROCEDURES))
}
