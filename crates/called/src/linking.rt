// The calls of each procedure, linked in one pass over the records: from the procedure to its last call, from each call to the one before it.
ghost use Rattle.std.specs.Prelude.{◌≡◌, true, ◌<◌, get_or, set, replicate};
ghost use Rattle.language.specs.Format.{max_records, max_procedures};
ghost use Rattle.language.specs.Typing.{typing_ok};
ghost use Rattle.language.specs.Answers.{program};
ghost use Rattle.chains.specs.Formed.{Formed};
ghost use Rattle.called.specs.Linked.{OwnersIn, CallsLinked, LinksLeft};

use chains::{record_count, word};
use language::format::{CALL, KIND, MAX_PROCEDURES, MAX_RECORDS};
use records::narrow;

// Puts the call at record i in front of those of its procedure, whose number stands in its place.
fn link_call(i: usize, links: &mut [u16; MAX_RECORDS], lasts: &mut [u16; MAX_PROCEDURES])
    requires { (get_or links.old i 0 < max_procedures) × (i < max_records) }
    ensures links_after { links.new ≡ set links.old i (get_or lasts.old (get_or links.old i 0) 0) }
    ensures lasts_after { lasts.new ≡ set lasts.old (get_or links.old i 0) i }
{
    let p = usize::from(links[i]);
    links[i] = lasts[p];
    lasts[p] = narrow(i);
}

// In `links` stands the procedure of each record; a call's place gets its link.
pub fn link_calls(file: &[u8], links: &mut [u16; MAX_RECORDS], lasts: &mut [u16; MAX_PROCEDURES])
    requires formed { Formed file.now }
    requires file_value { typing_ok (program file.now) ≡ true }
    requires owners_in { OwnersIn file.now links.old }
    requires lasts_value { lasts.old ≡ replicate max_procedures 0 }
    ensures calls_linked { CallsLinked file.now links.new lasts.new }
    ensures links_left { LinksLeft file.now links.old links.new }
{
    let n = record_count(file);
    for i in 1..n {
        if word(file, i, KIND) == CALL {
            link_call(i, links, lasts);
        }
    }
}
