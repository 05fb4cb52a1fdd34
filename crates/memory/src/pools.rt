// The free places of one sort.
ghost use Rattle.std.specs.Prelude.{◌≡◌};
ghost use Rattle.language.specs.Machine.{holds};
ghost use Rattle.memory.specs.Memory.{unused, taken};

use crate::{MOST, Pool};

// How many of a sort the lent words hold: "a remainder too small for one is not used".
pub fn room(words: usize, each: usize) -> u32
    ensures { result ≡ holds words each }
{
    if each == 0 {
        return 0;
    }
    let n = words / each;
    if n < (MOST as usize) { n as u32 } else { MOST }
}

// No place is used yet: there is nothing to write.
pub fn fresh(limit: u32) -> Pool
    ensures { result ≡ unused limit }
{
    Pool {
        head: 0,
        top: 0,
        limit,
    }
}

// The first free place, and the pool without it; `link` is what that place's link word says.
pub fn take(pool: Pool, link: u32) -> Option<(u32, Pool)>
    ensures { result ≡ taken pool link }
{
    let head = pool.head;
    let top = pool.top;
    let limit = pool.limit;
    if limit <= head {
        return None;
    }
    if head == top {
        let above = head + 1;
        return Some((
            head,
            Pool {
                head: above,
                top: above,
                limit,
            },
        ));
    }
    Some((
        head,
        Pool {
            head: link,
            top,
            limit,
        },
    ))
}
