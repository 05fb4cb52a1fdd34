// The mapping of a call.
ghost use Rattle.language.specs.File;
ghost use Rattle.chains.specs.Formed.{Formed, Stands};
ghost use Rattle.regions.specs.Pairs.{Standing, Grown};
ghost use Rattle.regions.specs.CallMap.{CallMapped};

use crate::pairs::map_region;
use chains::word;
use language::format::{ARGUMENT_VARIABLE, NEXT, VARIABLE_MODE, VARIABLE_REGION};
use tables::{FIRST, home, word_at};

// The callee's in and out variables against the call's arguments, which are in the chain at record arguments. False where a region has two images;
// the places of regions that had no image are then free.
pub fn map_call(
    file: &[u8],
    own: &[u64],
    callee: &[u64],
    arguments: usize,
    images: &mut [usize],
) -> bool
    requires formed { Formed file.now }
    requires standing { Standing file.now own.now }
    requires standing_2 { Standing file.now callee.now }
    requires stands { Stands file.now File.arguments arguments }
    ensures grown { Grown images.old images.new }
    ensures call_mapped { CallMapped file.now own.now callee.now arguments images.old result images.new }
{
    let mut x = word_at(callee, FIRST);
    let mut a = arguments;
    while x != 0 {
        let next = word(file, x, NEXT);
        if word(file, x, VARIABLE_MODE) != 0 {
            if a == 0 {
                return true;
            }
            let r = word(file, x, VARIABLE_REGION);
            let u = home(own, word(file, a, ARGUMENT_VARIABLE));
            if !map_region(file, own, callee, r, u, images) {
                return false;
            }
            a = word(file, a, NEXT);
        }
        x = next;
    }
    true
}
