// A whole file in written order.
ghost use Rattle.std.specs.Prelude.{◌≡◌, ◌++◌, ◌*◌, ◌≤◌, length, drop};
ghost use Rattle.language.specs.Format.{record_bytes};
ghost use Rattle.language.specs.File.{record_count};
ghost use Rattle.language.specs.Tree.{tree_of};
ghost use Rattle.language.specs.Layout.{written};
ghost use Rattle.chains.specs.Formed.{Formed};

use crate::walk::{write_chain, write_record};
use language::format::HEADER_PROCEDURES;
use records::word;

// Writes the file's records in written order into the front part of the lent slice: the header, then the types, then the procedures. Bytes
// behind them stay as they are.
pub fn write_in_order(file: &[u8], out: &mut [u8])
    requires formed { Formed file.now }
    requires file_in_bounds { record_bytes * record_count file.now ≤ length out.old }
    ensures { out.new ≡ written (tree_of file.now) ++ drop (record_bytes * record_count file.now) out.old }
{
    let procedures = word(file, 0, HEADER_PROCEDURES);
    let end = write_record(file, out, 0, procedures, 0);
    write_chain(file, out, procedures, end);
}
