// Records of the file that are laid as they are.
ghost use Rattle.std.specs.Prelude.{false, ◌*◌, ◌<◌, length};
ghost use Rattle.language.specs.File.{record_count};
ghost use Rattle.language.specs.Layout.{lay};
ghost use Rattle.chains.specs.Formed.{Formed};
ghost use Rattle.writer.specs.Ready.{tree_at, front_to};
ghost use Rattle.laying.specs.Lays.{Lays};
ghost use Rattle.laying.specs.Copies.{HasRoom};

use language::format::{MAX_RECORDS, RECORD_BYTES};
use writer::{skip_chain, skip_record, write_chain, write_record};

// Whether records up to place end may be written.
fn has_room(out: &[u8], end: usize) -> bool
    ensures { HasRoom (length out.now) end result }
{
    if end > MAX_RECORDS {
        return false;
    }
    RECORD_BYTES * end <= out.len()
}

// Lays the chain that starts at record start.
pub fn lay_chain(file: &[u8], out: &mut [u8], start: usize, first: usize) -> usize
    requires formed { Formed file.now }
    requires start_bound { start < record_count file.now }
    ensures { Lays out.old out.new first result (lay (tree_at file.now start) first) }
{
    let end = skip_chain(file, start, first);
    if has_room(out, end) {
        write_chain(file, out, start, first);
    }
    end
}

// Lays record i and what its words lead to. The chain goes on behind it where `on` is not 0.
pub fn lay_record(file: &[u8], out: &mut [u8], i: usize, on: usize, first: usize) -> usize
    requires formed { Formed file.now }
    requires i_bound { i < record_count file.now }
    ensures { Lays out.old out.new first result (front_to file.now i on first) }
{
    let end = skip_record(file, i, first);
    if has_room(out, end) {
        write_record(file, out, i, on, first);
    }
    end
}
