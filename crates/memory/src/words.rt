// Words of a lent memory, for any place.
ghost use Rattle.std.specs.Prelude.{◌≡◌, get_or, set};

// A word; past the end it is 0.
pub fn word(mem: &[u32], at: usize) -> u32
    ensures { result ≡ get_or mem.now at 0 }
{
    if at < mem.len() { mem[at] } else { 0 }
}

// A store; past the end there is none.
pub fn put(mem: &mut [u32], at: usize, value: u32)
    ensures { mem.new ≡ set mem.old at value }
{
    if at < mem.len() {
        mem[at] = value;
    }
}
