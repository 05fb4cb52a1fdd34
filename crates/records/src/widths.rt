// Numbers between 64 and 16 bits.
ghost use Rattle.std.specs.Prelude.{◌≡◌, ◌<◌};
ghost use Rattle.records.specs.Sizes.{word_end};

// TryFrom would give a Result that no caller can get an Err from, and no caller has an answer for.
pub fn narrow(v: usize) -> u16
    requires { v < word_end }
    ensures { result ≡ v }
{
    v as u16
}
