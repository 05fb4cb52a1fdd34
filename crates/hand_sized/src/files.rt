// The hand-sized files of document 01, a record a line and each word's low byte first, each proved equal to the file of `language`'s Table.
ghost use Rattle.std.specs.Prelude.{◌≡◌};
ghost use Rattle.language.specs.Table.{U as fileU, A as fileA, new_u, U5, U6, early, twice};

use language::format::RECORD_BYTES;

const U: [u8; 112] = *b"\x01\0\x03\0\x01\0\x07\0\0\0\0\0\0\0\0\0\
    \x02\0\0\0\x02\0\0\0\0\0\0\0\0\0\0\0\
    \x03\0\0\0\0\0\0\0\0\0\0\0\0\0\0\0\
    \x04\0\0\0\x04\0\x05\0\x06\0\0\0\0\0\0\0\
    \x05\0\0\0\0\0\x01\0\x01\0\0\0\0\0\0\0\
    \x06\0\0\0\x01\0\0\0\0\0\0\0\0\0\0\0\
    \x0b\0\0\0\x01\0\0\0\0\0\0\0\0\0\0\0";

const A: [u8; 144] = *b"\x01\0\x03\0\x01\0\x09\0\0\0\0\0\0\0\0\0\
    \x02\0\0\0\x02\0\0\0\0\0\0\0\0\0\0\0\
    \x03\0\0\0\0\0\0\0\0\0\0\0\0\0\0\0\
    \x04\0\0\0\x04\0\x05\0\x06\0\0\0\0\0\0\0\
    \x05\0\0\0\0\0\x01\0\x01\0\0\0\0\0\0\0\
    \x06\0\0\0\x01\0\0\0\0\0\0\0\0\0\0\0\
    \x12\0\x07\0\x01\0\0\0\0\0\0\0\0\0\0\0\
    \x0b\0\x08\0\x01\0\0\0\0\0\0\0\0\0\0\0\
    \x13\0\0\0\x01\0\0\0\0\0\0\0\0\0\0\0";

// "File U then has no region record" (C-14).
const NEW_U: [u8; 96] = *b"\x01\0\x03\0\x01\0\x06\0\0\0\0\0\0\0\0\0\
    \x02\0\0\0\x02\0\0\0\0\0\0\0\0\0\0\0\
    \x03\0\0\0\0\0\0\0\0\0\0\0\0\0\0\0\
    \x04\0\0\0\x04\0\0\0\x05\0\0\0\0\0\0\0\
    \x05\0\0\0\0\0\x01\0\0\0\0\0\0\0\0\0\
    \x0b\0\0\0\x01\0\0\0\0\0\0\0\0\0\0\0";

// "A with create, remove, construct".
const EARLY: [u8; 144] = *b"\x01\0\x03\0\x01\0\x09\0\0\0\0\0\0\0\0\0\
    \x02\0\0\0\x02\0\0\0\0\0\0\0\0\0\0\0\
    \x03\0\0\0\0\0\0\0\0\0\0\0\0\0\0\0\
    \x04\0\0\0\x04\0\x05\0\x06\0\0\0\0\0\0\0\
    \x05\0\0\0\0\0\x01\0\x01\0\0\0\0\0\0\0\
    \x06\0\0\0\x01\0\0\0\0\0\0\0\0\0\0\0\
    \x12\0\x07\0\x01\0\0\0\0\0\0\0\0\0\0\0\
    \x13\0\x08\0\x01\0\0\0\0\0\0\0\0\0\0\0\
    \x0b\0\0\0\x01\0\0\0\0\0\0\0\0\0\0\0";

// "A with a second remove".
const TWICE: [u8; 160] = *b"\x01\0\x03\0\x01\0\x0a\0\0\0\0\0\0\0\0\0\
    \x02\0\0\0\x02\0\0\0\0\0\0\0\0\0\0\0\
    \x03\0\0\0\0\0\0\0\0\0\0\0\0\0\0\0\
    \x04\0\0\0\x04\0\x05\0\x06\0\0\0\0\0\0\0\
    \x05\0\0\0\0\0\x01\0\x01\0\0\0\0\0\0\0\
    \x06\0\0\0\x01\0\0\0\0\0\0\0\0\0\0\0\
    \x12\0\x07\0\x01\0\0\0\0\0\0\0\0\0\0\0\
    \x0b\0\x08\0\x01\0\0\0\0\0\0\0\0\0\0\0\
    \x13\0\x09\0\x01\0\0\0\0\0\0\0\0\0\0\0\
    \x13\0\0\0\x01\0\0\0\0\0\0\0\0\0\0\0";

pub fn u() -> [u8; 112]
    ensures { result ≡ fileU }
{
    U
}

pub fn a() -> [u8; 144]
    ensures { result ≡ fileA }
{
    A
}

pub fn new_u() -> [u8; 96]
    ensures { result ≡ new_u }
{
    NEW_U
}

pub fn removed_early() -> [u8; 144]
    ensures { result ≡ early }
{
    EARLY
}

pub fn removed_twice() -> [u8; 160]
    ensures { result ≡ twice }
{
    TWICE
}

// "U with w7 = 1 in record 5".
pub fn unused_word() -> [u8; 112]
    ensures { result ≡ U5 }
{
    let mut file = u();
    file[RECORD_BYTES * 5 + 14] = 1;
    file
}

// ".. in record 6".
pub fn past_arity() -> [u8; 112]
    ensures { result ≡ U6 }
{
    let mut file = u();
    file[RECORD_BYTES * 6 + 14] = 1;
    file
}
