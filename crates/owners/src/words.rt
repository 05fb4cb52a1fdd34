// The record table as a pass reads it.
ghost use Rattle.std.specs.Prelude.{◌≡◌, ◌<◌};
ghost use Rattle.language.specs.File.{kind_of};
ghost use Rattle.records.specs.Sizes.{kinds_end};
ghost use Rattle.owners.specs.Handed.{part_digits};

use records::sizes::KINDS_END;

// The words beside w1 by which a record refers, a row for each kind's number: one hex digit a word, the first one lowest.
static PART_WORDS: [usize; KINDS_END] = [
    0, // no kind
    0x2, // header
    0x2, // type
    0, // functor
    0x432, // procedure
    0, // variable
    0x4, // region
    0, // edge
    0, // literal
    0, // sum
    0, // assign
    0, // construct
    0x3, // switch
    0x2, // arm
    0x54, // if
    0x3, // call
    0, // argument
    0, // print
    0, // create
    0, // remove
    0x432, // try
    0, // test
];

// The row of a kind.
pub(crate) fn part_digits(kind: usize) -> usize
    requires { kind < kinds_end }
    ensures { result ≡ part_digits (kind_of kind) }
{
    PART_WORDS[kind]
}
