// Document 01's numbers: kinds, the places of words, modes, classes, limits. The definitions have them under the same names (specs/Format.antt).

// Kinds: "w0 is the kind".
pub const HEADER: usize = 1;

pub const TYPE: usize = 2;

pub const FUNCTOR: usize = 3;

pub const PROCEDURE: usize = 4;

pub const VARIABLE: usize = 5;

pub const REGION: usize = 6;

pub const EDGE: usize = 7;

pub const LITERAL: usize = 8;

pub const SUM: usize = 9;

pub const ASSIGN: usize = 10;

pub const CONSTRUCT: usize = 11;

pub const SWITCH: usize = 12;

pub const ARM: usize = 13;

pub const IF: usize = 14;

pub const CALL: usize = 15;

pub const ARGUMENT: usize = 16;

pub const PRINT: usize = 17;

pub const CREATE: usize = 18;

pub const REMOVE: usize = 19;

pub const TRY: usize = 20;

pub const TEST: usize = 21;

// The places of a record's words.
// every record
pub const KIND: usize = 0;

pub const NEXT: usize = 1;
// header
pub const HEADER_PROCEDURES: usize = 1;

pub const HEADER_TYPES: usize = 2;

pub const HEADER_COUNT: usize = 3;
// type
pub const TYPE_FUNCTORS: usize = 2;
// functor; its argument types are four words from there on
pub const FUNCTOR_ARITY: usize = 2;

pub const FUNCTOR_TYPES: usize = 3;
// procedure
pub const PROCEDURE_VARIABLES: usize = 2;

pub const PROCEDURE_REGIONS: usize = 3;

pub const PROCEDURE_GOALS: usize = 4;
// variable
pub const VARIABLE_MODE: usize = 2;

pub const VARIABLE_TYPE: usize = 3;

pub const VARIABLE_REGION: usize = 4;
// region
pub const REGION_TYPE: usize = 2;

pub const REGION_CLASS: usize = 3;

pub const REGION_EDGES: usize = 4;
// edge
pub const EDGE_FUNCTOR: usize = 2;

pub const EDGE_POSITION: usize = 3;

pub const EDGE_TARGET: usize = 4;
// literal, sum, assign, construct and switch: X
pub const GOAL_X: usize = 2;
// literal, sum and assign
pub const LITERAL_VALUE: usize = 3;

pub const SUM_OPERATION: usize = 3;

pub const SUM_Y: usize = 4;

pub const SUM_Z: usize = 5;

pub const ASSIGN_Y: usize = 3;
// construct and arm; their arguments are four words from there on
pub const TERM_FUNCTOR: usize = 3;

pub const TERM_ARGUMENTS: usize = 4;
// switch and arm
pub const SWITCH_ARMS: usize = 3;

pub const ARM_GOALS: usize = 2;
// if
pub const IF_Y: usize = 2;

pub const IF_Z: usize = 3;

pub const IF_THEN: usize = 4;

pub const IF_ELSE: usize = 5;
// try and test
pub const TRY_CONDITION: usize = 2;

pub const TRY_THEN: usize = 3;

pub const TRY_ELSE: usize = 4;

pub const TEST_Y: usize = 2;

pub const TEST_Z: usize = 3;
// call and argument
pub const CALL_PROCEDURE: usize = 2;

pub const CALL_ARGUMENTS: usize = 3;

pub const ARGUMENT_VARIABLE: usize = 2;
// print; create and remove
pub const PRINT_Y: usize = 2;

pub const LIFETIME_REGION: usize = 2;

// "mode (0 local, 1 in, 2 out)"; "class (0 none, 1 born, 2 dead)"
pub const MODE_IN: usize = 1;

pub const MODE_OUT: usize = 2;

pub const CLASS_BORN: usize = 1;

pub const CLASS_DEAD: usize = 2;

// Limits.
pub const RECORD_BYTES: usize = 16;

pub const MAX_BYTES: usize = 65536;

pub const MAX_RECORDS: usize = 4096;

pub const MAX_TYPES: usize = 64;

pub const MAX_FUNCTORS: usize = 32;

pub const MAX_ARITY: usize = 4;

pub const MAX_PROCEDURES: usize = 256;

// "Procedure 0 is the entry."
pub const ENTRY_PROCEDURE: usize = 0;

pub const MAX_VARIABLES: usize = 64;

pub const MAX_REGIONS: usize = 64;

// Places for the numbers 0 to 64 of variables or regions.
pub const PLACES: usize = 65;
