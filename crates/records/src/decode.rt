// The decoded record.
ghost use Rattle.std.specs.Prelude.{◌≡◌};
ghost use Rattle.language.specs.File.{word, k_header, k_type, k_functor, k_procedure, k_variable, k_region, k_edge, k_arm, k_argument, k_goal};
ghost use Rattle.language.specs.File.{k_literal, k_sum, k_assign, k_construct, k_switch, k_if, k_call, k_print, k_create, k_remove, k_try, k_test};
ghost use Rattle.records.specs.Records.{record_as, record_at};

use crate::Record;
use crate::words::word;
use language::format::*;

// Record i of a file. Here its kind's number becomes a case of the enum.
pub fn record_at(file: &[u8], i: usize) -> Record
    ensures { result ≡ record_at file.now i }
{
    match word(file, i, KIND) {
        HEADER => read_header(file, i),
        TYPE => read_type(file, i),
        FUNCTOR => read_functor(file, i),
        PROCEDURE => read_procedure(file, i),
        VARIABLE => read_variable(file, i),
        REGION => read_region(file, i),
        EDGE => read_edge(file, i),
        LITERAL => read_literal(file, i),
        SUM => read_sum(file, i),
        ASSIGN => read_assign(file, i),
        CONSTRUCT => read_construct(file, i),
        SWITCH => read_switch(file, i),
        ARM => read_arm(file, i),
        IF => read_if(file, i),
        CALL => read_call(file, i),
        ARGUMENT => read_argument(file, i),
        PRINT => read_print(file, i),
        CREATE => read_create(file, i),
        REMOVE => read_remove(file, i),
        TRY => read_try(file, i),
        TEST => read_test(file, i),
        _ => Record::Other,
    }
}

fn read_header(file: &[u8], i: usize) -> Record
    ensures { result ≡ record_as k_header (word file.now i) }
{
    Record::Header {
        procedures: word(file, i, HEADER_PROCEDURES),
        types: word(file, i, HEADER_TYPES),
        count: word(file, i, HEADER_COUNT),
    }
}

fn read_type(file: &[u8], i: usize) -> Record
    ensures { result ≡ record_as k_type (word file.now i) }
{
    Record::Type {
        next: word(file, i, NEXT),
        functors: word(file, i, TYPE_FUNCTORS),
    }
}

fn read_functor(file: &[u8], i: usize) -> Record
    ensures { result ≡ record_as k_functor (word file.now i) }
{
    Record::Functor {
        next: word(file, i, NEXT),
        arity: word(file, i, FUNCTOR_ARITY),
        t1: word(file, i, FUNCTOR_TYPES),
        t2: word(file, i, FUNCTOR_TYPES + 1),
        t3: word(file, i, FUNCTOR_TYPES + 2),
        t4: word(file, i, FUNCTOR_TYPES + 3),
    }
}

fn read_procedure(file: &[u8], i: usize) -> Record
    ensures { result ≡ record_as k_procedure (word file.now i) }
{
    Record::Procedure {
        next: word(file, i, NEXT),
        variables: word(file, i, PROCEDURE_VARIABLES),
        regions: word(file, i, PROCEDURE_REGIONS),
        goals: word(file, i, PROCEDURE_GOALS),
    }
}

fn read_variable(file: &[u8], i: usize) -> Record
    ensures { result ≡ record_as k_variable (word file.now i) }
{
    Record::Variable {
        next: word(file, i, NEXT),
        mode: word(file, i, VARIABLE_MODE),
        of_type: word(file, i, VARIABLE_TYPE),
        region: word(file, i, VARIABLE_REGION),
    }
}

fn read_region(file: &[u8], i: usize) -> Record
    ensures { result ≡ record_as k_region (word file.now i) }
{
    Record::Region {
        next: word(file, i, NEXT),
        of_type: word(file, i, REGION_TYPE),
        class: word(file, i, REGION_CLASS),
        edges: word(file, i, REGION_EDGES),
    }
}

fn read_edge(file: &[u8], i: usize) -> Record
    ensures { result ≡ record_as k_edge (word file.now i) }
{
    Record::Edge {
        next: word(file, i, NEXT),
        functor: word(file, i, EDGE_FUNCTOR),
        position: word(file, i, EDGE_POSITION),
        target: word(file, i, EDGE_TARGET),
    }
}

fn read_literal(file: &[u8], i: usize) -> Record
    ensures { result ≡ record_as (k_goal k_literal) (word file.now i) }
{
    Record::Literal {
        next: word(file, i, NEXT),
        x: word(file, i, GOAL_X),
        value: word(file, i, LITERAL_VALUE),
    }
}

fn read_sum(file: &[u8], i: usize) -> Record
    ensures { result ≡ record_as (k_goal k_sum) (word file.now i) }
{
    Record::Sum {
        next: word(file, i, NEXT),
        x: word(file, i, GOAL_X),
        operation: word(file, i, SUM_OPERATION),
        y: word(file, i, SUM_Y),
        z: word(file, i, SUM_Z),
    }
}

fn read_assign(file: &[u8], i: usize) -> Record
    ensures { result ≡ record_as (k_goal k_assign) (word file.now i) }
{
    Record::Assign {
        next: word(file, i, NEXT),
        x: word(file, i, GOAL_X),
        y: word(file, i, ASSIGN_Y),
    }
}

fn read_construct(file: &[u8], i: usize) -> Record
    ensures { result ≡ record_as (k_goal k_construct) (word file.now i) }
{
    Record::Construct {
        next: word(file, i, NEXT),
        x: word(file, i, GOAL_X),
        functor: word(file, i, TERM_FUNCTOR),
        a1: word(file, i, TERM_ARGUMENTS),
        a2: word(file, i, TERM_ARGUMENTS + 1),
        a3: word(file, i, TERM_ARGUMENTS + 2),
        a4: word(file, i, TERM_ARGUMENTS + 3),
    }
}

fn read_switch(file: &[u8], i: usize) -> Record
    ensures { result ≡ record_as (k_goal k_switch) (word file.now i) }
{
    Record::Switch {
        next: word(file, i, NEXT),
        x: word(file, i, GOAL_X),
        arms: word(file, i, SWITCH_ARMS),
    }
}

fn read_arm(file: &[u8], i: usize) -> Record
    ensures { result ≡ record_as k_arm (word file.now i) }
{
    Record::Arm {
        next: word(file, i, NEXT),
        goals: word(file, i, ARM_GOALS),
        functor: word(file, i, TERM_FUNCTOR),
        a1: word(file, i, TERM_ARGUMENTS),
        a2: word(file, i, TERM_ARGUMENTS + 1),
        a3: word(file, i, TERM_ARGUMENTS + 2),
        a4: word(file, i, TERM_ARGUMENTS + 3),
    }
}

fn read_if(file: &[u8], i: usize) -> Record
    ensures { result ≡ record_as (k_goal k_if) (word file.now i) }
{
    Record::If {
        next: word(file, i, NEXT),
        y: word(file, i, IF_Y),
        z: word(file, i, IF_Z),
        then_part: word(file, i, IF_THEN),
        else_part: word(file, i, IF_ELSE),
    }
}

fn read_call(file: &[u8], i: usize) -> Record
    ensures { result ≡ record_as (k_goal k_call) (word file.now i) }
{
    Record::Call {
        next: word(file, i, NEXT),
        procedure: word(file, i, CALL_PROCEDURE),
        arguments: word(file, i, CALL_ARGUMENTS),
    }
}

fn read_argument(file: &[u8], i: usize) -> Record
    ensures { result ≡ record_as k_argument (word file.now i) }
{
    Record::Argument {
        next: word(file, i, NEXT),
        variable: word(file, i, ARGUMENT_VARIABLE),
    }
}

fn read_print(file: &[u8], i: usize) -> Record
    ensures { result ≡ record_as (k_goal k_print) (word file.now i) }
{
    Record::Print {
        next: word(file, i, NEXT),
        y: word(file, i, PRINT_Y),
    }
}

fn read_create(file: &[u8], i: usize) -> Record
    ensures { result ≡ record_as (k_goal k_create) (word file.now i) }
{
    Record::Create {
        next: word(file, i, NEXT),
        region: word(file, i, LIFETIME_REGION),
    }
}

fn read_remove(file: &[u8], i: usize) -> Record
    ensures { result ≡ record_as (k_goal k_remove) (word file.now i) }
{
    Record::Remove {
        next: word(file, i, NEXT),
        region: word(file, i, LIFETIME_REGION),
    }
}

fn read_try(file: &[u8], i: usize) -> Record
    ensures { result ≡ record_as (k_goal k_try) (word file.now i) }
{
    Record::Try {
        next: word(file, i, NEXT),
        condition: word(file, i, TRY_CONDITION),
        then_part: word(file, i, TRY_THEN),
        else_part: word(file, i, TRY_ELSE),
    }
}

fn read_test(file: &[u8], i: usize) -> Record
    ensures { result ≡ record_as (k_goal k_test) (word file.now i) }
{
    Record::Test {
        next: word(file, i, NEXT),
        y: word(file, i, TEST_Y),
        z: word(file, i, TEST_Z),
    }
}
