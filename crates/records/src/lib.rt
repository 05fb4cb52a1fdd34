// Record reading: words, the decoded record, and numbers 1 and 2.
#![tactic(auto)]

pub mod blank;
mod decode;
mod form;
pub mod sizes;
mod stage;
mod widths;
mod words;

pub use decode::record_at;
pub use stage::check_form;
pub use widths::narrow;
pub use words::{header_ok, word, word_in};

// A record, its words named as document 01's table names them. `Other` stands for every number that is no kind.
#[derive(Clone, Copy)]
pub enum Record {
    Header {
        procedures: usize,
        types: usize,
        count: usize,
    },
    Type {
        next: usize,
        functors: usize,
    },
    Functor {
        next: usize,
        arity: usize,
        t1: usize,
        t2: usize,
        t3: usize,
        t4: usize,
    },
    Procedure {
        next: usize,
        variables: usize,
        regions: usize,
        goals: usize,
    },
    Variable {
        next: usize,
        mode: usize,
        of_type: usize,
        region: usize,
    },
    Region {
        next: usize,
        of_type: usize,
        class: usize,
        edges: usize,
    },
    Edge {
        next: usize,
        functor: usize,
        position: usize,
        target: usize,
    },
    Literal {
        next: usize,
        x: usize,
        value: usize,
    },
    Sum {
        next: usize,
        x: usize,
        operation: usize,
        y: usize,
        z: usize,
    },
    Assign {
        next: usize,
        x: usize,
        y: usize,
    },
    Construct {
        next: usize,
        x: usize,
        functor: usize,
        a1: usize,
        a2: usize,
        a3: usize,
        a4: usize,
    },
    Switch {
        next: usize,
        x: usize,
        arms: usize,
    },
    Arm {
        next: usize,
        goals: usize,
        functor: usize,
        a1: usize,
        a2: usize,
        a3: usize,
        a4: usize,
    },
    If {
        next: usize,
        y: usize,
        z: usize,
        then_part: usize,
        else_part: usize,
    },
    Call {
        next: usize,
        procedure: usize,
        arguments: usize,
    },
    Argument {
        next: usize,
        variable: usize,
    },
    Print {
        next: usize,
        y: usize,
    },
    Create {
        next: usize,
        region: usize,
    },
    Remove {
        next: usize,
        region: usize,
    },
    Try {
        next: usize,
        condition: usize,
        then_part: usize,
        else_part: usize,
    },
    Test {
        next: usize,
        y: usize,
        z: usize,
    },
    Other,
}
