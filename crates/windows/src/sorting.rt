// A procedure's regions by class, and number 7 for it.
ghost use Rattle.std.specs.Prelude.{◌≡◌, ◌≤◌, length, drop};
ghost use Rattle.language.specs.File;
ghost use Rattle.language.specs.Program.{Signature};
ghost use Rattle.language.specs.Lifetimes.{classes_ok};
ghost use Rattle.chains.specs.Formed.{Formed, Stands};
ghost use Rattle.windows.specs.Classed.{SignatureAt, Reached, Classed};

use crate::Classes;
use crate::sets_of::{of_class, variables_in};
use language::format::{CLASS_BORN, CLASS_DEAD, MODE_IN, MODE_OUT};
use tables::reach_all;

impl Classes {
    // Number 7 does not apply: "class 1 not output-only or class 2 not input-only".
    pub fn right(self) -> bool
        ensures { (S : Signature) → Classed S self → result ≡ classes_ok S }
    {
        let inputs = self.inputs;
        let outputs = self.outputs;
        let born = self.born;
        let dead = self.dead;
        if !born.is_subset(outputs.difference(inputs)) {
            return false;
        }
        dead.is_subset(inputs.difference(outputs))
    }
}

// The sets of a procedure with these variables and regions; its window, from place `at` on, has what its variables reach.
pub fn classes_of(file: &[u8], v: usize, r: usize, table: &[u64], at: usize) -> Classes
    requires formed { Formed file.now }
    requires stands { Stands file.now File.variables v × Stands file.now File.regions r }
    requires at_in_bounds { at ≤ length table.now }
    ensures { (S : Signature) → SignatureAt file.now v r S → Reached S (drop at table.now) → Classed S result }
{
    let own = &table[at..];
    let ins = variables_in(file, v, MODE_IN);
    let outs = variables_in(file, v, MODE_OUT);
    let inputs = reach_all(own, ins);
    let outputs = reach_all(own, outs);
    let born = of_class(file, r, CLASS_BORN);
    let dead = of_class(file, r, CLASS_DEAD);
    let passed = inputs.union(outputs);
    let kept = passed.difference(born.union(dead));
    Classes {
        ins,
        outs,
        inputs,
        outputs,
        born,
        dead,
        kept,
        passed,
    }
}
