// The annotator's answer to any bytes: the annotated file at the front of the lent memory, or the lowest number that applies.
#![tactic(auto)]

mod annotatable;
mod answer;
mod front;

pub use answer::annotate;
pub use front::annotated_front;
