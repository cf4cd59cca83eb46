// How an answer is written to what a caller of the library lends.
#![tactic(auto)]

mod answers;
mod ends;

pub use answers::{
    Answer, answer_of_components, answer_of_placing, lay_answer, lay_end, lay_jet, lay_printout,
    lay_quote,
};
pub use ends::{lay_edges, lay_ended};
