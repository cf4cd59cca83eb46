// Where runs start: a grid over both axes, and the grid points nearest to the mark.
#![tactic(auto)]

mod survey;
mod table;

use shortlist::Starts;
pub use survey::walk;
use vector3::Vector3;

// A grid point before its evaluation. `row` and `column` are one more than where the functions of u and of v start, 0 where that is not known; `weighed` is the column whose patch's weights the net holds, in the same row, 0 where it holds none.
#[derive(Clone, Copy)]
pub struct Node {
    pub u: f64,
    pub v: f64,
    pub row: usize,
    pub column: usize,
    pub weighed: usize,
}

// The point of an evaluation.
#[derive(Clone, Copy)]
pub enum Located {
    At(Vector3),
    Refused,
}

// A walk of the grid: every point was evaluated where refusal is 0; an evaluation refused where it is 9; no unit was left where it is 8.
#[derive(Clone, Copy)]
pub struct Walked {
    pub refusal: u64,
    pub taken: u64,
    pub starts: Starts,
}
