// The walk of a file with both tables lent as numbers, as a program in another language lends them.
// `numbers` has the loop, `moves` what a line or a closed message changes, `columns` the numbers of
// a line.
#![tactic(auto)]

mod columns;
mod moves;
mod numbers;

pub use numbers::{WalkAnswer, walk_numbers};
